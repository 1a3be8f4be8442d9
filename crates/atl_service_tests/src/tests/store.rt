//! Tests of the store by scripts of steps, on databases in memory.
mod calls;
mod campaigns;
mod contents;
mod creating;
mod faults;
mod game;
mod laws;
mod reading;
mod reopening;
mod rows;
mod schemas;
mod script;
mod setting;
mod upgrading;
mod words;
mod writing;
