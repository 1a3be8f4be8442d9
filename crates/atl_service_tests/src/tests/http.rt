//! Tests of requests over HTTP, replies, readers and writers that fail, sockets and dice.
mod broken;
mod bytes;
mod compare;
mod dice;
mod interrupted;
mod judging;
mod limits;
mod listening;
mod making;
mod pieces;
mod readers_and_writers;
mod requests;
mod serving;
mod stopping;
