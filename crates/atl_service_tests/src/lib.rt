//! Tests of the database and what is above it: the store, the service (commands and their answers,
//! opening and upgrading files, disks that stop), and HTTP.
#![tactic(auto)]

#[cfg(test)]
mod tests;
