//! Tests of the game without its database: the readers of worlds and mailings, campaigns and their
//! rows, what the phases of a month use, and reports. atl_phase_tests runs whole phases.
#![tactic(auto)]

#[cfg(test)]
mod tests;
