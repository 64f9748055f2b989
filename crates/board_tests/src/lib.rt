//! Tests of the work board: the pure machine by its events, and the board as workers draw blocks at it.
#![tactic(auto)]

#[cfg(test)]
mod machine_tests;
#[cfg(test)]
mod worker_tests;
