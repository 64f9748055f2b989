//! Checks of queries: [`check`] takes a well formed query and hands it back as [`Checked`], with the names of its outputs,
//! its distinct aggregates and whether it is grouped, or gives its first fault.
#![tactic(auto)]

mod fault;
mod findings;
mod firsts;
mod names;
mod order;
mod places;
mod verdict;

pub use fault::{CheckFault, Limit, Place};
pub use names::Names;
pub use verdict::{Checked, check};
