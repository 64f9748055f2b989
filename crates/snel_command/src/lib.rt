//! The commands of snel. [`snel`] does over files, an input and two sinks what the words of a command line ask, and answers
//! the status: `snel(&rt, alloc, &words, &mut files, &mut input, &mut out, &mut err, &gate)`. [`report`] writes the line of
//! a refusal that comes before there are words.
#![tactic(auto)]

mod making;
mod outcome;
mod reporting;
mod run;

pub use outcome::{Done, Outcome, Refusal};
pub use reporting::{Names, report};
pub use run::snel;
