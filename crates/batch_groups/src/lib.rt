//! The groups of a grouped query's rows, gathered from the registers of frames. [`GroupSink`] takes the rows that pass, alone or
//! as one of several workers' sinks, and makes a row of each group at the end:
//! `let mut sink = GroupSink::new(alloc, &job, limit, seed)?;`, a scan into it, and `sink.finish(alloc, &job)?`.
#![tactic(auto)]

mod adding;
mod joining;
mod lane_keys;
mod looks;
mod operands;
mod sink;

pub use sink::GroupSink;
