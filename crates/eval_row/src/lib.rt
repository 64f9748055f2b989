//! The value of an expression on a row and an item, one pair at a time, by [`eval_row`], as in
//! `eval_row(alloc, &expr, &row, &Value::Missing)` for a query of one source: plain and slow, to compare other ways with.
//! [`eval_known`] evaluates an expression some of whose parts have values that are known, as keys and aggregates have over a
//! group.
#![tactic(auto)]

mod evaluating;
mod known;
mod paths;

pub use evaluating::{eval_known, eval_row};
pub use known::KnownParts;
