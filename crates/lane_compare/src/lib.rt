//! Comparisons of sixteen values at once. [`compare16`] gives `a op b` in the lanes of a mask, as in
//! `compare16(BinOp::Lt, &a, &b, m)`; [`null16`] gives the lanes in which an operator of two operands is NULL.
//!
//! No kernel takes memory, and none can refuse.
#![tactic(auto)]

mod compare;
mod numbers;
mod strict;
mod texts;
mod truths;

pub use compare::compare16;
pub use strict::null16;
