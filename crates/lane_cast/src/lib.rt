//! Arithmetic and casts of sixteen values at once. [`math16`] gives `a op b` in the lanes of a mask, as in
//! `math16(BinOp::Add, &a, &b, m)`, [`neg16`] gives `-a`, and [`cast16`] `CAST(a AS to)`.
//!
//! No kernel takes memory, and none can refuse.
#![tactic(auto)]

mod cast;
mod math;
mod numbers;
mod spelled;

pub use cast::cast16;
pub use math::{math16, neg16};
