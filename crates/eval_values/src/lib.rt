//! The operators and functions of values, one pair of operands at a time: plain and slow, to compare other ways with.
//! [`binary`] gives `a op b`, as in `binary(BinOp::Add, &a, &b)`, [`call_of`] a function's value, and the others a form
//! each of their own.
#![tactic(auto)]

mod calendar;
mod casts;
mod comparing;
mod functions;
mod logic;
mod matching;
mod numbers;
mod times;

pub use casts::cast_of;
pub use comparing::{between_of, member_of};
pub use functions::{binary, call_of};
pub use logic::{is_of, is_true, not_of};
pub use matching::matching_of;
pub use numbers::negative;
pub use times::{extract_of, shift_of, trunc_of};
