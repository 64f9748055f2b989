//! Kernels on times, sixteen lanes at once: DATE_TRUNC, EXTRACT, DATE_ADD, TO_UNIX_EPOCH and TO_UNIX_MICRO.
//!
//! `trunc16(Part::Month, &a, m)` has, in each lane of `m`, the first moment of the month in which the time of `a` lies. A
//! kernel is MISSING in every other lane, takes no memory and can't refuse.
#![tactic(auto)]

mod dates;
mod each;
mod extract;
mod shift;
mod trunc;
mod unix;

pub use extract::extract16;
pub use shift::shift16;
pub use trunc::trunc16;
pub use unix::unix16;
