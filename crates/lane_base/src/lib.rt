//! Sixteen values at once: masks, lanes, and the kernels of logic.
//!
//! A lane is one of sixteen places, numbered from 0. A kernel computes one value in each lane of a mask, which is its last
//! argument; in every other lane its result is MISSING. No kernel takes memory, and none can refuse.
#![tactic(auto)]

mod constant;
mod lanes;
mod logic;
mod mask;
mod merge;

pub use constant::const16;
pub use lanes::{IntLanes, Lanes, Look, SpanLanes};
pub use logic::{and16, is16, not16, or16, true16};
pub use mask::LaneMask;
pub use merge::{first16, keep16, merge16};
