//! Kernels on texts: [`match16`] asks in sixteen lanes whether a text matches a [`Pattern`], and [`length16`] counts its
//! characters.
//!
//! ```text
//! let pattern = Pattern::of(alloc, How::Like, "%error%")?;
//! let found = match16(&pattern, &lanes, mask);
//! ```
//!
//! A pattern is compiled once, and matched by the bytes of a text, of which `_` takes one character. No kernel takes
//! memory, and none can refuse.
#![tactic(auto)]

mod count;
mod kernels;
mod pattern;
mod piece;
mod pieces;
mod scan;

ghost use Rattle.lane_text.specs.PieceLaws.{GreedyIsExact};

pub use kernels::{length16, match16};
pub use pattern::Pattern;

/// The pieces of a pattern, each found at the first place that it can take, decide whether it matches.
pub fn greedy_is_exact()
    ensures { GreedyIsExact }
{}
