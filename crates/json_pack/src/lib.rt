//! Packing lines of JSON into a block file. [`pack`] reads the lines of an input and makes the file, line by line:
//! `pack(alloc, "logs.snel", &settings, &mut files, &mut input)?`. [`make`] makes the file of a made log.
#![tactic(auto)]

mod appending;
mod making;
mod packer;
mod packing;
mod reader;
mod sums;

pub use json_rows::PackSettings;
pub use making::make;
pub use pack_meaning::LineWhy;
pub use packing::pack;
pub use sums::{PackFault, PackSum};
