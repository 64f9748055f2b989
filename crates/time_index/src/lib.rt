//! The index of a block file: which blocks the file has, and from when to when each of them goes. [`read_index`] reads one,
//! [`write_index`] writes one, and [`bounds`] with [`excluded`] tells which blocks a WHERE leaves out:
//! `excluded(entry, &bounds(filter, "ts"))`.
#![tactic(auto)]

mod binding;
mod entries;
mod entry;
mod excluding;
mod files;
mod index;
mod numbers;
mod reading;
mod soundness;
mod writing;

pub use binding::bounds;
pub use entries::Entries;
pub use entry::Entry;
pub use excluding::excluded;
pub use files::read_index;
pub use index::{Index, IndexFault};
pub use range_meaning::Bounds;
pub use soundness::in_range;
pub use writing::write_index;
