//! Scanning the blocks of a batch by workers. [`scan_blocks`] hands the rows that pass to a [`SharedSink`], in any order:
//! `scan_blocks(&rt, alloc, &gate, 4, &job, &heads, &fields, &blocks, &mut sink, &mut ran)?`. [`scan_lines`] adds their lines in
//! the order of the blocks.
#![tactic(auto)]

mod collecting;
mod drawing;
mod each;
mod in_order;
mod piece;
mod scan;
mod settle;
mod shared;
mod slots;
mod workers;

pub use in_order::scan_lines;
pub use scan::scan_blocks;
pub use shared::SharedSink;
