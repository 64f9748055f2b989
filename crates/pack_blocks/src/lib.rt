//! Rows, one after the other, as the bytes of a block file. A [`BlockWriter`] takes rows, gives the bytes of each block that
//! it closes, and at the end the last block and the index:
//! `let closed = writer.add(alloc, row, Some("time"))?;` .. `let last = writer.finish(alloc, Some("time"))?;`
#![tactic(auto)]

mod closing;
mod finishing;
mod span;
mod writer;

pub use finishing::Finished;
pub use writer::{BlockWriter, RowFault};
