//! The named files of a query and their blocks: [`find_places`] reads the index of each file and tells where the blocks stand
//! that the WHERE doesn't exclude, and [`read_batch`] reads the next of them:
//! `let found = find_places(alloc, query, &names, &mut files)?`.
#![tactic(auto)]

mod block;
mod fault;
mod read;
mod survey;

pub use block::{Place, Stored};
pub use fault::FilesFault;
pub use read::{batch_of, read_batch, read_block};
pub use survey::{Survey, find_places, index_of};
