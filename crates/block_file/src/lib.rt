//! Checked blocks, whose rows are read where they lie.
#![tactic(auto)]

mod block;
mod chunk;
mod fault;
mod opening;
mod rows;

pub use block::Block;
pub use chunk::Chunk;
pub use fault::BlockFault;
pub use opening::open_block;
