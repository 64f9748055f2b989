//! Jobs: programs of instructions over sixteen lanes and what they end in, the frames that hold their registers, and running
//! a job over one chunk of a block.
//!
//! A job is built once, instruction by instruction, and is then only read. A frame holds the registers of one job; all its
//! memory is taken when it is made, and running takes none.
#![tactic(auto)]

mod bind;
mod compile;
mod ends;
mod frame;
mod instr;
mod job;
mod kernels;
mod literal;
mod make;
mod operands;
mod path;
mod rows;
mod run;
mod tally;

pub use ends::{EndAgg, EndAggs, EndOut, EndOuts, Ends, Registers};
pub use frame::Frame;
pub use instr::Instr;
pub use job::{Builder, Job};
pub use tally::Tally;
