//! Calls of `snel` over files, inputs and outputs in memory, for tests: [`ends`] says whether a call over stored files ends
//! with a status and these bytes, [`file_of`] and [`Blocks`] make block files of rows that a test chooses:
//! `ends_on(&rt, "SELECT * FROM logs", &file_of(alloc, OF_A, &[b"\xd3\x8a\x21\x01"])?, STEADY, (0, b"{\"a\":1}\n", ""))`.
#![tactic(auto)]

mod calls;
mod files;

pub use calls::{Failing, STEADY, Wanted, ends, ends_on, ends_over, ends_with, stored, words_of};
pub use files::{Blocks, OF_A, OF_A_AND_B, block_of, file_around, file_of};
