//! Making logs: [`LogRows`] gives the rows of a log, one after the other, from the number that the log starts from:
//! `let mut log = LogRows::new(0); let row = log.next_row(alloc)?;`
#![tactic(auto)]

mod log;
mod row;

pub use log::LogRows;
