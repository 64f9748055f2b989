//! What scans of a query's blocks share: OFFSET and LIMIT as a [`Cut`], why a scan stops as a [`ScanFault`], and what it did as
//! [`Done`]. [`put_rows`] puts the lines of rows that were gathered: `put_rows(&rows, &mut out)?`.
#![tactic(auto)]

mod cut;
mod done;
mod fault;
mod put;

pub use cut::{Cut, is_full, range_of, rest_of};
pub use done::Done;
pub use fault::{BatchFault, ScanFault, name_bad};
pub use put::put_rows;
