//! Queries: [`read`] gives the query that a text comes to, or the first fault of the text,
//! `read(alloc, "SELECT a FROM t WHERE b = 1")?`.
#![tactic(auto)]

mod clauses;
mod depth;
mod reading;
mod sql_fault;
mod whole;
mod window;

pub use reading::read;
pub use sql_fault::SqlFault;
