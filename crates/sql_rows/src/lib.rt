//! The row's name, with which paths may begin: [`short_query`] takes it off the paths of a query,
//! `short_query(alloc, query)?`.
#![tactic(auto)]

mod expressions;
mod paths;
mod queries;

pub use queries::short_query;
