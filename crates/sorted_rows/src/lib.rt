//! The rows of a query with ORDER BY: [`sort_rows`] reads the blocks of a query, has workers scan them, and gives the rows of an
//! answer in their order. It holds no more rows than OFFSET and LIMIT ask for, where these are few:
//! `let sorted = sort_rows(&rt, alloc, &gate, 4, &query, &job, &names, &found.fields, &found.places, &mut files)?`.
#![tactic(auto)]

mod flags;
mod holding;
mod sort;
mod top_sink;

pub use sort::{SortedRows, sort_rows};
