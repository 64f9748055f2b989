//! The printing of queries, by [`print`], as in `print(alloc, &query)?.as_str()`: each operator form in parentheses,
//! every name quoted, so that what is printed is read again.
#![tactic(auto)]

mod clauses;
mod exprs;
mod lists;
mod paths;
mod places;
mod query;
mod query_text;
mod words;

pub use query::print;
pub use query_text::QueryText;
