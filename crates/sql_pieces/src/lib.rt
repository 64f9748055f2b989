//! The pieces of printed queries and listings: names by [`put_name`], strings by [`put_string`], literals by
//! [`put_literal`], and decimal digits by [`put_digits`], each added to bytes, as in `put_name(&mut bytes, "a")?`.
#![tactic(auto)]

mod literals;
mod pieces;
mod quotes;

pub use literals::put_literal;
pub use pieces::{put, put_digits};
pub use quotes::{put_name, put_string};
