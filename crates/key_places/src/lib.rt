//! Where the members of a list are found by their keys: hashes of lists of values, and rows of sixteen tagged places.
//!
//! [`hash_values`] gives the hash of a list of values, as in `hash_values(&DefaultHasher::new(), keys)`. [`put`] puts a
//! number under a hash into rows of places; whoever looks for it goes from row to row by [`row_at`], asks [`probe16`] which
//! places have the hash's tag, and may stop at a row with a free place.
#![tactic(auto)]

mod hashing;
mod row;
mod rows;
mod tags;

pub use hashing::{feed_number, feed_text, feed_word, hash_values};
pub use row::PlaceRow;
pub use rows::{put, row_at, rows_of};
pub use tags::{probe16, tag_of};
