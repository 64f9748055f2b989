//! The printed query of a text. A query is dropped by a call: where it falls by itself, the proof spells out each of its parts.
use sql_print::{QueryText, print};
use sql_reader::read;
use std::alloc::Global;

/// The printed query of a text, if it is one.
pub(crate) fn printed(alloc: Global, text: &str) -> Option<QueryText> {
    match read(alloc, text) {
        Ok(query) => {
            let made = print(alloc, &query).ok();
            drop(query);
            made
        }
        Err(_) => None,
    }
}

/// Whether the query of a text is printed so.
pub(crate) fn prints(alloc: Global, text: &str, wanted: &str) -> bool {
    match printed(alloc, text) {
        Some(made) => made.as_str() == wanted,
        None => false,
    }
}
