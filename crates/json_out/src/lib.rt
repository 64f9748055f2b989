//! Lines out: rows as JSON objects (RFC 8259), written straight from their cells with no value built for a row.
#![tactic(auto)]

mod checks;
mod lines;
mod maker;
mod numbers;
mod owned;
mod texts;
mod times;
mod values;

pub use lines::{append_row, row_line};
pub use maker::LineMaker;
pub use numbers::put_number;
pub use texts::{put_quoted, put_quoted_bytes};
pub use times::put_quoted_time;
pub use values::put_value;
