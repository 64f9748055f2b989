//! From lines of JSON to rows. [`read_line`] gives what one line comes to: nothing, a row, or why it is refused:
//! `read_line(alloc, b"{\"a\":1}", &settings)`.
#![tactic(auto)]

mod convert;
mod lines;
mod settings;

pub use lines::{LineFault, LineRead, read_line};
pub use settings::PackSettings;
