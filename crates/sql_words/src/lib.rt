//! Tokens as the parser sees them: [`looks_of`] says what each token of a text is, `looks_of(alloc, text, tokens)?`.
//! The other functions read one word, mark, name or number at a place: what it says, and the place behind it.
#![tactic(auto)]

mod fault;
mod functions;
mod look;
mod looks;
mod marks;
mod names;
mod quotes;
mod refused;
mod reserved;
mod steps;
mod words;

pub use fault::ParseFault;
pub use functions::function_word;
pub use look::Look;
pub use looks::looks_of;
pub use marks::{compare_at, how_at, is_test, literal_of, operator_at, what_at};
pub use names::{name_at, num_at, string_at, word_at};
pub use quotes::undoubled;
pub use refused::refused_at;
pub use steps::{after, expect, skip, token};
pub use words::{cast_word, part_word};
