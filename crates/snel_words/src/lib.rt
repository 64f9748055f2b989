//! What the words of a command line ask: [`read_words`] gives the command with its settings and operands, or
//! [`Ask::Nothing`] where the words aren't accepted: `read_words(alloc, &words)?`.
#![tactic(auto)]

ghost use Rattle.std.specs.Prelude.{ℕ, List};
ghost use Rattle.snel_words.specs.Words.{asked};
ghost use Rattle.snel_words.specs.NamedFiles.{HasNames};

mod ask;
mod fronts;
mod names;
mod reading;

pub use ask::{Ask, Packing, Settings};
pub use fronts::Limits;
pub use reading::read_words;

/// A command over files names one to sixty-four of them, and packing stays within its limits.
pub fn files_are_few()
    ensures { (words : List (List ℕ)) → HasNames (asked words) }
{}
