ghost use Rattle.std.specs.Prelude.{◌≡◌, [], ◌∷◌, ◌++◌, length, slice_get, OnOk, OnErr, option_copied};

use crate::memory::OutOfMemory;
use crate::text::Text;
use std::alloc::Global;
use std::marker::Model;

/// Words, such as those of a command line, seen as a list of texts.
#[derive(Drop)]
pub struct Words {
    alloc: Global,
    all: Vec<Text>,
}

impl Model for Words {
    ghost use Rattle.std.specs.Prelude.{List, ℕ};

    ghost Value = { List (List ℕ) };

    ghost view = { λ w. w.all.items };
}

impl Words {
    /// No words.
    pub fn new(alloc: Global) -> Words
        ensures { result ≡ [] }
    {
        Words {
            alloc,
            all: Vec::new(alloc),
        }
    }

    /// Adds a word at the end.
    pub fn push(&mut self, word: &str) -> Result<(), OutOfMemory>
        ensures ok { OnOk result (self.new ≡ self.old ++ word.now ∷ []) }
        ensures err { OnErr result (self.new ≡ self.old) }
    {
        let text = Text::of(self.alloc, word)?;
        self.all.push(text)?;
        Ok(())
    }

    /// The word at a place, counted from 0.
    pub fn get(&self, at: usize) -> Option<&str>
        ensures { option_copied result ≡ slice_get self.now at }
    {
        match self.all.get(at) {
            Some(text) => Some(text.as_str()),
            None => None,
        }
    }

    /// How many words there are.
    pub fn len(&self) -> usize
        ensures { result ≡ length self.now }
    {
        self.all.len()
    }
}
