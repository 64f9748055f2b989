ghost use Rattle.std.specs.Prelude.{◌≡◌, [], ◌∷◌, ◌++◌, length, slice_get, OnOk, OnErr, option_copied, IsTrue, ◌↔◌};

use crate::entry::Entry;
use snel_values::OutOfMemory;
use std::alloc::Global;
use std::marker::Model;

/// Entries of an index, seen as their list.
#[derive(Drop)]
pub struct Entries {
    all: Vec<Entry>,
}

impl Model for Entries {
    ghost use Rattle.std.specs.Prelude.{List};
    ghost use Rattle.file_meaning.specs.Files.{Entry as BlockEntry};

    ghost Value = { List BlockEntry };

    ghost view = { λ e. e.all.items };
}

impl Entries {
    /// No entries.
    pub fn new(alloc: Global) -> Entries
        ensures { result ≡ [] }
    {
        Entries {
            all: Vec::new(alloc),
        }
    }

    /// Adds an entry at the end.
    pub fn push(&mut self, entry: Entry) -> Result<(), OutOfMemory>
        ensures ok { OnOk result (self.new ≡ self.old ++ entry ∷ []) }
        ensures err { OnErr result (self.new ≡ self.old) }
    {
        self.all.push(entry)?;
        Ok(())
    }

    /// The entry of the block with this number, counted from 0.
    pub fn get(&self, at: usize) -> Option<&Entry>
        ensures { option_copied result ≡ slice_get self.now at }
    {
        self.all.get(at)
    }

    /// How many entries there are.
    pub fn len(&self) -> usize
        ensures { result ≡ length self.now }
    {
        self.all.len()
    }

    /// Whether there is no entry.
    pub fn is_empty(&self) -> bool
        ensures { IsTrue result ↔ (self.now ≡ []) }
    {
        self.all.is_empty()
    }

    /// The entries, in the order of their blocks.
    pub fn as_slice(&self) -> &[Entry]
        ensures { result.now ≡ self.now }
    {
        self.all.as_slice()
    }
}
