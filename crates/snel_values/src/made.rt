ghost use Rattle.std.specs.Prelude.{◌≡◌, [], ◌∷◌, ◌++◌, length, slice_get, OnOk, OnErr, MatchOption};
ghost use Rattle.std.specs.Option.{option_map};

use crate::bytes::Bytes;
use crate::items::Items;
use crate::memory::OutOfMemory;
use std::alloc::Global;
use std::marker::Model;

/// What a query makes of a row: the values by which the answer is ordered, and the line that is printed.
#[derive(Drop)]
pub struct MadeRow {
    pub keys: Items,
    pub line: Bytes,
}

/// Made rows, seen as the list of their keys and lines.
#[derive(Drop)]
pub struct MadeRows {
    all: Vec<MadeRow>,
}

impl Model for MadeRows {
    ghost use Rattle.std.specs.Prelude.{List, ℕ, map};
    ghost use Rattle.value_meaning.specs.Val.{Val};
    ghost use Rattle.value_meaning.specs.Code.{coded_val};
    ghost use Rattle.std.specs.Coded.{coded_list, coded×, coded_ℕ};

    ghost Value = { List (List Val × List ℕ) };

    ghost coded = { coded_list (coded× (coded_list coded_val) (coded_list coded_ℕ)) };

    ghost use Rattle.snel_values.specs.Made.{row_view};

    ghost view = { λ m. map row_view m.all.items };
}

impl MadeRows {
    ghost use Rattle.snel_values.specs.Made.{row_view};

    /// No rows.
    pub fn new(alloc: Global) -> MadeRows
        ensures { result ≡ [] }
    {
        MadeRows {
            all: Vec::new(alloc),
        }
    }

    /// Adds a row at the end.
    pub fn push(&mut self, row: MadeRow) -> Result<(), OutOfMemory>
        ensures ok { OnOk result (self.new ≡ self.old ++ row_view row ∷ []) }
        ensures err { OnErr result (self.new ≡ self.old) }
    {
        self.all.push(row)?;
        Ok(())
    }

    /// Takes the last row off.
    pub fn pop(&mut self) -> Option<MadeRow>
        ensures { MatchOption result ((self.old ≡ [])
            × (self.new ≡ [])) (λ r. self.old ≡ self.new ++ row_view r ∷ []) }
    {
        self.all.pop()
    }

    /// The row at a place, counted from 0.
    pub fn get(&self, at: usize) -> Option<&MadeRow>
        ensures { option_map (λ r. row_view r.now) result ≡ slice_get self.now at }
    {
        self.all.get(at)
    }

    /// How many rows there are.
    pub fn len(&self) -> usize
        ensures { result ≡ length self.now }
    {
        self.all.len()
    }
}
