ghost use Rattle.std.specs.Prelude.{◌≡◌, true};
ghost use Rattle.ion_cells.specs.Left.{are_items, are_fields};

use crate::cell::Cell;
use crate::find::find_label;
use crate::fronts::{first_field, first_item};

/// The cells of a list, in order.
#[derive(Drop)]
pub struct Cells<'b> {
    rest: &'b [u8],
    last: u32,
    ghost legal: { are_items last rest.now ≡ true },
}

impl<'b> Cells<'b> {
    ghost use Rattle.std.specs.Prelude.{◌≡◌};
    ghost use Rattle.block_meaning.specs.Tables.{Table};
    ghost use Rattle.ion_cells.specs.Left.{values_of};
    ghost use Rattle.ion_cells.specs.Iterating.{items_last, values_left};

    /// The cells that the bytes are.
    #[tactic(auto, unfolding(crate::specs::Iterating::items_last, crate::specs::Iterating::values_left))]
    pub(crate) fn of_bytes(rest: &'b [u8], last: u32) -> Cells<'b>
        requires { are_items last rest.now ≡ true }
        ensures last { items_last result ≡ last }
        ensures values { (table : Table) → values_left table result ≡ values_of table rest.now }
    {
        Cells { rest, last }
    }
}

impl<'b> Iterator for Cells<'b> {
    type Item = Cell<'b>;

    ghost use Rattle.std.specs.Iterator.{item_count};
    ghost use Rattle.block_meaning.specs.CellReading.{blank_table};
    ghost use Rattle.ion_cells.specs.Iterating.{items_last, values_left, GivesCells};

    ghost next_gives = { GivesCells };

    ghost remaining = { item_count (λ s. values_left (blank_table (items_last s)) s) };

    #[inline(always)]
    fn next(&mut self) -> Option<Cell<'b>> {
        let (cell, others) = first_item(self.rest, self.last)?;
        self.rest = others;
        Some(cell)
    }
}

/// The pairs of a struct, a label and a cell each. The labels rise.
#[derive(Drop)]
pub struct Fields<'b> {
    rest: &'b [u8],
    last: u32,
    low: u32,
    ghost legal: { are_fields last low rest.now ≡ true },
}

impl<'b> Fields<'b> {
    ghost use Rattle.std.specs.Prelude.{◌≡◌};
    ghost use Rattle.block_meaning.specs.Tables.{Table};
    ghost use Rattle.ion_cells.specs.Left.{pairs_of};
    ghost use Rattle.ion_cells.specs.Iterating.{fields_last, pairs_left};
    ghost use Rattle.ion_cells.specs.Finding.{FindsPair};

    /// The pairs that the bytes are, whose labels rise from 10 on.
    #[tactic(auto, unfolding(crate::specs::Iterating::fields_last, crate::specs::Iterating::pairs_left))]
    pub(crate) fn of_bytes(rest: &'b [u8], last: u32) -> Fields<'b>
        requires { are_fields last 10 rest.now ≡ true }
        ensures last { fields_last result ≡ last }
        ensures pairs { (table : Table) → pairs_left table result ≡ pairs_of table 10 rest.now }
    {
        Fields {
            rest,
            last,
            low: 10,
        }
    }

    /// The cell of the pair with the label, if there is one among the pairs that are left. Labels rise, so that the walk
    /// ends at the first that isn't below it.
    #[inline(always)]
    #[tactic(auto, unfolding(crate::specs::Iterating::fields_last, crate::specs::Iterating::pairs_left))]
    pub fn find(self, label: u32) -> Option<Cell<'b>>
        ensures { FindsPair (fields_last self.entry) (λ table. pairs_left table self.entry) label result }
    {
        find_label(self.rest, self.last, self.low, label)
    }
}

impl<'b> Iterator for Fields<'b> {
    type Item = (u32, Cell<'b>);

    ghost use Rattle.std.specs.Iterator.{item_count};
    ghost use Rattle.block_meaning.specs.CellReading.{blank_table};
    ghost use Rattle.ion_cells.specs.Iterating.{fields_last, pairs_left, GivesFields};

    ghost next_gives = { GivesFields };

    ghost remaining = { item_count (λ s. pairs_left (blank_table (fields_last s)) s) };

    #[inline(always)]
    fn next(&mut self) -> Option<(u32, Cell<'b>)> {
        let (label, cell, others) = first_field(self.rest, self.last, self.low)?;
        self.rest = others;
        self.low = label + 1;
        Some((label, cell))
    }
}
