ghost use Rattle.std.specs.Prelude.{◌≡◌, ◌↔◌, ℕ, List, IsTrue, All};
ghost use Rattle.tree_meaning.specs.Tree.{name as by_name};
ghost use Rattle.eval_meaning.specs.Paths.{step_of};
ghost use Rattle.block_meaning.specs.Tables.{Table};
ghost use Rattle.ion_cells.specs.Finding.{IsLabelOf};
ghost use Rattle.ion_cells.specs.Shown.{Fits, shown};
ghost use Rattle.ion_cells.specs.Values.{time_of};
ghost use Rattle.range_meaning.specs.Excluded.{HoldsWithin, IsSoundEntry};

use crate::entry::Entry;
use block_file::Block;
use ion_cells::Cell;
use ion_symtab::SymTab;

// A number that no text has.
const NO_LABEL: u32 = 0;

/// Whether each time that a row of the block holds in its own pair of the indexed field lies from the entry's least to its
/// greatest. So it is where no field is indexed, whose name is then empty. It takes no memory.
pub fn in_range(block: &Block<'_>, entry: &Entry, field: &str) -> bool
    ensures { IsTrue result ↔ IsSoundEntry field.now entry.now block.now.1 }
{
    if field.is_empty() {
        true
    } else {
        are_within(block, entry, label_of(block.table(), field))
    }
}

// The number of the name, and one that no text has where the table lacks the name.
fn label_of(table: &SymTab<'_>, name: &str) -> u32
    ensures { IsLabelOf table.now name.now result }
{
    table.know();
    match table.number_of(name) {
        Some(number) => number,
        None => NO_LABEL,
    }
}

// Whether the times of the pairs with the label lie so, in all rows.
fn are_within(block: &Block<'_>, entry: &Entry, label: u32) -> bool
    ensures { (name : List ℕ) → IsLabelOf block.now.0 name label
        → IsTrue result ↔ All (HoldsWithin name entry.now) block.now.1 }
{
    for at in 0..block.rows() {
        if !is_within(&block.row(at), entry, label) {
            return false;
        }
    }
    true
}

// The same in one row.
fn is_within(row: &Cell<'_>, entry: &Entry, label: u32) -> bool
    ensures { (table : Table) (name : List ℕ) → Fits table row.now → IsLabelOf table name label
        → IsTrue result ↔ HoldsWithin name entry.now (shown table row.now) }
{
    match time_in(row, label) {
        Some(time) => entry.least <= time && time <= entry.greatest,
        None => true,
    }
}

// The time that a row holds in its own pair with the label.
fn time_in(row: &Cell<'_>, label: u32) -> Option<i64>
    ensures { (table : Table) (name : List ℕ) → Fits table row.now → IsLabelOf table name label
        → result ≡ time_of (step_of (by_name name) (shown table row.now)) }
{
    match row.fields() {
        Some(pairs) => match pairs.find(label) {
            Some(value) => value.micros(),
            None => None,
        },
        None => None,
    }
}
