//! From lanes that show structs to the values of one name there.

ghost use Rattle.std.specs.Prelude.{◌≡◌, ◌<◌, ◌+◌, ◌^◌, ℕ, List, false, IfSome};
ghost use Rattle.block_meaning.specs.Tables.{Table};
ghost use Rattle.block_meaning.specs.CellReading.{cell_value};
ghost use Rattle.tree_meaning.specs.Tree.{name};
ghost use Rattle.eval_meaning.specs.Paths.{step_of};
ghost use Rattle.ion_cells.specs.Shown.{shown};
ghost use Rattle.lane_base.specs.Bits.{has};
ghost use Rattle.lane_field.specs.CellsOf.{cell_in, no_cell, denoted, IsCellOf, AreCellsOf};
ghost use Rattle.lane_field.specs.Steps.{IsUnder, IsUnderOne, IsNamed, AreUnder, AreUnderOne, StepAt, FindsNames};

use crate::cells::CellLanes;
use ion_cells::Cell;
use lane_base::{LaneMask, Lanes, Look};

/// The last number of the longest table whose numbers have 32 bits.
#[inline(always)]
fn last_of_any() -> u32
    ensures { result + 1 ≡ 2 ^ 32 }
{
    u32::MAX
}

/// The cell of the bytes, under each table whose numbers have 32 bits and under which they are one.
#[inline(always)]
pub(crate) fn whole<'b>(bytes: &'b [u8]) -> Cell<'b>
    requires { IsUnderOne bytes.now }
    ensures of { (table : Table) → IsUnder table bytes.now → IsCellOf table result }
    ensures same { (table : Table) → shown table result ≡ cell_value table bytes.now }
{
    Cell::of_bytes(bytes, last_of_any())
}

/// The cell of the pair with that label, where the bytes are the cell of a struct and it has such a pair.
#[inline(always)]
fn field_of<'b>(bytes: &'b [u8], label: u32) -> Option<Cell<'b>>
    requires { IsUnderOne bytes.now }
    ensures legal { (table : Table) → IsUnder table bytes.now → IfSome result (IsCellOf table) }
    ensures value { (table : Table) (n : List ℕ) → IsUnder table bytes.now → IsNamed label n table
        → denoted table result ≡ step_of (name n) (cell_value table bytes.now) }
{
    let cell = whole(bytes);
    match cell.fields() {
        Some(pairs) => pairs.find(label),
        None => None,
    }
}

/// The cell of the pair with that label in the struct that the lane shows. None where the lane isn't in `m`, shows no struct
/// or the struct has no such pair. The lane is below 16.
#[inline(always)]
pub(crate) fn field_at<'b>(a: &Lanes<'b>, label: u32, lane: u32, m: LaneMask) -> Option<Cell<'b>>
    requires within { lane < 16 }
    requires legal { AreUnderOne m.0 a.now }
    ensures { (n : List ℕ) → StepAt (name n) (IsNamed label n) m.0 a.now lane result }
{
    if !m.has(lane) {
        return None;
    }
    match a.look(lane) {
        Look::Tree(bytes) => field_of(bytes, label),
        _ => None,
    }
}

/// The same in every lane.
fn fields_at<'b>(a: &Lanes<'b>, label: u32, m: LaneMask) -> CellLanes<'b>
    requires { AreUnderOne m.0 a.now }
    ensures { (n : List ℕ) (i : ℕ) → i < 16
        → StepAt (name n) (IsNamed label n) m.0 a.now i (cell_in result i) }
{
    let mut cells = CellLanes::none();
    for i in 0..16u32 {
        cells.put(i, field_at(a, label, i, m));
    }
    cells
}

/// In each lane of `m` the cell of the pair of one name in the struct that the lane shows. A lane holds none where it shows no
/// struct, where the struct lacks the name, or where it isn't in `m`. `symbol` is the name's number in the symbol table of
/// the lanes, None where the table lacks the name. The lists and structs in the lanes of `m` are cells under one table.
pub fn find16<'b>(a: &Lanes<'b>, symbol: Option<u32>, m: LaneMask) -> CellLanes<'b>
    requires { AreUnderOne m.0 a.now }
    ensures value { FindsNames symbol m.0 a.now result }
    ensures legal { (table : Table) (lanes : ℕ) → AreUnder table m.0 a.now
        → AreCellsOf table lanes result }
    ensures none { (i : ℕ) → i < 16 → has m.0 i ≡ false → cell_in result i ≡ no_cell }
{
    match symbol {
        Some(symbol) => fields_at(a, symbol, m),
        None => CellLanes::none(),
    }
}
