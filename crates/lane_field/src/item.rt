//! From lanes that show lists to the items at one place there.

ghost use Rattle.std.specs.Prelude.{◌≡◌, ◌<◌, ℕ, false, IfSome};
ghost use Rattle.block_meaning.specs.Tables.{Table};
ghost use Rattle.block_meaning.specs.CellReading.{cell_value};
ghost use Rattle.tree_meaning.specs.Tree as tree;
ghost use Rattle.eval_meaning.specs.Paths.{step_of};
ghost use Rattle.lane_base.specs.Bits.{has};
ghost use Rattle.lane_field.specs.CellsOf.{cell_in, no_cell, denoted, IsCellOf, AreCellsOf};
ghost use Rattle.lane_field.specs.Steps.{IsUnder, IsUnderOne, AreUnder, AreUnderOne, StepAt, Any, GivesItems};

use crate::cells::CellLanes;
use crate::find::whole;
use crate::walks::nth_item;
use ion_cells::Cell;
use lane_base::{LaneMask, Lanes, Look};

/// The cell of the item at the place, counted from 0, where the bytes are the cell of a list and it has so many items.
#[inline(always)]
fn item_of<'b>(bytes: &'b [u8], place: u32) -> Option<Cell<'b>>
    requires { IsUnderOne bytes.now }
    ensures legal { (table : Table) → IsUnder table bytes.now → IfSome result (IsCellOf table) }
    ensures value { (table : Table) → IsUnder table bytes.now
        → denoted table result ≡ step_of (tree.at place) (cell_value table bytes.now) }
{
    let cell = whole(bytes);
    match cell.items() {
        Some(items) => nth_item(items, place),
        None => None,
    }
}

/// The cell of the item at the place in the list that the lane shows. None where the lane isn't in `m`, shows no list or the
/// list has no such item. The lane is below 16.
#[inline(always)]
fn item_at<'b>(a: &Lanes<'b>, place: u32, lane: u32, m: LaneMask) -> Option<Cell<'b>>
    requires within { lane < 16 }
    requires legal { AreUnderOne m.0 a.now }
    ensures { StepAt (tree.at place) Any m.0 a.now lane result }
{
    if !m.has(lane) {
        return None;
    }
    match a.look(lane) {
        Look::Tree(bytes) => item_of(bytes, place),
        _ => None,
    }
}

/// In each lane of `m` the cell of the item at the place `at`, counted from 0, in the list that the lane shows. A lane holds
/// none where it shows no list, where the list is no longer than that, or where it isn't in `m`. The lists and structs in the
/// lanes of `m` are cells under one table.
pub fn item16<'b>(a: &Lanes<'b>, at: u32, m: LaneMask) -> CellLanes<'b>
    requires { AreUnderOne m.0 a.now }
    ensures value { GivesItems at m.0 a.now result }
    ensures legal { (table : Table) (lanes : ℕ) → AreUnder table m.0 a.now
        → AreCellsOf table lanes result }
    ensures none { (i : ℕ) → i < 16 → has m.0 i ≡ false → cell_in result i ≡ no_cell }
{
    let mut cells = CellLanes::none();
    for i in 0..16u32 {
        cells.put(i, item_at(a, at, i, m));
    }
    cells
}
