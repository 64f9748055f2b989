ghost use Rattle.std.specs.Prelude.{◌≡◌, ◌<◌, ◌||◌, ℕ, ℤ, pos, false, IfSome, unwrap_or};
ghost use Rattle.block_meaning.specs.Tables.{Table};
ghost use Rattle.ion_cells.specs.Values.{int_of, truth_of, time_of};
ghost use Rattle.lane_base.specs.Bits.{has};
ghost use Rattle.lane_field.specs.CellsOf.{cell_within, denoted, IsCellOf};
ghost use Rattle.lane_field.specs.Loaded.{IntsAre, TimesAre, TruthsAre};

use crate::cells::CellLanes;
use crate::masks::and_lane;
use ion_cells::Cell;
use lane_base::{IntLanes, LaneMask};

/// The number of the cell, 0 where there is none or it is of another kind.
#[inline(always)]
fn int_in(cell: Option<Cell<'_>>) -> i64
    ensures { (table : Table) → IfSome cell.entry (IsCellOf table)
        → result ≡ unwrap_or (int_of (denoted table cell.entry)) (pos 0) }
{
    match cell {
        Some(cell) => match cell.int() {
            Some(number) => number,
            None => 0,
        },
        None => 0,
    }
}

/// The microseconds of the cell, 0 where there is none or it is of another kind.
#[inline(always)]
fn micros_in(cell: Option<Cell<'_>>) -> i64
    ensures { (table : Table) → IfSome cell.entry (IsCellOf table)
        → result ≡ unwrap_or (time_of (denoted table cell.entry)) (pos 0) }
{
    match cell {
        Some(cell) => match cell.micros() {
            Some(micros) => micros,
            None => 0,
        },
        None => 0,
    }
}

/// Whether there is a cell and it is true.
#[inline(always)]
fn truth_in(cell: Option<Cell<'_>>) -> bool
    ensures { (table : Table) → IfSome cell.entry (IsCellOf table)
        → result ≡ unwrap_or (truth_of (denoted table cell.entry)) false }
{
    match cell {
        Some(cell) => match cell.boolean() {
            Some(truth) => truth,
            None => false,
        },
        None => false,
    }
}

/// The numbers of the lanes of `m` whose cells are of the kind Int, and 0 in every other lane.
pub fn ints16(c: &CellLanes<'_>, m: LaneMask) -> IntLanes
    ensures { IntsAre m.0 c.now result.lanes }
{
    let mut lanes = [0i64; 16];
    for i in 0..16usize {
        lanes[i] = int_in(c.get_in(i as u32, m));
    }
    IntLanes { lanes }
}

/// The microseconds of the lanes of `m` whose cells are of the kind Time, and 0 in every other lane.
pub fn micros16(c: &CellLanes<'_>, m: LaneMask) -> IntLanes
    ensures { TimesAre m.0 c.now result.lanes }
{
    let mut lanes = [0i64; 16];
    for i in 0..16usize {
        lanes[i] = micros_in(c.get_in(i as u32, m));
    }
    IntLanes { lanes }
}

/// The lanes of `m` whose cells are true.
pub fn bools16(c: &CellLanes<'_>, m: LaneMask) -> LaneMask
    ensures { TruthsAre m.0 c.now result.0 }
{
    let mut lanes = LaneMask::none();
    for i in 0..16u32 {
        if truth_in(c.get_in(i, m)) {
            lanes = and_lane(lanes, i);
        }
    }
    lanes
}
