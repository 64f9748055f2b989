ghost use Rattle.std.specs.Prelude.{◌≡◌, ◌+◌, ◌<◌, ◌≤◌, ◌^◌, length, drop, IfOk, IfSome, IfNone, IsErrOf};
ghost use Rattle.block_meaning.specs.Tables.{Table};
ghost use Rattle.ion_cells.specs.Standing.{HasLast};
ghost use Rattle.ion_cells.specs.Shown.{cell_bytes};
ghost use Rattle.block_file.specs.Rows.{IsRowAt, NoRowAt, AreRowsOf, NoRowsOf};

use crate::fault::BlockFault;
use block_meaning::MOST_BLOCK_ROWS;
use ion_cells::{Cell, Kind, cell_at};
use std::alloc::Global;

/// The struct cell that begins at the place `at`, under a symbol table whose last number is `last`. None where none begins
/// there.
fn row_at<'b>(bytes: &'b [u8], at: u32, last: u32) -> Option<Cell<'b>>
    requires short { length bytes.now < 2 ^ 31 }
    requires within { at ≤ length bytes.now }
    ensures row { IfSome result (λ c. (table : Table) → HasLast table last
        → IsRowAt table bytes.now at c) }
    ensures within { IfSome result (λ c. at + length (cell_bytes c) ≤ length bytes.now) }
    ensures none { IfNone result ((table : Table) → HasLast table last
        → NoRowAt table bytes.now at) }
{
    match cell_at(bytes, at, last) {
        Ok(cell) => match cell.kind() {
            Kind::Struct => Some(cell),
            _ => None,
        },
        Err(_) => None,
    }
}

/// The cells of the `count` rows that the bytes from the place `start` on are, end to end, under a symbol table whose last
/// number is `last`. Damaged exactly where they aren't so many rows.
pub(crate) fn rows_at<'b>(
    alloc: Global,
    bytes: &'b [u8],
    start: u32,
    last: u32,
    count: u32,
) -> Result<Vec<Cell<'b>>, BlockFault>
    requires short { length bytes.now < 2 ^ 31 }
    requires within { start ≤ length bytes.now }
    requires some { 1 ≤ count }
    requires few { count ≤ MOST_BLOCK_ROWS }
    ensures rows { IfOk result (λ v. (table : Table) → HasLast table last
        → AreRowsOf table (drop start bytes.now) count v.items) }
    ensures damaged { IsErrOf result BlockFault.Damaged → (table : Table) → HasLast table last
        → NoRowsOf table (drop start bytes.now) count }
{
    let Ok(mut cells) = Vec::with_capacity(alloc, count as usize) else {
        return Err(BlockFault::OutOfMemory);
    };
    let mut at = start;
    while cells.len() < count as usize {
        match row_at(bytes, at, last) {
            None => return Err(BlockFault::Damaged),
            Some(cell) => {
                at += cell.bytes().len() as u32;
                let Ok(()) = cells.push(cell) else {
                    return Err(BlockFault::OutOfMemory);
                };
            }
        }
    }
    if (at as usize) < bytes.len() {
        return Err(BlockFault::Damaged);
    }
    Ok(cells)
}
