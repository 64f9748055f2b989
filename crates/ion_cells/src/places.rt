ghost use Rattle.std.specs.Prelude.{◌≡◌, ◌+◌, ◌-◌, ◌<◌, ◌≤◌, ◌^◌, Some, None, length, drop, take, IfOk, OnErr, MatchResult};
ghost use Rattle.block_meaning.specs.Tables.{Table};
ghost use Rattle.block_meaning.specs.Cells.{IsCell};
ghost use Rattle.block_meaning.specs.CellReading.{cell_to};
ghost use Rattle.ion_cells.specs.Standing.{HasLast, StandsBetween, StandsNowhere, Reads};
ghost use Rattle.ion_cells.specs.Shown.{cell_bytes, cell_last, shown, shown_before};

use crate::cell::Cell;
use crate::check::check_to;

/// No cell begins at the place, or lists and structs nest too deep there.
#[derive(Clone, Copy, Debug, PartialEq, Eq)]
pub struct BadCell;

/// The place after the cell that begins at the place `at`, under a symbol table whose last number is `last_symbol`.
/// `depth` lists and structs stand around it. [`BadCell`] comes exactly where no cell begins there, or where lists and
/// structs nest more than 128 deep.
pub fn check_cell(bytes: &[u8], at: u32, last_symbol: u32, depth: u8) -> Result<u32, BadCell>
    requires short { length bytes.now < 2 ^ 31 }
    requires within { at ≤ length bytes.now }
    ensures stands { IfOk result (λ e. StandsBetween last_symbol depth bytes.now at e) }
    ensures within { IfOk result (λ e. (at < e) × (e ≤ length bytes.now)) }
    ensures bad { OnErr result (StandsNowhere last_symbol depth bytes.now at) }

    // The same, as reading from left to right answers it.
    ensures read { MatchResult result
        (λ e. Reads last_symbol depth bytes.now at (Some (drop e bytes.now)))
        (λ _. Reads last_symbol depth bytes.now at None) }
{
    match check_to(bytes, at as usize, last_symbol, 128u8.saturating_sub(depth)) {
        Some(end) => Ok(end as u32),
        None => Err(BadCell),
    }
}

/// The cell that begins at the place `at`, under a symbol table whose last number is `last_symbol`. No list or struct
/// stands around it. [`BadCell`] comes exactly where no cell begins there, or where lists and structs nest more than 128
/// deep.
pub fn cell_at<'b>(bytes: &'b [u8], at: u32, last_symbol: u32) -> Result<Cell<'b>, BadCell>
    requires short { length bytes.now < 2 ^ 31 }
    requires within { at ≤ length bytes.now }
    ensures last { IfOk result (λ c. cell_last c ≡ last_symbol) }
    ensures stands { IfOk result (λ c. (cell_bytes c
        ≡ take (length (cell_bytes c)) (drop at bytes.now))
        × (at + length (cell_bytes c) ≤ length bytes.now)) }
    ensures read { IfOk result (λ c. (table : Table) → HasLast table last_symbol
        → cell_to table 128 (drop at bytes.now)
        ≡ shown_before table c (drop (at + length (cell_bytes c)) bytes.now)) }
    ensures shows { IfOk result (λ c. (table : Table) → HasLast table last_symbol
        → IsCell table 0 (shown table c) (cell_bytes c)) }
    ensures bad { OnErr result (StandsNowhere last_symbol 0 bytes.now at) }
{
    match check_to(bytes, at as usize, last_symbol, 128) {
        Some(end) => Ok(Cell::of_bytes(&bytes[at as usize..end], last_symbol)),
        None => Err(BadCell),
    }
}
