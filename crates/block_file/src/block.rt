ghost use Rattle.std.specs.Prelude.{◌≡◌, ◌<◌, ◌≤◌, length, take};

use crate::chunk::Chunk;
use block_meaning::MOST_BLOCK_ROWS;
use ion_cells::Cell;
use ion_symtab::SymTab;
use std::marker::Model;

/// A checked block, seen as its symbol table and the values of its rows. Its rows lie where they were read.
#[derive(Drop)]
pub struct Block<'b> {
    table: SymTab<'b>,
    rows: Vec<Cell<'b>>,
}

impl<'b> Model for Block<'b> {
    ghost use Rattle.std.specs.Prelude.{List, ℕ, map};
    ghost use Rattle.value_meaning.specs.Val.{Val};
    ghost use Rattle.value_meaning.specs.Code.{coded_val};
    ghost use Rattle.std.specs.Coded.{coded_list, coded×, coded_ℕ};

    ghost Value = { List (List ℕ) × List Val };

    ghost coded = { coded× (coded_list (coded_list coded_ℕ)) (coded_list coded_val) };

    ghost use Rattle.ion_cells.specs.Shown.{shown};
    ghost use Rattle.block_file.specs.Rows.{AreBlockCells};

    ghost view = { λ b. (b.table, map (shown b.table) b.rows.items) };

    ghost invariant = { λ b. AreBlockCells b.table b.rows.items };
}

impl<'b> Block<'b> {
    ghost use Rattle.std.specs.Prelude.{◌≡◌, ◌<◌, ◌≤◌, ◌-◌, ◌%◌, length, true, Some, slice_get, map, min, take, drop};
    ghost use Rattle.ion_cells.specs.Shown.{Fits, shown};
    ghost use Rattle.block_file.specs.Rows.{AreBlockCells};
    ghost use Rattle.block_meaning.specs.Blocks.{is_struct, AreRows};
    ghost use Rattle.block_file.specs.Chunks.{AreCellsOf};

    /// The block of this table and these rows.
    pub(crate) fn of_rows(table: SymTab<'b>, rows: Vec<Cell<'b>>) -> Block<'b>
        requires { AreBlockCells table rows.items }
        ensures table { result.0 ≡ table.entry }
        ensures rows { result.1 ≡ map (shown table.entry) rows.entry.items }
    {
        Block { table, rows }
    }

    /// How many rows the block has, from 1 to `MOST_BLOCK_ROWS`.
    pub fn rows(&self) -> u32
        ensures { result ≡ length self.now.1 }
    {
        self.rows.len() as u32
    }

    /// The symbol table of the block.
    pub fn table(&self) -> &SymTab<'b>
        ensures { result.now ≡ self.now.0 }
    {
        &self.table
    }

    /// The cell of the row at this place, counted from 0. It is a struct.
    pub fn row(&self, at: u32) -> Cell<'b>
        requires { at < length self.now.1 }
        ensures fits { Fits self.now.0 result }
        ensures row { slice_get self.now.1 at ≡ Some (shown self.now.0 result) }
        ensures is_struct { is_struct (shown self.now.0 result) ≡ true }
    {
        self.rows[at as usize]
    }

    /// Tells what holds of every block.
    pub fn know(&self)
        ensures structs { AreRows self.now.1 }
        ensures some { 1 ≤ length self.now.1 }
        ensures few { length self.now.1 ≤ MOST_BLOCK_ROWS }
    {
        let _ = &self.rows;
    }

    /// The rows from the place `first` on, at most sixteen of them.
    pub fn chunk(&self, first: u32) -> Chunk<'b>
        requires within { first < length self.now.1 }
        requires whole { first % 16 ≡ 0 }
        ensures long { length result ≡ min 16 (length self.now.1 - first) }
        ensures cells { AreCellsOf self.now.0 (take 16 (drop first self.now.1)) result }
    {
        let start = first as usize;
        let count = (self.rows.len() - start).min(16);
        Chunk::of_rows(lanes_of(&self.rows[start..start + count]), count)
    }
}

/// The cells at the front, and cells that don't count behind them.
fn lanes_of<'b>(cells: &[Cell<'b>]) -> [Cell<'b>; 16]
    requires some { 1 ≤ length cells.now }
    requires few { length cells.now ≤ 16 }
    ensures long { length result ≡ 16 }
    ensures cells { take (length cells.now) result ≡ cells.now }
{
    let mut lanes = [cells[0]; 16];
    for i in 1..cells.len() {
        lanes[i] = cells[i];
    }
    lanes
}
