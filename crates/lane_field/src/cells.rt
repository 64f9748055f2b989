ghost use Rattle.std.specs.Prelude.{◌≡◌, ◌<◌, ℕ, IfSome, cond, nat_eq};
ghost use Rattle.std.specs.Option.{option_map};
ghost use Rattle.block_meaning.specs.Tables.{Table};
ghost use Rattle.ion_cells.specs.Shown.{Fits};
ghost use Rattle.lane_field.specs.CellsOf.{cell_in, cell_within, no_cell, IsCellOf};

use ion_cells::Cell;
use lane_base::LaneMask;

/// In each of sixteen lanes a cell or none.
#[derive(Clone, Copy)]
pub struct CellLanes<'b> {
    cells: [Option<Cell<'b>>; 16],
}

impl<'b> CellLanes<'b> {
    /// The cell of the lane, which is below 16. None exactly where the lane holds none.
    #[inline(always)]
    #[tactic(auto, unfolding(crate::specs::CellsOf::cell_in))]
    pub fn get(&self, lane: u32) -> Option<&Cell<'b>>
        requires { lane < 16 }
        ensures { option_map (λ c. c.now) result ≡ cell_in self.now lane }
    {
        let cells = &self.cells[..];
        cells[lane as usize].as_ref()
    }

    /// The cell of the lane, which is below 16, where the lane is in the mask.
    #[inline(always)]
    #[tactic(auto, unfolding(crate::specs::CellsOf::cell_in))]
    pub(crate) fn get_in(&self, lane: u32, m: LaneMask) -> Option<Cell<'b>>
        requires { lane < 16 }
        ensures { result ≡ cell_within m.0 self.now lane }
    {
        if m.has(lane) {
            let cells = &self.cells[..];
            cells[lane as usize]
        } else {
            None
        }
    }

    /// No cell in any lane.
    #[inline(always)]
    #[tactic(auto, unfolding(crate::specs::CellsOf::cell_in))]
    pub fn none() -> CellLanes<'b>
        ensures { (i : ℕ) → i < 16 → cell_in result i ≡ no_cell }
    {
        CellLanes { cells: [None; 16] }
    }

    /// Puts a cell or none into the lane, which is below 16. A cell that fits a table is one of it.
    #[inline(always)]
    #[tactic(auto, using(crate::proofs::Putting::put_at, crate::proofs::OwnTables::some_fits), unfolding(crate::specs::CellsOf::cell_in))]
    pub fn put(&mut self, lane: u32, cell: Option<Cell<'b>>)
        requires { lane < 16 }
        ensures cells { (i : ℕ) → i < 16
            → cell_in self.new i ≡ cond (nat_eq i lane) cell.entry (cell_in self.old i) }
        ensures fits { IfSome cell.entry (λ c. (table : Table) → Fits table c → IsCellOf table c) }
    {
        let cells = &mut self.cells[..];
        cells[lane as usize] = cell;
    }
}
