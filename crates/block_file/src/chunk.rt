ghost use Rattle.std.specs.Prelude.{◌≡◌, ◌-◌, ◌<◌, ◌≤◌, ◌^◌, length, map, take, Some, slice_get, slice_index_or};
ghost use Rattle.ion_cells.specs.Shown.{cell_bytes};

use ion_cells::Cell;
use std::marker::Model;

/// At most sixteen rows of a block, each in a lane of its own, from lane 0 on. It is seen as the bytes of the
/// rows.
#[derive(Drop)]
pub struct Chunk<'b> {
    rows: [Cell<'b>; 16],
    count: usize,
}

impl<'b> Model for Chunk<'b> {
    ghost use Rattle.std.specs.Prelude.{List, ℕ, map, take, length, ◌≡◌, ◌≤◌};
    ghost use Rattle.ion_cells.specs.Shown.{cell_bytes};

    ghost Value = { List (List ℕ) };

    ghost view = { λ c. map cell_bytes (take c.count c.rows) };

    ghost invariant = { λ c. (c.count ≤ 16) × (length c.rows ≡ 16) };
}

impl<'b> Chunk<'b> {
    /// The chunk of the first `count` of the rows.
    pub(crate) fn of_rows(rows: [Cell<'b>; 16], count: usize) -> Chunk<'b>
        requires few { count ≤ 16 }
        requires long { length rows ≡ 16 }
        ensures { result ≡ map cell_bytes (take count rows.entry) }
    {
        Chunk { rows, count }
    }

    /// The lanes that hold a row, as bits: bit i is set where lane i does.
    pub fn live(&self) -> u16
        ensures lanes { result ≡ 2 ^ length self.now - 1 }
        ensures few { length self.now ≤ 16 }
    {
        if self.count == 16 {
            u16::MAX
        } else {
            (1u16 << self.count) - 1
        }
    }

    /// The bytes of the row in a live lane.
    pub fn row(&self, lane: u32) -> &'b [u8]
        requires { lane < length self.now }
        ensures { slice_get self.now lane ≡ Some result.now }
    {
        lane_of(&self.rows, lane as usize).bytes()
    }
}

/// The cell in a lane.
fn lane_of<'b>(rows: &[Cell<'b>], lane: usize) -> Cell<'b>
    requires { lane < length rows.now }
    ensures { result ≡ slice_index_or rows.now lane result }
{
    rows[lane]
}
