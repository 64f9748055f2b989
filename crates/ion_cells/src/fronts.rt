ghost use Rattle.std.specs.Prelude.{◌≡◌, ◌+◌, ◌<◌, ◌≤◌, ◌^◌, [], ◌∷◌, true, IfSome, MatchOption};
ghost use Rattle.value_meaning.specs.Val.{Val};
ghost use Rattle.block_meaning.specs.Tables.{Table};
ghost use Rattle.ion_cells.specs.Standing.{HasLast};
ghost use Rattle.ion_cells.specs.Left.{are_items, are_fields, values_of, pairs_of, named};
ghost use Rattle.ion_cells.specs.Shown.{cell_last, shown};

use crate::cell::Cell;
use crate::front::read_front;
use crate::numbers::var_uint;

/// The first of the cells, and the others. None where there is none.
#[inline(always)]
pub(crate) fn first_item(bytes: &[u8], last: u32) -> Option<(Cell<'_>, &[u8])>
    requires { are_items last bytes.now ≡ true }
    ensures item { IfSome result (λ p. (cell_last p.0 ≡ last) × (are_items last p.1.now ≡ true)) }
    ensures values { (table : Table) → HasLast table last
        → MatchOption result (values_of table bytes.now ≡ []) (λ p. values_of table bytes.now
        ≡ shown table p.0 ∷ values_of table p.1.now) }
{
    let front = read_front(bytes)?;
    let (first, others) = bytes.split_at(front.end);
    Some((Cell::of_front(first, last, front), others))
}

/// The label and the cell of the first of the pairs, whose labels rise from `low` on, and the others. None where there is
/// none.
#[inline(always)]
pub(crate) fn first_field(bytes: &[u8], last: u32, low: u32) -> Option<(u32, Cell<'_>, &[u8])>
    requires { are_fields last low bytes.now ≡ true }
    ensures label { IfSome result (λ p. (low ≤ p.0) × (10 ≤ p.0) × (p.0 ≤ last) × (p.0 < 2 ^ 28)) }
    ensures item { IfSome result (λ p. (cell_last p.1 ≡ last)
        × (are_fields last (p.0 + 1) p.2.now ≡ true)) }
    ensures pairs { (table : Table) → HasLast table last
        → MatchOption result (pairs_of table low bytes.now ≡ []) (λ p. pairs_of table low bytes.now
        ≡ named table p.0 (shown table p.1) ∷ pairs_of table (p.0 + 1) p.2.now) }
{
    let (label, start) = var_uint(bytes, 0)?;
    let behind = &bytes[start..];
    let front = read_front(behind)?;
    let (first, others) = behind.split_at(front.end);
    Some((label, Cell::of_front(first, last, front), others))
}
