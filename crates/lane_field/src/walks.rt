//! Walks over the items of one list.

ghost use Rattle.lane_field.specs.Walking.{GivesItem};

use ion_cells::{Cell, Cells};

/// The item at the place, counted from 0. None where there are no more than so many.
#[inline(always)]
pub(crate) fn nth_item<'b>(items: Cells<'b>, at: u32) -> Option<Cell<'b>>
    ensures { GivesItem items.entry at result }
{
    let mut left = at;
    for item in items {
        if left == 0 {
            return Some(item);
        }
        left -= 1;
    }
    None
}
