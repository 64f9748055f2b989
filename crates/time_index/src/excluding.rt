ghost use Rattle.std.specs.Prelude.{◌↔◌, ◌<ℤ◌, IsTrue};
ghost use Rattle.std.specs.Int.{int_min, int_max};
ghost use Rattle.range_meaning.specs.Excluded.{IsExcluded};

use crate::entry::Entry;
use range_meaning::Bounds;

/// Whether no row of the entry's block can pass the WHERE of these bounds, if the entry is sound: there are bounds, and no
/// number lies both in them and from the entry's least to its greatest.
pub fn excluded(entry: &Entry, bounds: &Bounds) -> bool
    ensures { IsTrue result ↔ IsExcluded entry.now bounds.now }
{
    match bounds {
        Bounds::All => false,
        Bounds::Between { low, high } => are_apart(entry.least, entry.greatest, *low, *high),
    }
}

// Whether no number lies both from `least` to `greatest` and from `low` to `high`.
fn are_apart(least: i64, greatest: i64, low: i64, high: i64) -> bool
    ensures { IsTrue result ↔ (int_min greatest high <ℤ int_max least low) }
{
    greatest.min(high) < least.max(low)
}
