//! Groups of two sinks, joined.

ghost use Rattle.std.specs.Prelude.{◌≡◌, ◌≤◌, ◌+◌, ◌++◌, List, false, OnOk};
ghost use Rattle.hash_agg.specs.Groups.{Keyed, GroupsStandFor};
ghost use Rattle.batch_groups.specs.Gathered.{StandFor, AreOf};

use hash_agg::{GroupFault, Groups};
use snel_values::OutOfMemory;

/// Joins to the groups of so many rows others of the same aggregates, or notes that together there would be more than the
/// limit.
pub(crate) fn join_groups(
    groups: &mut Groups,
    count: &mut u64,
    over: &mut bool,
    others: Groups,
    more: u64,
) -> Result<(), OutOfMemory>
    requires names { groups.old.names ≡ others.names }
    requires few { AreOf groups.old count.old }
    requires others { AreOf others more }
    requires both { count.old + more ≤ 35_184_372_088_832 }
    requires open { over.old ≡ false }
    ensures few { AreOf groups.new count.new }
    ensures names { groups.new.names ≡ groups.old.names }
    ensures limit { groups.new.limit ≡ groups.old.limit }
    ensures stand { (rows more_rows : List Keyed)
        → GroupsStandFor groups.old.names groups.old.entries rows
        → GroupsStandFor others.names others.entries more_rows
        → OnOk result (StandFor groups.new over.new (rows ++ more_rows)) }
{
    groups.know();
    others.know();
    match groups.merge(others) {
        Ok(()) => {
            *count += more;
            Ok(())
        }
        Err(GroupFault::Over) => {
            *over = true;
            Ok(())
        }
        Err(GroupFault::OutOfMemory) => Err(OutOfMemory),
    }
}
