//! Adding a row to groups.

ghost use Rattle.std.specs.Prelude.{◌≡◌, ◌<◌, ◌++◌, ◌∷◌, [], List, false, length, All, OnOk};
ghost use Rattle.value_meaning.specs.Val.{Val};
ghost use Rattle.lane_base.specs.Registers.{AreLegal};
ghost use Rattle.hash_agg.specs.Groups.{Keyed, GroupsStandFor};
ghost use Rattle.hash_agg.specs.Items.{ShowsAll};
ghost use Rattle.group_out.specs.Summaries.{IsPrintable};
ghost use Rattle.batch_groups.specs.Flat.{values_in};
ghost use Rattle.batch_groups.specs.Gathered.{StandFor, AreOf};

use crate::lane_keys::{LaneKeys, are_flat};
use crate::sink::MOST_ROWS;
use agg_laws::Seen;
use block_lines::values_of;
use hash_agg::{GroupFault, Groups, RowKeys};
use ion_symtab::SymTab;
use lane_ssa::{Frame, Registers};
use snel_values::OutOfMemory;
use std::alloc::Global;

/// Adds the row in a lane, which is below 16, to the group of the keys that the registers show there, or notes that there would
/// be more groups than the limit. Keys are compared where they lie, unless a list or a struct is among them.
pub(crate) fn add_lane<'b>(
    alloc: Global,
    groups: &mut Groups,
    count: &mut u64,
    over: &mut bool,
    frame: &Frame<'b>,
    table: &SymTab<'b>,
    registers: &Registers,
    lane: u32,
    shown: &[Seen],
) -> Result<(), OutOfMemory>
    requires lane { lane < 16 }
    requires legal { All (AreLegal table.now) frame.now.values }
    requires registers { All (λ r. r < length frame.now.values) registers.now }
    requires one_each { length shown.now ≡ length groups.old.names }
    requires shown { (operands : List Val) × ShowsAll shown.now operands × All IsPrintable operands }
    requires few { AreOf groups.old count.old }
    requires open { over.old ≡ false }
    ensures few { AreOf groups.new count.new }
    ensures names { groups.new.names ≡ groups.old.names }
    ensures limit { groups.new.limit ≡ groups.old.limit }
    ensures stand { (operands : List Val) (rows : List Keyed) → ShowsAll shown.now operands
        → GroupsStandFor groups.old.names groups.old.entries rows
        → OnOk result (StandFor groups.new over.new
        (rows ++ (values_in table.now frame.now registers.now lane, operands) ∷ [])) }
{
    if are_flat(frame, registers, lane) {
        let keys = LaneKeys::of(frame, table, registers, lane);
        add_row(groups, count, over, &keys, shown)
    } else {
        let keys = values_of(alloc, frame, table, registers, lane)?;
        add_row(groups, count, over, &keys, shown)
    }
}

/// Adds a row to the group of its keys, or notes that there would be more groups than the limit.
fn add_row<K: RowKeys>(
    groups: &mut Groups,
    count: &mut u64,
    over: &mut bool,
    keys: &K,
    shown: &[Seen],
) -> Result<(), OutOfMemory>
    requires one_each { length shown.now ≡ length groups.old.names }
    requires shown { (operands : List Val) × ShowsAll shown.now operands × All IsPrintable operands }
    requires printable { All IsPrintable (K.values keys.now) }
    requires few { AreOf groups.old count.old }
    requires open { over.old ≡ false }
    ensures few { AreOf groups.new count.new }
    ensures names { groups.new.names ≡ groups.old.names }
    ensures limit { groups.new.limit ≡ groups.old.limit }
    ensures stand { (operands : List Val) (rows : List Keyed) → ShowsAll shown.now operands
        → GroupsStandFor groups.old.names groups.old.entries rows
        → OnOk result (StandFor groups.new over.new
        (rows ++ (K.values keys.now, operands) ∷ [])) }
{
    if *count >= MOST_ROWS {
        return Err(OutOfMemory);
    }
    groups.know();
    match groups.add(keys, shown) {
        Ok(()) => {
            *count += 1;
            Ok(())
        }
        Err(GroupFault::Over) => {
            *over = true;
            Ok(())
        }
        Err(GroupFault::OutOfMemory) => Err(OutOfMemory),
    }
}
