//! The group keys of a row, read where they lie.

ghost use Rattle.std.specs.Prelude.{◌≡◌, ◌<◌, true, All, length};
ghost use Rattle.value_meaning.specs.Val.{vals};
ghost use Rattle.block_meaning.specs.Tables.{Table};
ghost use Rattle.lane_base.specs.Registers.{AreLegal};
ghost use Rattle.agg_meaning.specs.Keys.{same_keys};
ghost use Rattle.key_places.specs.Hashes.{fed_vals};
ghost use Rattle.snel_values.specs.View.{views};
ghost use Rattle.lane_base.specs.Registers.{seen};
ghost use Rattle.batch_groups.specs.Flat.{values_in, IsFlat, AreFlat, ShowsFirst};

use crate::looks::{feed_look, is_tree, same_look};
use block_lines::values_of;
use hash_agg::RowKeys;
use ion_symtab::SymTab;
use lane_base::Look;
use lane_ssa::{Frame, Registers};
use snel_values::{Items, OutOfMemory, Value};
use std::alloc::Global;
use std::hash::{DefaultHasher, Hasher};
use std::marker::Model;

/// The registers of the group keys in the lane of a row, seen as their values. None of them is a list or a struct.
#[derive(Drop)]
pub(crate) struct LaneKeys<'a, 'b> {
    frame: &'a Frame<'b>,
    table: &'a SymTab<'b>,
    registers: &'a Registers,
    lane: u32,
    /// What the first of them shows, since most groups have one key.
    first: Look<'b>,
}

impl<'a, 'b> Model for LaneKeys<'a, 'b> {
    ghost use Rattle.std.specs.Prelude.{List};
    ghost use Rattle.value_meaning.specs.Val.{Val};
    ghost use Rattle.value_meaning.specs.Code.{coded_val};
    ghost use Rattle.std.specs.Coded.{coded_list};
    ghost use Rattle.lane_base.specs.Registers.{seen};
    ghost use Rattle.batch_groups.specs.Flat.{values_in, AreFlat, ShowsFirst};

    ghost Value = { List Val };

    ghost coded = { coded_list coded_val };

    ghost view = { λ k. values_in k.table.now k.frame.now k.registers.now k.lane };

    ghost invariant = { λ k. AreFlat k.table.now k.frame.now k.registers.now k.lane × ShowsFirst k.table.now k.frame.now k.registers.now k.lane (seen k.first) };
}

impl<'a, 'b> LaneKeys<'a, 'b> {
    ghost use Rattle.std.specs.Prelude.{◌≡◌};
    ghost use Rattle.batch_groups.specs.Flat.{values_in, AreFlat};

    /// The keys that the registers show in the lane.
    pub(crate) fn of(
        frame: &'a Frame<'b>,
        table: &'a SymTab<'b>,
        registers: &'a Registers,
        lane: u32,
    ) -> LaneKeys<'a, 'b>
        requires { AreFlat table.now frame.now registers.now lane }
        ensures { result ≡ values_in table.now frame.now registers.now lane }
    {
        LaneKeys {
            frame,
            table,
            registers,
            lane,
            first: first_look(frame, registers, lane),
        }
    }
}

impl<'a, 'b> RowKeys for LaneKeys<'a, 'b> {
    ghost values = { λ keys. keys };

    fn hash(&self, seed: &DefaultHasher) -> u64 {
        let mut state = *seed;
        feed_keys(&mut state, self.frame, self.registers, self.lane);
        state.finish()
    }

    fn are(&self, keys: &[Value]) -> bool {
        if self.registers.len() == 1 && keys.len() == 1 {
            same_look(self.first, &keys[0])
        } else {
            are_keys(self.frame, self.registers, self.lane, keys)
        }
    }

    fn build(&self, alloc: Global) -> Result<Items, OutOfMemory> {
        values_of(alloc, self.frame, self.table, self.registers, self.lane)
    }
}

/// What the first of the registers shows in the lane, MISSING where there is none.
#[inline(always)]
fn first_look<'b>(frame: &Frame<'b>, registers: &Registers, lane: u32) -> Look<'b>
    requires lane { lane < 16 }
    requires registers { All (λ r. r < length frame.now.values) registers.now }
    ensures { (table : Table) → All (AreLegal table) frame.now.values
        → ShowsFirst table frame.now registers.now lane (seen result) }
{
    match registers.get(0) {
        Some(register) => frame.lane(register, lane),
        None => Look::Missing,
    }
}

/// Whether none of the registers shows a list or a struct in the lane.
pub(crate) fn are_flat<'b>(frame: &Frame<'b>, registers: &Registers, lane: u32) -> bool
    requires lane { lane < 16 }
    requires registers { All (λ r. r < length frame.now.values) registers.now }
    ensures { result ≡ true → (table : Table) → All (AreLegal table) frame.now.values
        → All (IsFlat table frame.now lane) registers.now }
{
    for at in 0..registers.len() {
        let Some(register) = registers.get(at) else {
            unreachable!();
        };
        if is_tree(frame.lane(register, lane)) {
            return false;
        }
    }
    true
}

/// Feeds the keys one by one.
fn feed_keys<'b>(state: &mut DefaultHasher, frame: &Frame<'b>, registers: &Registers, lane: u32)
    requires { (table : Table) × AreFlat table frame.now registers.now lane }
    ensures { (table : Table) → state.new
        ≡ fed_vals (vals (values_in table frame.now registers.now lane)) state.old }
{
    for at in 0..registers.len() {
        let Some(register) = registers.get(at) else {
            unreachable!();
        };
        feed_look(state, frame.lane(register, lane));
    }
}

/// Whether the keys are these values.
fn are_keys<'b>(frame: &Frame<'b>, registers: &Registers, lane: u32, values: &[Value]) -> bool
    requires { (table : Table) × AreFlat table frame.now registers.now lane }
    ensures { (table : Table) → result
        ≡ same_keys (values_in table frame.now registers.now lane) (views values.now) }
{
    if registers.len() != values.len() {
        return false;
    }
    for at in 0..registers.len() {
        let Some(register) = registers.get(at) else {
            unreachable!();
        };
        if !same_look(frame.lane(register, lane), &values[at]) {
            return false;
        }
    }
    true
}
