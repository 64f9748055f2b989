//! The instructions by which one of two registers is chosen.
ghost use Rattle.std.specs.Prelude.{◌≡◌, ◌<◌, length, IfOk, slice_get, Some};
ghost use Rattle.program_meaning.specs.Programs.{mask_count, value_count};
ghost use Rattle.query_tree.specs.View.{arm_view};
ghost use Rattle.plan_lower.specs.Emitting.{Holds, Leaves, Merges};

use lane_ssa::{Builder, Instr, Registers};
use query_tree::{Arm, Arms};
use snel_values::OutOfMemory;

/// An arm of CASE as registers: the mask of the lanes in which it is taken, and its value there.
#[derive(Clone, Copy)]
pub(crate) struct Picked {
    pub(crate) pick: u32,
    pub(crate) value: u32,
}

/// Adds a choice by a mask: `a` in its lanes, and `b` elsewhere.
pub(crate) fn put_merge(
    builder: &mut Builder,
    pick: u32,
    a: u32,
    b: u32,
    mask: u32,
) -> Result<u32, OutOfMemory>
    requires mask { mask < mask_count builder.old }
    requires pick { pick < mask_count builder.old }
    requires a { a < value_count builder.old }
    requires b { b < value_count builder.old }
    ensures { IfOk result (λ r. Merges builder.old builder.new mask pick a b r) }
{
    builder.put(Instr::Merge { mask, pick, a, b })
}

/// Adds the mask of the lanes of a mask in which a register is true.
pub(crate) fn put_true(builder: &mut Builder, of: u32, mask: u32) -> Result<u32, OutOfMemory>
    requires mask { mask < mask_count builder.old }
    requires of { of < value_count builder.old }
    ensures { IfOk result (λ k. Holds builder.old builder.new mask of k) }
{
    builder.put(Instr::True { mask, of })
}

/// Adds the mask of the lanes of a mask that aren't in another.
pub(crate) fn put_minus(builder: &mut Builder, mask: u32, less: u32) -> Result<u32, OutOfMemory>
    requires mask { mask < mask_count builder.old }
    requires less { less < mask_count builder.old }
    ensures { IfOk result (λ k. Leaves builder.old builder.new mask less k) }
{
    builder.put(Instr::Minus { mask, less })
}

/// The arm at a place, counted from 0.
pub(crate) fn arm_at(arms: &Arms, at: usize) -> &Arm
    requires { at < length arms.now }
    ensures { slice_get arms.now at ≡ Some (arm_view result.now) }
{
    match arms.get(at) {
        Some(arm) => arm,
        None => unreachable!(),
    }
}

/// The register at a place, counted from 0.
pub(crate) fn register_at(registers: &Registers, at: usize) -> u32
    requires { at < length registers.now }
    ensures { slice_get registers.now at ≡ Some result }
{
    match registers.get(at) {
        Some(register) => register,
        None => unreachable!(),
    }
}
