//! The instructions of literals and paths.
ghost use Rattle.std.specs.Prelude.{◌≡◌, ◌<◌, ℕ, map, length, IfOk, slice_get, Some};
ghost use Rattle.tree_meaning.specs.Tree.{lit, path};
ghost use Rattle.tree_meaning.specs.WellFormed.{IsLiteral};
ghost use Rattle.eval_meaning.specs.Paths.{step_of};
ghost use Rattle.program_meaning.specs.Programs.{mask_count, value_count};
ghost use Rattle.snel_values.specs.View.{view as value_view};
ghost use Rattle.query_tree.specs.View.{step_view};
ghost use Rattle.plan_lower.specs.Emitting.{IsBegun, Emits, Applies};

use lane_ssa::{Builder, Instr};
use snel_values::{OutOfMemory, Step, Steps, Value};
use std::alloc::Global;

/// The value register of the row, which each program makes first.
const ROW: u32 = 0;

/// A literal.
pub(crate) fn emit_literal(
    alloc: Global,
    builder: &mut Builder,
    value: &Value,
    mask: u32,
) -> Result<u32, OutOfMemory>
    requires mask { mask < mask_count builder.old }
    requires literal { IsLiteral (value_view value.now) }
    ensures { IfOk result (λ r. Emits builder.old builder.new (lit (value_view value.now)) mask r) }
{
    let value = value.copy(alloc)?;
    builder.put(Instr::Const { mask, value })
}

/// A path from the row: an instruction for each step.
pub(crate) fn emit_path(
    alloc: Global,
    builder: &mut Builder,
    steps: &Steps,
    mask: u32,
) -> Result<u32, OutOfMemory>
    requires { IsBegun builder.old mask }
    ensures { IfOk result
        (λ r. Emits builder.old builder.new (path 0 (map step_view steps.now)) mask r) }
{
    let mut of = ROW;
    for at in 0..steps.len() {
        of = emit_step(alloc, builder, step_at(steps, at), of, mask)?;
    }
    Ok(of)
}

/// One step of a path, from the value of a register.
fn emit_step(
    alloc: Global,
    builder: &mut Builder,
    step: &Step,
    of: u32,
    mask: u32,
) -> Result<u32, OutOfMemory>
    requires mask { mask < mask_count builder.old }
    requires of { of < value_count builder.old }
    ensures { IfOk result
        (λ r. Applies builder.old builder.new (step_of (step_view step.now)) mask of r) }
{
    match step {
        Step::Name(name) => {
            let name = name.copy(alloc)?;
            builder.put(Instr::Field { mask, of, name })
        }
        Step::At(at) => builder.put(Instr::At { mask, of, at: *at }),
    }
}

/// The step of a path at a place, counted from 0.
fn step_at(steps: &Steps, at: usize) -> &Step
    requires { at < length steps.now }
    ensures { slice_get steps.now at ≡ Some result.now }
{
    match steps.get(at) {
        Some(step) => step,
        None => unreachable!(),
    }
}
