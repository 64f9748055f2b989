//! The instructions of functions, over the registers of their operands.
ghost use Rattle.std.specs.Prelude.{◌≡◌, ◌<◌, length, IfOk, slice_get, Some};
ghost use Rattle.tree_meaning.specs.WellFormed.{TakesArguments};
ghost use Rattle.eval_meaning.specs.Logic.{coalesce};
ghost use Rattle.eval_meaning.specs.Comparisons.{null_if};
ghost use Rattle.eval_meaning.specs.Evaluation.{call_of};
ghost use Rattle.program_meaning.specs.Programs.{mask_count, value_count};
ghost use Rattle.plan_lower.specs.Emitting.{HasValues, AppliesTwo, AppliesAll};

use crate::choice::{put_merge, put_true, register_at};
use crate::operators::put_bin;
use lane_ssa::{Builder, Instr, Registers};
use snel_values::{OutOfMemory, Value};
use tree_meaning::{BinOp, Func};

/// Adds a function of registers.
pub(crate) fn put_call(
    builder: &mut Builder,
    name: Func,
    args: &Registers,
    mask: u32,
) -> Result<u32, OutOfMemory>
    requires mask { mask < mask_count builder.old }
    requires values { HasValues builder.old args.now }
    requires count { TakesArguments name (length args.now) }
    ensures { IfOk result (λ r. AppliesAll builder.old builder.new (call_of name) mask args.now r) }
{
    match name {
        Func::Coalesce => put_first(builder, args, mask),
        Func::NullIf => {
            let a = register_at(args, 0);
            put_null_if(builder, a, register_at(args, 1), mask)
        }
        Func::CharLength => {
            let of = register_at(args, 0);
            builder.put(Instr::Length { mask, name, of })
        }
        Func::UnixEpoch => {
            let of = register_at(args, 0);
            builder.put(Instr::Unix { mask, name, of })
        }
        Func::UnixMicro => {
            let of = register_at(args, 0);
            builder.put(Instr::Unix { mask, name, of })
        }
    }
}

/// COALESCE: the first of the first two, of that and the third, and so on.
fn put_first(builder: &mut Builder, args: &Registers, mask: u32) -> Result<u32, OutOfMemory>
    requires mask { mask < mask_count builder.old }
    requires values { HasValues builder.old args.now }
    requires some { 0 < length args.now }
    ensures { IfOk result (λ r. AppliesAll builder.old builder.new coalesce mask args.now r) }
{
    let mut first = register_at(args, 0);
    for at in 1..args.len() {
        let b = register_at(args, at);
        first = builder.put(Instr::First { mask, a: first, b })?;
    }
    Ok(first)
}

/// NULLIF: NULL where the two are equal, and elsewhere the first.
fn put_null_if(builder: &mut Builder, a: u32, b: u32, mask: u32) -> Result<u32, OutOfMemory>
    requires mask { mask < mask_count builder.old }
    requires a { a < value_count builder.old }
    requires b { b < value_count builder.old }
    ensures { IfOk result (λ r. AppliesTwo builder.old builder.new null_if mask a b r) }
{
    let of = put_bin(builder, BinOp::Eq, a, b, mask)?;
    let pick = put_true(builder, of, mask)?;
    let value = Value::Null;
    let null = builder.put(Instr::Const { mask, value })?;
    put_merge(builder, pick, null, a, mask)
}
