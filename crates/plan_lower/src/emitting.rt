//! From expressions to instructions: each form puts the instructions of its operands, and its own behind them.
ghost use Rattle.std.specs.Prelude.{◌≡◌, ◌<◌, length, IfOk, Some};
ghost use Rattle.tree_meaning.specs.Tree.{member, between, choice, call, exs, arms};
ghost use Rattle.tree_meaning.specs.WellFormed.{IsFormed, AreFormed, ArmsAreFormed, HasArm, TakesArguments};
ghost use Rattle.program_meaning.specs.Programs.{value_count};
ghost use Rattle.query_tree.specs.View.{view, arm_view};
ghost use Rattle.plan_lower.specs.Operands.{operand_of, operands_of};
ghost use Rattle.plan_lower.specs.Emitting.{IsBegun, Emits, EmitsAll, Compares, Keeps, Picks};

use crate::choice::{Picked, arm_at, put_merge, put_minus, put_true};
use crate::functions::put_call;
use crate::operators::{put_bin, put_member, put_one, put_two};
use crate::paths::{emit_literal, emit_path};
use lane_ssa::{Builder, Registers};
use query_tree::{Arm, Arms, Expr, Exprs, Operand};
use snel_values::{OutOfMemory, Value};
use std::alloc::Global;
use tree_meaning::{BinOp, Func};

/// Adds the instructions of an expression under a mask; the register that shows its value in the lanes of the mask. Each form
/// has a function of its own, so that the frames of a deep tree are small. An aggregate is MISSING on any one row.
#[cycle(emit)]
pub(crate) fn emit_expr(
    alloc: Global,
    builder: &mut Builder,
    expr: &Expr,
    mask: u32,
) -> Result<u32, OutOfMemory>
    requires begun { IsBegun builder.old mask }
    requires formed { IsFormed (view expr.now) }
    ensures { IfOk result (λ r. Emits builder.old builder.new (view expr.now) mask r) }
{
    match expr {
        Expr::Lit(value) => emit_literal(alloc, builder, value, mask),
        Expr::Path { row: _, steps } => emit_path(alloc, builder, steps, mask),
        Expr::Neg(of) => emit_one(alloc, builder, expr, of, mask),
        Expr::Not(of) => emit_one(alloc, builder, expr, of, mask),
        Expr::Bin { op: _, left, right } => emit_two(alloc, builder, expr, left, right, mask),
        Expr::Is { what: _, of } => emit_one(alloc, builder, expr, of, mask),
        Expr::In { of, list } => emit_in(alloc, builder, of, list, mask),
        Expr::Between { of, low, high } => emit_between(alloc, builder, of, low, high, mask),
        Expr::Match {
            how: _,
            of,
            text: _,
        } => emit_one(alloc, builder, expr, of, mask),
        Expr::Case { arms, other } => emit_case(alloc, builder, arms, other, mask),
        Expr::Cast { of, to: _ } => emit_one(alloc, builder, expr, of, mask),
        Expr::Call { name, args } => emit_call(alloc, builder, *name, args, mask),
        Expr::Trunc { part: _, of } => emit_one(alloc, builder, expr, of, mask),
        Expr::Extract { part: _, of } => emit_one(alloc, builder, expr, of, mask),
        Expr::Shift { part: _, count, of } => emit_two(alloc, builder, expr, count, of, mask),
        Expr::Agg { .. } => emit_literal(alloc, builder, &Value::Missing, mask),
    }
}

/// A form of one operand.
#[cycle(emit)]
fn emit_one(
    alloc: Global,
    builder: &mut Builder,
    expr: &Expr,
    of: &Operand,
    mask: u32,
) -> Result<u32, OutOfMemory>
    requires begun { IsBegun builder.old mask }
    requires operand { operand_of (view expr.now) ≡ Some of.now }
    requires formed { IsFormed (view expr.now) }
    ensures { IfOk result (λ r. Emits builder.old builder.new (view expr.now) mask r) }
{
    let of = emit_expr(alloc, builder, of.get(), mask)?;
    put_one(alloc, builder, expr, of, mask)
}

/// A form of two operands.
#[cycle(emit)]
fn emit_two(
    alloc: Global,
    builder: &mut Builder,
    expr: &Expr,
    first: &Operand,
    second: &Operand,
    mask: u32,
) -> Result<u32, OutOfMemory>
    requires begun { IsBegun builder.old mask }
    requires operands { operands_of (view expr.now) ≡ Some (first.now, second.now) }
    requires formed { IsFormed (view expr.now) }
    ensures { IfOk result (λ r. Emits builder.old builder.new (view expr.now) mask r) }
{
    let a = emit_expr(alloc, builder, first.get(), mask)?;
    let b = emit_expr(alloc, builder, second.get(), mask)?;
    put_two(builder, expr, a, b, mask)
}

/// `of IN (list)`: the operand and the members, each once, and then what finds it among them.
#[cycle(emit)]
fn emit_in(
    alloc: Global,
    builder: &mut Builder,
    of: &Operand,
    list: &Exprs,
    mask: u32,
) -> Result<u32, OutOfMemory>
    requires begun { IsBegun builder.old mask }
    requires formed { IsFormed of.now }
    requires list { AreFormed (exs list.now) }
    requires members { 0 < length list.now }
    ensures { IfOk result
        (λ r. Emits builder.old builder.new (member of.now (exs list.now)) mask r) }
{
    let of = emit_expr(alloc, builder, of.get(), mask)?;
    let members = emit_list(alloc, builder, list, mask)?;
    put_member(builder, of, &members, mask)
}

/// `of BETWEEN low AND high`: the operand once, and then its comparison with each bound.
#[cycle(emit)]
fn emit_between(
    alloc: Global,
    builder: &mut Builder,
    of: &Operand,
    low: &Operand,
    high: &Operand,
    mask: u32,
) -> Result<u32, OutOfMemory>
    requires begun { IsBegun builder.old mask }
    requires formed { IsFormed of.now }
    requires low { IsFormed low.now }
    requires high { IsFormed high.now }
    ensures { IfOk result
        (λ r. Emits builder.old builder.new (between of.now low.now high.now) mask r) }
{
    let of = emit_expr(alloc, builder, of.get(), mask)?;
    let above = emit_compared(alloc, builder, BinOp::Ge, of, low, mask)?;
    let below = emit_compared(alloc, builder, BinOp::Le, of, high, mask)?;
    put_bin(builder, BinOp::And, above, below, mask)
}

/// An operator of a register and an expression.
#[cycle(emit)]
fn emit_compared(
    alloc: Global,
    builder: &mut Builder,
    op: BinOp,
    of: u32,
    with: &Operand,
    mask: u32,
) -> Result<u32, OutOfMemory>
    requires begun { IsBegun builder.old mask }
    requires of { of < value_count builder.old }
    requires formed { IsFormed with.now }
    ensures { IfOk result (λ r. Compares builder.old builder.new op of with.now mask r) }
{
    let with = emit_expr(alloc, builder, with.get(), mask)?;
    put_bin(builder, op, of, with, mask)
}

/// CASE: the arms in their order, each under the mask of the lanes in which no earlier one was taken; and ELSE in those that
/// are left behind the last.
#[cycle(emit)]
fn emit_case(
    alloc: Global,
    builder: &mut Builder,
    list: &Arms,
    other: &Operand,
    mask: u32,
) -> Result<u32, OutOfMemory>
    requires begun { IsBegun builder.old mask }
    requires arms { ArmsAreFormed (arms list.now) }
    requires arm { 0 < length list.now }
    requires formed { IsFormed other.now }
    ensures { IfOk result
        (λ r. Emits builder.old builder.new (choice (arms list.now) other.now) mask r) }
{
    let first = emit_arm(alloc, builder, arm_at(list, 0), mask)?;
    let mut shown = first.value;
    let mut left = put_minus(builder, mask, first.pick)?;
    for at in 1..list.len() {
        let arm = emit_arm(alloc, builder, arm_at(list, at), left)?;
        shown = put_merge(builder, arm.pick, arm.value, shown, mask)?;
        left = put_minus(builder, left, arm.pick)?;
    }
    let other = emit_expr(alloc, builder, other.get(), left)?;
    put_merge(builder, left, other, shown, mask)
}

/// An arm of CASE: its condition under the mask, and its value in the lanes in which that is true.
#[cycle(emit)]
fn emit_arm(
    alloc: Global,
    builder: &mut Builder,
    arm: &Arm,
    mask: u32,
) -> Result<Picked, OutOfMemory>
    requires begun { IsBegun builder.old mask }
    requires test { IsFormed arm.now.test }
    requires value { IsFormed arm.now.value }
    ensures { IfOk result
        (λ p. Picks builder.old builder.new (arm_view arm.now) mask p.pick p.value) }
{
    let pick = emit_test(alloc, builder, &arm.test, mask)?;
    let value = emit_expr(alloc, builder, arm.value.get(), pick)?;
    Ok(Picked { pick, value })
}

/// A condition: the mask of the lanes of a mask in which it is true.
#[cycle(emit)]
pub(crate) fn emit_test(
    alloc: Global,
    builder: &mut Builder,
    test: &Operand,
    mask: u32,
) -> Result<u32, OutOfMemory>
    requires begun { IsBegun builder.old mask }
    requires formed { IsFormed test.now }
    ensures { IfOk result (λ k. Keeps builder.old builder.new (Some test.now) mask k) }
{
    let of = emit_expr(alloc, builder, test.get(), mask)?;
    put_true(builder, of, mask)
}

/// A function: its operands, and then what it makes of them.
#[cycle(emit)]
fn emit_call(
    alloc: Global,
    builder: &mut Builder,
    name: Func,
    args: &Exprs,
    mask: u32,
) -> Result<u32, OutOfMemory>
    requires begun { IsBegun builder.old mask }
    requires formed { AreFormed (exs args.now) }
    requires count { TakesArguments name (length args.now) }
    ensures { IfOk result (λ r. Emits builder.old builder.new (call name (exs args.now)) mask r) }
{
    let args = emit_list(alloc, builder, args, mask)?;
    put_call(builder, name, &args, mask)
}

/// Expressions, one behind the other; the register of each.
#[cycle(emit)]
pub(crate) fn emit_list(
    alloc: Global,
    builder: &mut Builder,
    list: &Exprs,
    mask: u32,
) -> Result<Registers, OutOfMemory>
    requires begun { IsBegun builder.old mask }
    requires formed { AreFormed (exs list.now) }
    ensures { IfOk result (λ rs. EmitsAll builder.old builder.new list.now mask rs) }
{
    let mut registers = Registers::new(alloc);
    for at in 0..list.len() {
        let Some(of) = list.get(at) else {
            unreachable!();
        };
        registers.push(emit_expr(alloc, builder, of.get(), mask)?)?;
    }
    Ok(registers)
}
