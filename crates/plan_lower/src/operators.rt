//! The instructions of operators, of IN, and of the functions with a part of a time.
ghost use Rattle.std.specs.Prelude.{◌≡◌, ◌<◌, length, IfOk, IsSome};
ghost use Rattle.tree_meaning.specs.WellFormed.{IsFormed};
ghost use Rattle.eval_meaning.specs.Comparisons.{member_of};
ghost use Rattle.eval_meaning.specs.Evaluation.{binary};
ghost use Rattle.program_meaning.specs.Programs.{mask_count, value_count};
ghost use Rattle.query_tree.specs.View.{view};
ghost use Rattle.plan_lower.specs.Operands.{operand_of, of_operand, operands_of, of_operands};
ghost use Rattle.plan_lower.specs.Emitting.{HasValues, Applies, AppliesTwo, AppliesAmong};

use crate::choice::register_at;
use lane_ssa::{Builder, Instr, Registers};
use query_tree::Expr;
use snel_values::OutOfMemory;
use std::alloc::Global;
use tree_meaning::BinOp;

/// Adds the instruction of a form of one operand, whose value is in a register.
pub(crate) fn put_one(
    alloc: Global,
    builder: &mut Builder,
    expr: &Expr,
    of: u32,
    mask: u32,
) -> Result<u32, OutOfMemory>
    requires mask { mask < mask_count builder.old }
    requires of { of < value_count builder.old }
    requires operand { IsSome (operand_of (view expr.now)) }
    requires formed { IsFormed (view expr.now) }
    ensures { IfOk result
        (λ r. Applies builder.old builder.new (of_operand (view expr.now)) mask of r) }
{
    match expr {
        Expr::Neg(_) => builder.put(Instr::Neg { mask, of }),
        Expr::Not(_) => builder.put(Instr::Not { mask, of }),
        Expr::Is { what, of: _ } => builder.put(Instr::Is {
            mask,
            what: *what,
            of,
        }),
        Expr::Match { how, of: _, text } => {
            let pattern = text.copy(alloc)?;
            builder.put(Instr::Match {
                mask,
                how: *how,
                of,
                pattern,
            })
        }
        Expr::Cast { of: _, to } => builder.put(Instr::Cast { mask, to: *to, of }),
        Expr::Trunc { part, of: _ } => builder.put(Instr::Trunc {
            mask,
            part: *part,
            of,
        }),
        Expr::Extract { part, of: _ } => builder.put(Instr::Extract {
            mask,
            part: *part,
            of,
        }),
        _ => unreachable!(),
    }
}

/// Adds the instruction of a form of two operands, whose values are in registers.
pub(crate) fn put_two(
    builder: &mut Builder,
    expr: &Expr,
    a: u32,
    b: u32,
    mask: u32,
) -> Result<u32, OutOfMemory>
    requires mask { mask < mask_count builder.old }
    requires a { a < value_count builder.old }
    requires b { b < value_count builder.old }
    requires operands { IsSome (operands_of (view expr.now)) }
    requires formed { IsFormed (view expr.now) }
    ensures { IfOk result
        (λ r. AppliesTwo builder.old builder.new (of_operands (view expr.now)) mask a b r) }
{
    match expr {
        Expr::Bin { op, .. } => put_bin(builder, *op, a, b, mask),
        Expr::Shift { part, .. } => builder.put(Instr::Shift {
            mask,
            part: *part,
            count: a,
            of: b,
        }),
        _ => unreachable!(),
    }
}

/// Adds an operator of two registers.
pub(crate) fn put_bin(
    builder: &mut Builder,
    op: BinOp,
    a: u32,
    b: u32,
    mask: u32,
) -> Result<u32, OutOfMemory>
    requires mask { mask < mask_count builder.old }
    requires a { a < value_count builder.old }
    requires b { b < value_count builder.old }
    ensures { IfOk result (λ r. AppliesTwo builder.old builder.new (binary op) mask a b r) }
{
    builder.put(Instr::Bin { mask, op, a, b })
}

/// Adds what finds a register among others: an equality with each, and the ORs of these from the first on.
pub(crate) fn put_member(
    builder: &mut Builder,
    of: u32,
    members: &Registers,
    mask: u32,
) -> Result<u32, OutOfMemory>
    requires mask { mask < mask_count builder.old }
    requires of { of < value_count builder.old }
    requires values { HasValues builder.old members.now }
    requires some { 0 < length members.now }
    ensures { IfOk result
        (λ r. AppliesAmong builder.old builder.new member_of mask of members.now r) }
{
    let mut found = put_bin(builder, BinOp::Eq, of, register_at(members, 0), mask)?;
    for at in 1..members.len() {
        let equal = put_bin(builder, BinOp::Eq, of, register_at(members, at), mask)?;
        found = put_bin(builder, BinOp::Or, found, equal, mask)?;
    }
    Ok(found)
}
