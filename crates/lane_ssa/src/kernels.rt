//! The kernels of instructions that are a function of one value or of two, sixteen lanes at once.

ghost use Rattle.std.specs.Prelude.{◌≡◌, ◌<◌, ℕ, true};
ghost use Rattle.block_meaning.specs.Tables.{Table};
ghost use Rattle.eval_meaning.specs.Evaluation.{binary};
ghost use Rattle.lane_base.specs.Bits.{has};
ghost use Rattle.lane_base.specs.Registers.{value_at, under, AreLegal};
ghost use Rattle.lane_ssa.specs.Compiled.{pattern_of};
ghost use Rattle.lane_ssa.specs.Operands.{takes_one, one_of, takes_two, two_of, NamesItsPart};
ghost use Rattle.lane_ssa.specs.Views.{instr_view};

use crate::instr::Instr;
use lane_base::{LaneMask, Lanes, and16, first16, is16, not16, or16};
use lane_cast::{cast16, math16, neg16};
use lane_compare::compare16;
use lane_text::{Pattern, length16, match16};
use lane_time::{extract16, shift16, trunc16, unix16};
use tree_meaning::BinOp;

/// What an instruction that is a function of one value makes of it, in the lanes of `m`. `pattern` is its pattern.
#[inline(always)]
pub(crate) fn one16<'b>(
    instr: &Instr,
    pattern: &Option<Pattern>,
    a: &Lanes<'b>,
    m: LaneMask,
) -> Lanes<'b>
    requires one { takes_one (instr_view instr.now) ≡ true }
    requires pattern { pattern.now ≡ pattern_of (instr_view instr.now) }
    requires part { NamesItsPart (instr_view instr.now) }
    ensures value { (table : Table) → AreLegal table a.now → (i : ℕ) → i < 16
        → value_at table result i ≡ under (has m.0 i) (one_of (instr_view instr.now) (value_at table a.now i)) }
    ensures legal { (table : Table) → AreLegal table a.now → AreLegal table result }
{
    match instr {
        Instr::Neg { .. } => neg16(a, m),
        Instr::Not { .. } => not16(a, m),
        Instr::Is { what, .. } => is16(*what, a, m),
        Instr::Match { .. } => match pattern {
            Some(pattern) => match16(pattern, a, m),
            None => unreachable!(),
        },
        Instr::Cast { to, .. } => cast16(*to, a, m),
        Instr::Length { .. } => length16(a, m),
        Instr::Unix { name, .. } => unix16(*name, a, m),
        Instr::Trunc { part, .. } => trunc16(*part, a, m),
        Instr::Extract { part, .. } => extract16(*part, a, m),
        _ => unreachable!(),
    }
}

/// What an instruction that is a function of two values makes of them, in the lanes of `m`.
#[inline(always)]
pub(crate) fn two16<'b>(instr: &Instr, a: &Lanes<'b>, b: &Lanes<'b>, m: LaneMask) -> Lanes<'b>
    requires two { takes_two (instr_view instr.now) ≡ true }
    requires part { NamesItsPart (instr_view instr.now) }
    ensures value { (table : Table) → AreLegal table a.now → AreLegal table b.now → (i : ℕ) → i < 16
        → value_at table result i
        ≡ under (has m.0 i) (two_of (instr_view instr.now) (value_at table a.now i) (value_at table b.now i)) }
    ensures legal { (table : Table) → AreLegal table a.now → AreLegal table b.now → AreLegal table result }
{
    match instr {
        Instr::Bin { op, .. } => bin16(*op, a, b, m),
        Instr::First { .. } => first16(a, b, m),
        Instr::Shift { part, .. } => shift16(*part, a, b, m),
        _ => unreachable!(),
    }
}

/// What an operator gives of two values, in the lanes of `m`.
#[inline(always)]
fn bin16<'b>(op: BinOp, a: &Lanes<'b>, b: &Lanes<'b>, m: LaneMask) -> Lanes<'b>
    ensures value { (table : Table) → AreLegal table a.now → AreLegal table b.now → (i : ℕ) → i < 16
        → value_at table result i ≡ under (has m.0 i) (binary op (value_at table a.now i) (value_at table b.now i)) }
    ensures legal { (table : Table) → AreLegal table result }
{
    match op {
        BinOp::Add | BinOp::Sub | BinOp::Mul | BinOp::Div | BinOp::Rem => math16(op, a, b, m),
        BinOp::Eq | BinOp::Ne | BinOp::Lt | BinOp::Le | BinOp::Gt | BinOp::Ge => {
            compare16(op, a, b, m)
        }
        BinOp::And => and16(a, b, m),
        BinOp::Or => or16(a, b, m),
    }
}
