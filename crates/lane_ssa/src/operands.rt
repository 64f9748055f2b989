//! The registers that an instruction names.

ghost use Rattle.std.specs.Prelude.{◌≡◌};
ghost use Rattle.lane_ssa.specs.Operands.{mask_number, operand_number, second_number};
ghost use Rattle.lane_ssa.specs.Views.{instr_view};

use crate::instr::Instr;

/// The number of the mask in whose lanes the instruction works; 0 for `All`, which has none.
#[inline(always)]
pub(crate) fn mask_of(instr: &Instr) -> u32
    ensures { result ≡ mask_number (instr_view instr.now) }
{
    match instr {
        Instr::All => 0,
        Instr::True { mask, .. }
        | Instr::Minus { mask, .. }
        | Instr::Root { mask }
        | Instr::Field { mask, .. }
        | Instr::At { mask, .. }
        | Instr::Const { mask, .. }
        | Instr::Bin { mask, .. }
        | Instr::Neg { mask, .. }
        | Instr::Not { mask, .. }
        | Instr::Is { mask, .. }
        | Instr::First { mask, .. }
        | Instr::Merge { mask, .. }
        | Instr::Match { mask, .. }
        | Instr::Cast { mask, .. }
        | Instr::Length { mask, .. }
        | Instr::Unix { mask, .. }
        | Instr::Trunc { mask, .. }
        | Instr::Extract { mask, .. }
        | Instr::Shift { mask, .. } => *mask,
    }
}

/// The number of the value of an instruction that takes one, or of the first of two; 0 for the others.
#[inline(always)]
pub(crate) fn operand_of(instr: &Instr) -> u32
    ensures { result ≡ operand_number (instr_view instr.now) }
{
    match instr {
        Instr::Neg { of, .. }
        | Instr::Not { of, .. }
        | Instr::Is { of, .. }
        | Instr::Match { of, .. }
        | Instr::Cast { of, .. }
        | Instr::Length { of, .. }
        | Instr::Unix { of, .. }
        | Instr::Trunc { of, .. }
        | Instr::Extract { of, .. } => *of,
        Instr::Bin { a, .. } | Instr::First { a, .. } => *a,
        Instr::Shift { count, .. } => *count,
        _ => 0,
    }
}

/// The number of the second of two values that an instruction takes; 0 for those that don't take two.
#[inline(always)]
pub(crate) fn second_of(instr: &Instr) -> u32
    ensures { result ≡ second_number (instr_view instr.now) }
{
    match instr {
        Instr::Bin { b, .. } | Instr::First { b, .. } => *b,
        Instr::Shift { of, .. } => *of,
        _ => 0,
    }
}
