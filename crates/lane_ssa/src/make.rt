//! One instruction over the registers that were made before it. Registers lie in their places, and each is written by number.

ghost use Rattle.std.specs.Prelude.{◌≡◌, ◌<◌, ◌≤◌, ◌+◌, ◌++◌, ◌∷◌, [], ℕ, All, true, false, length, take};
ghost use Rattle.block_meaning.specs.Tables.{Table};
ghost use Rattle.program_meaning.specs.Instructions.{makes_mask};
ghost use Rattle.program_meaning.specs.Programs.{IsInstruction};
ghost use Rattle.program_meaning.specs.Registers.{made_by, step, new_mask, new_value};
ghost use Rattle.lane_base.specs.Bits.{has};
ghost use Rattle.lane_base.specs.Registers.{value_at, AreLegal};
ghost use Rattle.lane_base.specs.declared.lanes.Lanes.{Lanes as LanesValue};
ghost use Rattle.lane_ssa.specs.Bound.{IsSymbolOf};
ghost use Rattle.lane_ssa.specs.Compiled.{pattern_of};
ghost use Rattle.lane_ssa.specs.Frames.{registers_at};
ghost use Rattle.lane_ssa.specs.Making.{lane_at, IsReadable};
ghost use Rattle.lane_ssa.specs.Operands.{takes_one, takes_two};
ghost use Rattle.lane_ssa.specs.Views.{instr_view};

use crate::instr::Instr;
use crate::kernels::{one16, two16};
use crate::literal::look_of;
use crate::operands::{mask_of, operand_of, second_of};
use crate::path::{field16, place16};
use ion_symtab::SymTab;
use lane_base::{LaneMask, Lanes, const16, keep16, merge16, true16};
use lane_text::Pattern;

/// How many registers of each kind are made.
#[derive(Clone, Copy)]
pub(crate) struct Made {
    pub masks: usize,
    pub values: usize,
}

/// Makes the register of one instruction, behind those that are made, and says how many are made then. `symbol` is the number
/// of its name, `pattern` its pattern.
#[inline(always)]
pub(crate) fn make<'b>(
    instr: &'b Instr,
    symbol: Option<u32>,
    pattern: &Option<Pattern>,
    table: &SymTab<'b>,
    live: LaneMask,
    rows: &Lanes<'b>,
    made: Made,
    masks: &mut Vec<LaneMask>,
    values: &mut Vec<Lanes<'b>>,
) -> Made
    requires names { IsInstruction made.masks made.values (instr_view instr.now) }
    requires symbol { IsSymbolOf table.now (instr_view instr.now) symbol }
    requires pattern { pattern.now ≡ pattern_of (instr_view instr.now) }
    requires readable { IsReadable table.now }
    requires rows { AreLegal table.now rows.now }
    requires legal { All (AreLegal table.now) (take made.values values.old.items) }
    requires masks { made.masks ≤ length masks.old.items }
    requires values { made.values ≤ length values.old.items }
    requires mask_room { makes_mask (instr_view instr.now) ≡ true → made.masks < length masks.old.items }
    requires value_room { makes_mask (instr_view instr.now) ≡ false → made.values < length values.old.items }
    ensures state { (i : ℕ) → i < 16
        → registers_at table.now (take result.masks masks.new.items) (take result.values values.new.items) i
        ≡ step (lane_at table.now live.0 rows.now i)
        (registers_at table.now (take made.masks masks.old.items) (take made.values values.old.items) i)
        (instr_view instr.now) }
    ensures legal { All (AreLegal table.now) (take result.values values.new.items) }
    ensures masks { result.masks ≤ length masks.new.items }
    ensures values { result.values ≤ length values.new.items }
    ensures masks_long { length masks.new.items ≡ length masks.old.items }
    ensures values_long { length values.new.items ≡ length values.old.items }
{
    match instr {
        Instr::All | Instr::True { .. } | Instr::Minus { .. } => {
            let mask = mask16(instr, live, &masks[..made.masks], &values[..made.values]);
            put_mask(masks, made.masks, mask);
            Made {
                masks: made.masks + 1,
                values: made.values,
            }
        }
        _ => {
            let value = value16(
                instr,
                symbol,
                pattern,
                table,
                rows,
                &masks[..made.masks],
                &values[..made.values],
            );
            put_value(values, made.values, value);
            Made {
                masks: made.masks,
                values: made.values + 1,
            }
        }
    }
}

/// The mask that an instruction makes.
#[inline(always)]
fn mask16(instr: &Instr, live: LaneMask, masks: &[LaneMask], values: &[Lanes<'_>]) -> LaneMask
    requires names { IsInstruction (length masks.now) (length values.now) (instr_view instr.now) }
    requires mask { makes_mask (instr_view instr.now) ≡ true }
    ensures { (table : Table) (rows : LanesValue) → All (AreLegal table) values.now → (i : ℕ) → i < 16
        → new_mask (has result.0 i)
        ≡ made_by (lane_at table live.0 rows i) (registers_at table masks.now values.now i) (instr_view instr.now) }
{
    match instr {
        Instr::True { mask, of } => true16(&values[*of as usize], masks[*mask as usize]),
        Instr::Minus { mask, less } => masks[*mask as usize].minus(masks[*less as usize]),
        _ => live,
    }
}

/// The value that an instruction makes. `symbol` is the number of its name, `pattern` its pattern.
#[inline(always)]
fn value16<'b>(
    instr: &'b Instr,
    symbol: Option<u32>,
    pattern: &Option<Pattern>,
    table: &SymTab<'b>,
    rows: &Lanes<'b>,
    masks: &[LaneMask],
    values: &[Lanes<'b>],
) -> Lanes<'b>
    requires names { IsInstruction (length masks.now) (length values.now) (instr_view instr.now) }
    requires value { makes_mask (instr_view instr.now) ≡ false }
    requires symbol { IsSymbolOf table.now (instr_view instr.now) symbol }
    requires pattern { pattern.now ≡ pattern_of (instr_view instr.now) }
    requires readable { IsReadable table.now }
    requires rows { AreLegal table.now rows.now }
    requires legal { All (AreLegal table.now) values.now }
    ensures value { (live i : ℕ) → i < 16 → new_value (value_at table.now result i)
        ≡ made_by (lane_at table.now live rows.now i) (registers_at table.now masks.now values.now i) (instr_view instr.now) }
    ensures legal { AreLegal table.now result }
{
    let m = masks[mask_of(instr) as usize];
    match instr {
        Instr::Root { .. } => keep16(rows, m),
        Instr::Const { value, .. } => const16(look_of(value), m),
        Instr::Field { of, .. } => field16(&values[*of as usize], symbol, table, m),
        Instr::At { of, at, .. } => place16(&values[*of as usize], *at, table, m),
        Instr::Merge { pick, a, b, .. } => merge16(
            masks[*pick as usize],
            &values[*a as usize],
            &values[*b as usize],
            m,
        ),
        Instr::Bin { .. } | Instr::First { .. } | Instr::Shift { .. } => two16(
            instr,
            &values[operand_of(instr) as usize],
            &values[second_of(instr) as usize],
            m,
        ),
        _ => one16(instr, pattern, &values[operand_of(instr) as usize], m),
    }
}

/// Writes a mask register.
#[inline(always)]
fn put_mask(masks: &mut Vec<LaneMask>, at: usize, mask: LaneMask)
    requires { at < length masks.old.items }
    ensures long { length masks.new.items ≡ length masks.old.items }
    ensures made { take (at + 1) masks.new.items ≡ take at masks.old.items ++ mask ∷ [] }
{
    masks[at] = mask;
}

/// Writes a value register.
#[inline(always)]
fn put_value<'b>(values: &mut Vec<Lanes<'b>>, at: usize, value: Lanes<'b>)
    requires { at < length values.old.items }
    ensures long { length values.new.items ≡ length values.old.items }
    ensures made { take (at + 1) values.new.items ≡ take at values.old.items ++ value.entry ∷ [] }
{
    values[at] = value;
}
