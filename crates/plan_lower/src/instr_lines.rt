//! The lines of the instructions of a job.
ghost use Rattle.std.specs.Prelude.{◌≡◌, ◌<◌, ◌++◌, map, length, slice_get, Some, OnOk, cond, if◌then◌else◌};
ghost use Rattle.value_meaning.specs.Val.{int};
ghost use Rattle.program_meaning.specs.Instructions as program;
ghost use Rattle.program_meaning.specs.Programs.{IsConstant, IsProgram};
ghost use Rattle.snel_values.specs.View.{view};
ghost use Rattle.lane_ssa.specs.Views.{instr_view};
ghost use Rattle.plan_lower.specs.Listing as spec;
ghost use Rattle.plan_lower.specs.Constants.{HasConstant};

use crate::pieces::{
    func_word, how_word, op_word, part_word, put_mask, put_operand, put_under, put_value, to_word,
    what_word,
};
use itoa::Buffer;
use lane_ssa::Instr;
use snel_values::{Bytes, OutOfMemory, Text, Value};
use sql_pieces::{put, put_digits, put_literal, put_name, put_string};
use tree_meaning::{How, Part};

/// The lines of the instructions of a program.
pub(crate) fn put_program(text: &mut Bytes, instrs: &[Instr]) -> Result<(), OutOfMemory>
    requires { IsProgram (map instr_view instrs.now) }
    ensures { OnOk result (text.new ≡ text.old ++ spec.program_text (map instr_view instrs.now)) }
{
    let mut masks = 0;
    for at in 0..instrs.len() {
        let instr = instr_at(instrs, at);
        put_line(text, instr, masks, at as u64 - masks)?;
        masks += masks_of(instr);
    }
    Ok(())
}

fn instr_at(instrs: &[Instr], at: usize) -> &Instr
    requires { at < length instrs.now }
    ensures { slice_get (map instr_view instrs.now) at ≡ Some (instr_view result.now) }
{
    &instrs[at]
}

/// How many masks an instruction makes.
fn masks_of(instr: &Instr) -> u64
    ensures { result ≡ cond (program.makes_mask (instr_view instr.now)) 1 0 }
{
    if makes_mask(instr) { 1 } else { 0 }
}

fn makes_mask(instr: &Instr) -> bool
    ensures { result ≡ program.makes_mask (instr_view instr.now) }
{
    matches!(instr, Instr::All | Instr::True { .. } | Instr::Minus { .. })
}

/// The line of an instruction behind so many masks and values.
#[tactic(auto, unfolding(crate::specs::Listing::instr_line))]
fn put_line(text: &mut Bytes, instr: &Instr, masks: u64, values: u64) -> Result<(), OutOfMemory>
    requires { HasConstant (instr_view instr.now) }
    ensures { OnOk result (text.new ≡ text.old ++ spec.instr_line masks values (instr_view instr.now)) }
{
    put_register(text, makes_mask(instr), masks, values)?;
    put(text, " = ")?;
    put_made(text, instr)?;
    put(text, "\n")
}

/// The register that an instruction makes behind so many masks and values.
fn put_register(text: &mut Bytes, is_mask: bool, masks: u64, values: u64) -> Result<(), OutOfMemory>
    ensures { OnOk result (text.new ≡ text.old
        ++ (if is_mask then spec.mask_name masks else spec.value_name values)) }
{
    if is_mask {
        put_mask(text, masks)
    } else {
        put_value(text, values)
    }
}

/// What a register is made from.
#[tactic(auto, unfolding(crate::specs::Listing::made_text))]
fn put_made(text: &mut Bytes, instr: &Instr) -> Result<(), OutOfMemory>
    requires { HasConstant (instr_view instr.now) }
    ensures { OnOk result (text.new ≡ text.old ++ spec.made_text (instr_view instr.now)) }
{
    match instr {
        Instr::All => put(text, "all"),
        Instr::True { mask, of } => put_simple(text, "true", *mask, *of),
        Instr::Minus { mask, less } => put_minus(text, *mask, *less),
        Instr::Root { mask } => put_under(text, "root", *mask),
        Instr::Field { mask, of, name } => put_field(text, *mask, *of, name),
        Instr::At { mask, of, at } => put_at(text, *mask, *of, *at),
        Instr::Const { mask, value } => put_const(text, *mask, value),
        Instr::Bin { mask, op, a, b } => put_two(text, op_word(*op), *mask, *a, *b),
        Instr::Neg { mask, of } => put_simple(text, "neg", *mask, *of),
        Instr::Not { mask, of } => put_simple(text, "not", *mask, *of),
        Instr::Is { mask, what, of } => put_with(text, "is", *mask, what_word(*what), *of),
        Instr::First { mask, a, b } => put_two(text, "first", *mask, *a, *b),
        Instr::Merge { mask, pick, a, b } => put_merge(text, *mask, *pick, *a, *b),
        Instr::Match {
            mask,
            how,
            of,
            pattern,
        } => put_match(text, *mask, *how, *of, pattern),
        Instr::Cast { mask, to, of } => put_with(text, "cast", *mask, to_word(*to), *of),
        Instr::Length { mask, name, of } => put_simple(text, func_word(*name), *mask, *of),
        Instr::Unix { mask, name, of } => put_simple(text, func_word(*name), *mask, *of),
        Instr::Trunc { mask, part, of } => put_with(text, "trunc", *mask, part_word(*part), *of),
        Instr::Extract { mask, part, of } => {
            put_with(text, "extract", *mask, part_word(*part), *of)
        }
        Instr::Shift {
            mask,
            part,
            count,
            of,
        } => put_shift(text, *mask, *part, *count, *of),
    }
}

#[tactic(auto, unfolding(crate::specs::Listing::made_text))]
fn put_const(text: &mut Bytes, mask: u32, value: &Value) -> Result<(), OutOfMemory>
    requires { IsConstant (view value.now) }
    ensures { OnOk result (text.new ≡ text.old ++ spec.made_text (program.const mask (view value.now))) }
{
    put_under(text, "const", mask)?;
    put(text, " ")?;
    put_constant(text, value)
}

#[tactic(auto, unfolding(crate::specs::Listing::constant_text))]
fn put_constant(text: &mut Bytes, value: &Value) -> Result<(), OutOfMemory>
    requires { IsConstant (view value.now) }
    ensures { OnOk result (text.new ≡ text.old ++ spec.constant_text (view value.now)) }
{
    match value {
        Value::Int(number) => put_number(text, *number),
        Value::Missing => put_literal(text, value),
        Value::Null => put_literal(text, value),
        Value::Bool(_) => put_literal(text, value),
        Value::Time(_) => put_literal(text, value),
        Value::Text(_) => put_literal(text, value),
        Value::List(_) => unreachable!(),
        Value::Struct(_) => unreachable!(),
    }
}

#[tactic(auto, unfolding(crate::specs::Listing::constant_text))]
fn put_number(text: &mut Bytes, number: i128) -> Result<(), OutOfMemory>
    ensures { OnOk result (text.new ≡ text.old ++ spec.constant_text (int number)) }
{
    let mut digits = Buffer::new();
    put(text, digits.format(number))
}

#[tactic(auto, unfolding(crate::specs::Listing::made_text))]
fn put_field(text: &mut Bytes, mask: u32, of: u32, name: &Text) -> Result<(), OutOfMemory>
    ensures { OnOk result (text.new ≡ text.old ++ spec.made_text (program.field mask of name.now)) }
{
    put_under(text, "field", mask)?;
    put_operand(text, of)?;
    put(text, " ")?;
    put_name(text, name.as_str())
}

#[tactic(auto, unfolding(crate::specs::Listing::made_text))]
fn put_at(text: &mut Bytes, mask: u32, of: u32, at: u32) -> Result<(), OutOfMemory>
    ensures { OnOk result (text.new ≡ text.old ++ spec.made_text (program.at mask of at)) }
{
    put_under(text, "at", mask)?;
    put_operand(text, of)?;
    put(text, " ")?;
    put_digits(text, u128::from(at))
}

#[tactic(auto, unfolding(crate::specs::Listing::made_text))]
fn put_minus(text: &mut Bytes, mask: u32, less: u32) -> Result<(), OutOfMemory>
    ensures { OnOk result (text.new ≡ text.old ++ spec.made_text (program.minus mask less)) }
{
    put_under(text, "minus", mask)?;
    put(text, " ")?;
    put_mask(text, u64::from(less))
}

#[tactic(auto, unfolding(crate::specs::Listing::made_text))]
fn put_merge(text: &mut Bytes, mask: u32, pick: u32, a: u32, b: u32) -> Result<(), OutOfMemory>
    ensures { OnOk result (text.new ≡ text.old ++ spec.made_text (program.merge mask pick a b)) }
{
    put_under(text, "merge", mask)?;
    put(text, " ")?;
    put_mask(text, u64::from(pick))?;
    put_operand(text, a)?;
    put_operand(text, b)
}

/// The word, the mask and the value of an instruction of these alone.
fn put_simple(text: &mut Bytes, word: &str, mask: u32, of: u32) -> Result<(), OutOfMemory>
    ensures { OnOk result (text.new ≡ text.old ++ spec.of_one_text word.now mask of) }
{
    put_under(text, word, mask)?;
    put_operand(text, of)
}

/// The same of two values.
fn put_two(text: &mut Bytes, word: &str, mask: u32, a: u32, b: u32) -> Result<(), OutOfMemory>
    ensures { OnOk result (text.new ≡ text.old ++ spec.of_two_text word.now mask a b) }
{
    put_under(text, word, mask)?;
    put_operand(text, a)?;
    put_operand(text, b)
}

/// The word, the mask, what the instruction asks for, and the value.
fn put_with(text: &mut Bytes, word: &str, mask: u32, what: &str, of: u32) -> Result<(), OutOfMemory>
    ensures { OnOk result (text.new ≡ text.old ++ spec.asked_text word.now mask what.now of) }
{
    put_under(text, word, mask)?;
    put(text, " ")?;
    put(text, what)?;
    put_operand(text, of)
}

#[tactic(auto, unfolding(crate::specs::Listing::made_text))]
fn put_match(
    text: &mut Bytes,
    mask: u32,
    how: How,
    of: u32,
    pattern: &Text,
) -> Result<(), OutOfMemory>
    ensures { OnOk result (text.new ≡ text.old
        ++ spec.made_text (program.matching mask how of pattern.now)) }
{
    put_simple(text, how_word(how), mask, of)?;
    put(text, " ")?;
    put_string(text, pattern.as_str())
}

#[tactic(auto, unfolding(crate::specs::Listing::made_text))]
fn put_shift(
    text: &mut Bytes,
    mask: u32,
    part: Part,
    count: u32,
    of: u32,
) -> Result<(), OutOfMemory>
    ensures { OnOk result (text.new ≡ text.old
        ++ spec.made_text (program.shift mask part count of)) }
{
    put_with(text, "shift", mask, part_word(part), count)?;
    put_operand(text, of)
}
