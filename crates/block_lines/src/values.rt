//! The values of lanes.

ghost use Rattle.std.specs.Prelude.{◌≡◌, ◌<◌, All, map, length, IfOk};
ghost use Rattle.std.specs.Str.{IsUtf8};
ghost use Rattle.value_meaning.specs.Val.{text};
ghost use Rattle.snel_values.specs.View.{view};
ghost use Rattle.program_meaning.specs.Registers as lane_registers;
ghost use Rattle.lane_base.specs.Shown.{value_under, IsLegal};
ghost use Rattle.lane_base.specs.Registers.{seen, AreLegal};
ghost use Rattle.lane_ssa.specs.Frames.{state_at};

use ion_cells::Cell;
use ion_symtab::{SymTab, value_of};
use lane_base::Look;
use lane_ssa::{Frame, Registers};
use snel_values::{Items, OutOfMemory, Text, Value};
use std::alloc::Global;

/// The values of the registers in a lane, which is below 16, in their order.
pub fn values_of<'b>(
    alloc: Global,
    frame: &Frame<'b>,
    table: &SymTab<'b>,
    registers: &Registers,
    lane: u32,
) -> Result<Items, OutOfMemory>
    requires lane { lane < 16 }
    requires legal { All (AreLegal table.now) frame.now.values }
    requires registers { All (λ r. r < length frame.now.values) registers.now }
    ensures { IfOk result (λ vs. vs
        ≡ map (lane_registers.value_at (state_at table.now frame.now lane)) registers.now) }
{
    let mut values = Items::new(alloc);
    for at in 0..registers.len() {
        let Some(register) = registers.get(at) else {
            unreachable!();
        };
        let value = look_value(alloc, table, frame.lane(register, lane))?;
        values.push(value)?;
    }
    Ok(values)
}

/// The value that a lane shows under the symbol table.
pub fn look_value(alloc: Global, table: &SymTab<'_>, look: Look<'_>) -> Result<Value, OutOfMemory>
    requires { IsLegal table.now (seen look) }
    ensures { IfOk result (λ v. view v ≡ value_under table.now (seen look.entry)) }
{
    match look {
        Look::Missing => Ok(Value::Missing),
        Look::Null => Ok(Value::Null),
        Look::Bool(truth) => Ok(Value::Bool(truth)),
        Look::Int(number) => Ok(Value::Int(i128::from(number))),
        Look::Time(time) => Ok(Value::Time(time)),
        Look::Text(bytes) => text_value(alloc, bytes),
        Look::Tree(bytes) => value_of(alloc, &Cell::of_bytes(bytes, table.last()), table),
    }
}

/// The value of a text's bytes.
fn text_value(alloc: Global, bytes: &[u8]) -> Result<Value, OutOfMemory>
    requires { IsUtf8 bytes.now }
    ensures { IfOk result (λ v. view v ≡ text bytes.now) }
{
    let text = Text::of(alloc, unsafe { std::str::from_utf8_unchecked(bytes) })?;
    Ok(Value::Text(text))
}
