//! Values.
ghost use Rattle.std.specs.Prelude.{◌≡◌, ◌++◌, OnOk};
ghost use Rattle.snel_values.specs.View.{view};
ghost use Rattle.value_meaning.specs.Val.{vals, fields};
ghost use Rattle.write_meaning.specs.Encoding as meant;

use crate::heads::{close_cell, put_magnitude};
use crate::place::pair_at;
use crate::table::Table;
use crate::texts::{put_label, put_text};
use crate::times::put_time;
use snel_values::{Items, OutOfMemory, Pairs, Value};

/// Appends the cell of a number, nothing where it is out of range.
fn put_int(out: &mut Vec<u8>, number: i128) -> Result<(), OutOfMemory>
    ensures { OnOk result (out.new.items ≡ out.old.items ++ meant.int_bytes number) }
{
    match i64::try_from(number) {
        Ok(whole) if whole >= 0 => put_magnitude(out, 2, whole.unsigned_abs(), 8),
        Ok(whole) => put_magnitude(out, 3, whole.unsigned_abs(), 8),
        Err(_) => Ok(()),
    }
}

/// Appends the cell of a value.
#[cycle(put)]
pub(crate) fn append_value(
    out: &mut Vec<u8>,
    value: &Value,
    table: &Table<'_>,
) -> Result<(), OutOfMemory>
    ensures { OnOk result (out.new.items ≡ out.old.items ++ meant.encode table.now (view value.now)) }
{
    match value {
        Value::Missing => Ok(()),
        Value::Null => {
            out.push(0x0F)?;
            Ok(())
        }
        Value::Bool(true) => {
            out.push(0x11)?;
            Ok(())
        }
        Value::Bool(false) => {
            out.push(0x10)?;
            Ok(())
        }
        Value::Int(number) => put_int(out, *number),
        Value::Time(time) => put_time(out, *time),
        Value::Text(text) => put_text(out, text.as_str(), table),
        Value::List(items) => {
            let start = out.len();
            put_items(out, items, table)?;
            close_cell(out, start, 11)
        }
        Value::Struct(pairs) => {
            let start = out.len();
            put_pairs(out, pairs, table)?;
            close_cell(out, start, 13)
        }
    }
}

/// Appends the cells of the items, end to end.
#[cycle(put)]
fn put_items(out: &mut Vec<u8>, items: &Items, table: &Table<'_>) -> Result<(), OutOfMemory>
    ensures { OnOk result (out.new.items ≡ out.old.items ++ meant.encode_items table.now (vals items.now)) }
{
    for item in items.as_slice() {
        append_value(out, item, table)?;
    }
    Ok(())
}

/// Appends the labels and the cells of the pairs, end to end.
#[cycle(put)]
fn put_pairs(out: &mut Vec<u8>, pairs: &Pairs, table: &Table<'_>) -> Result<(), OutOfMemory>
    ensures { OnOk result (out.new.items ≡ out.old.items ++ meant.encode_pairs table.now (fields pairs.now)) }
{
    for at in 0..pairs.len() {
        let (name, value) = pair_at(pairs, at);
        put_label(out, name, table)?;
        append_value(out, value, table)?;
    }
    Ok(())
}
