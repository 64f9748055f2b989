//! Texts and names.
ghost use Rattle.std.specs.Prelude.{◌≡◌, ◌++◌, OnOk};
ghost use Rattle.write_meaning.specs.Encoding as meant;

use crate::heads::{put_cell, put_magnitude};
use crate::numbers::put_var_uint;
use crate::table::Table;
use snel_values::OutOfMemory;

/// Appends the cell of a text: a symbol where the table has it, else a string.
pub(crate) fn put_text(out: &mut Vec<u8>, text: &str, table: &Table<'_>) -> Result<(), OutOfMemory>
    ensures { OnOk result (out.new.items ≡ out.old.items ++ meant.text_bytes (meant.number_of table.now text.now) text.now) }
{
    match table.number_of(text) {
        Some(number) => put_magnitude(out, 7, number, 4),
        None => put_cell(out, 8, text.as_bytes()),
    }
}

/// Appends the label of a name, nothing where the table lacks it.
pub(crate) fn put_label(out: &mut Vec<u8>, name: &str, table: &Table<'_>) -> Result<(), OutOfMemory>
    ensures { OnOk result (out.new.items ≡ out.old.items ++ meant.label_bytes (meant.number_of table.now name.now)) }
{
    match table.number_of(name) {
        Some(number) => put_var_uint(out, number),
        None => Ok(()),
    }
}
