//! Values that may stand in a block.
ghost use Rattle.std.specs.Prelude.{◌≡◌, ◌≤◌, ◌++◌, List, ℕ, length, OnOk};
ghost use Rattle.snel_values.specs.View.{view};
ghost use Rattle.write_meaning.specs.Encoding.{encode};
ghost use Rattle.write_meaning.specs.Standing.{IsWritable, HasNames};
ghost use Rattle.write_meaning.specs.Weights as meant;
ghost use Rattle.ion_write.specs.Appends.{AppendsCell};

use crate::table::Table;
use crate::values::append_value;
use snel_values::{OutOfMemory, Value};

/// Appends the cell of a value that may stand in a row: the one encoding of the value, which is a cell that denotes it.
pub fn put_value(value: &Value, table: &Table<'_>, into: &mut Vec<u8>) -> Result<(), OutOfMemory>
    requires writable { IsWritable 0 (view value.now) }
    requires light { meant.weight (view value.now) ≤ 16_000_000 }
    requires few { length table.now ≤ 16_000_000 }
    requires names { HasNames table.now (view value.now) }
    ensures encodes { OnOk result (into.new.items ≡ into.old.items ++ encode table.now (view value.now)) }
    ensures cell { OnOk result (AppendsCell table.now (view value.now) into.old.items into.new.items) }
{
    table.know();
    value.know();
    append_value(into, value, table)
}
