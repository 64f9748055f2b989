//! The values of lanes as JSON.

ghost use Rattle.std.specs.Prelude.{◌≡◌, ◌++◌, OnOk};
ghost use Rattle.answer_meaning.specs.Lines.{value_text};
ghost use Rattle.lane_base.specs.Shown.{value_under, IsLegal};
ghost use Rattle.lane_base.specs.Registers.{seen};

use ion_cells::Cell;
use ion_symtab::SymTab;
use json_out::{put_number, put_quoted_bytes, put_quoted_time, put_value};
use lane_base::Look;
use snel_values::{Bytes, OutOfMemory};

/// Adds the text of the value that a lane shows under the symbol table. MISSING adds nothing. For want of memory a part of
/// it may be added.
pub fn append_look(into: &mut Bytes, table: &SymTab<'_>, look: Look<'_>) -> Result<(), OutOfMemory>
    requires { IsLegal table.now (seen look) }
    ensures { OnOk result (into.new ≡ into.old
        ++ value_text (value_under table.now (seen look.entry))) }
{
    match look {
        Look::Missing => Ok(()),
        Look::Null => into.push_all(b"null"),
        Look::Bool(true) => into.push_all(b"true"),
        Look::Bool(false) => into.push_all(b"false"),
        Look::Int(number) => put_number(into, number),
        Look::Time(time) => put_quoted_time(into, time),
        Look::Text(bytes) => put_quoted_bytes(into, bytes),
        Look::Tree(bytes) => put_value(into, table, &Cell::of_bytes(bytes, table.last())),
    }
}
