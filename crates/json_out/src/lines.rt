ghost use Rattle.std.specs.Prelude.{◌≡◌, [], ◌++◌, true, OnOk, OnErr, IfOk};
ghost use Rattle.block_meaning.specs.Blocks.{is_struct};
ghost use Rattle.answer_meaning.specs.Made.{pairs_of};
ghost use Rattle.answer_meaning.specs.Lines.{line_text};
ghost use Rattle.ion_cells.specs.Shown.{Fits, shown};

use crate::values::put_value;
use ion_cells::Cell;
use ion_symtab::SymTab;
use snel_values::{Bytes, OutOfMemory};
use std::alloc::Global;

/// Adds the line of a row, which is a struct: its pairs as a JSON object in compact form, and the line end `\n`. For want
/// of memory all bytes are dropped.
pub fn append_row(into: &mut Bytes, table: &SymTab<'_>, row: &Cell<'_>) -> Result<(), OutOfMemory>
    requires fits { Fits table.now row.now }
    requires is_struct { is_struct (shown table.now row.now) ≡ true }
    ensures ok { OnOk result (into.new ≡ into.old
        ++ line_text (pairs_of (shown table.now row.now))) }
    ensures err { OnErr result (into.new ≡ []) }
{
    match put_row(into, table, row) {
        Ok(()) => Ok(()),
        Err(e) => {
            into.clear();
            Err(e)
        }
    }
}

/// Adds the line of a row, which is a struct.
fn put_row(into: &mut Bytes, table: &SymTab<'_>, row: &Cell<'_>) -> Result<(), OutOfMemory>
    requires fits { Fits table.now row.now }
    requires is_struct { is_struct (shown table.now row.now) ≡ true }
    ensures { OnOk result (into.new ≡ into.old ++ line_text (pairs_of (shown table.now row.now))) }
{
    put_value(into, table, row)?;
    into.push_all(b"\n")
}

/// The line of a row, which is a struct: its pairs as a JSON object in compact form, and the line end `\n`.
pub fn row_line(alloc: Global, table: &SymTab<'_>, row: &Cell<'_>) -> Result<Bytes, OutOfMemory>
    requires fits { Fits table.now row.now }
    requires is_struct { is_struct (shown table.now row.now) ≡ true }
    ensures { IfOk result (λ line. line ≡ line_text (pairs_of (shown table.now row.now))) }
{
    let mut line = Bytes::new(alloc);
    put_row(&mut line, table, row)?;
    Ok(line)
}
