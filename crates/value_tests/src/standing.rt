//! Tables and cells that stand at the front of bytes.
ghost use Rattle.std.specs.Prelude.{IfSome};
ghost use Rattle.ion_cells.specs.Shown.{Fits};

use ion_cells::{Cell, cell_at};
use ion_symtab::{SymTab, read};
use std::alloc::Global;

/// The table of `a` and `b`.
pub(crate) static LETTERS: [u8; 10] = [0xE9, 0x81, 0x83, 0xD6, 0x87, 0xB4, 0x81, 0x61, 0x81, 0x62];

/// The table that begins the bytes.
pub(crate) fn table_of(alloc: Global, bytes: &[u8]) -> Option<SymTab<'_>> {
    if bytes.len() > 1000 {
        return None;
    }
    match read(alloc, bytes, 0) {
        Ok((table, _)) => Some(table),
        Err(_) => None,
    }
}

/// The cell that begins the bytes, under the table.
pub(crate) fn cell_of<'b>(table: &SymTab<'_>, bytes: &'b [u8]) -> Option<Cell<'b>>
    ensures { IfSome result (λ c. Fits table.now c) }
{
    if bytes.len() > 1000 {
        return None;
    }
    cell_at(bytes, 0, table.last()).ok()
}
