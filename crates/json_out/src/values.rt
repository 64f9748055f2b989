ghost use Rattle.std.specs.Prelude.{◌≡◌, ◌++◌, OnOk};
ghost use Rattle.value_meaning.specs.Val.{list, struct, vals, fields};
ghost use Rattle.answer_meaning.specs.Lines.{value_text};
ghost use Rattle.ion_cells.specs.Standing.{HasLast};
ghost use Rattle.ion_cells.specs.Shown.{Fits, shown};
ghost use Rattle.ion_cells.specs.Iterating.{items_last, values_left, fields_last, pairs_left};

use crate::numbers::put_number;
use crate::texts::put_quoted;
use crate::times::put_quoted_time;
use ion_cells::{Cell, Cells, Content, Fields};
use ion_symtab::SymTab;
use snel_values::{Bytes, OutOfMemory};

/// Adds the text of the cell's value.
#[cycle(values)]
pub fn put_value(into: &mut Bytes, table: &SymTab<'_>, cell: &Cell<'_>) -> Result<(), OutOfMemory>
    requires { Fits table.now cell.now }
    ensures { OnOk result (into.new ≡ into.old ++ value_text (shown table.now cell.now)) }
{
    match cell.content() {
        Content::Null => into.push_all(b"null"),
        Content::Bool(true) => into.push_all(b"true"),
        Content::Bool(false) => into.push_all(b"false"),
        Content::Int(number) => put_number(into, number),
        Content::Time(time) => put_quoted_time(into, time),
        Content::Symbol(number) => put_quoted(into, table.name_of(number)),
        Content::Text(text) => put_quoted(into, text),
        Content::List(cells) => put_list(into, table, cells),
        Content::Struct(pairs) => put_struct(into, table, pairs),
    }
}

/// Adds the text of the list of these cells.
#[cycle(values)]
fn put_list(into: &mut Bytes, table: &SymTab<'_>, mut cells: Cells<'_>) -> Result<(), OutOfMemory>
    requires { HasLast table.now (items_last cells) }
    ensures { OnOk result (into.new ≡ into.old
        ++ value_text (list (vals (values_left table.now cells.entry)))) }
{
    into.push_all(b"[")?;
    let mut later = false;
    'items: while let Some(cell) = cells.next() {
        if later {
            into.push_all(b",")?;
        }
        put_value(into, table, &cell)?;
        later = true;
    }
    into.push_all(b"]")
}

/// Adds the text of the struct of these pairs.
#[cycle(values)]
fn put_struct(
    into: &mut Bytes,
    table: &SymTab<'_>,
    mut pairs: Fields<'_>,
) -> Result<(), OutOfMemory>
    requires { HasLast table.now (fields_last pairs) }
    ensures { OnOk result (into.new ≡ into.old
        ++ value_text (struct (fields (pairs_left table.now pairs.entry)))) }
{
    into.push_all(b"{")?;
    let mut later = false;
    'pairs: while let Some((label, cell)) = pairs.next() {
        if later {
            into.push_all(b",")?;
        }
        put_quoted(into, table.name_of(label))?;
        into.push_all(b":")?;
        put_value(into, table, &cell)?;
        later = true;
    }
    into.push_all(b"}")
}
