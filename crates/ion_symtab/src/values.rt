ghost use Rattle.std.specs.Prelude.{◌≡◌, IfOk};
ghost use Rattle.snel_values.specs.View.{view};
ghost use Rattle.ion_cells.specs.Standing.{HasLast};
ghost use Rattle.ion_cells.specs.Shown.{Fits, shown};
ghost use Rattle.ion_cells.specs.Iterating.{items_last, values_left, fields_last, fields_low, pairs_left};

use crate::table::SymTab;
use ion_cells::{Cell, Cells, Content, Fields};
use snel_values::{Items, OutOfMemory, Pairs, Text, Value};
use std::alloc::Global;

/// The value that the cell denotes under the table.
#[cycle(value_of)]
pub fn value_of(alloc: Global, cell: &Cell<'_>, table: &SymTab<'_>) -> Result<Value, OutOfMemory>
    requires { Fits table.now cell.now }
    ensures { IfOk result (λ v. view v ≡ shown table.now cell.now) }
{
    match cell.content() {
        Content::Null => Ok(Value::Null),
        Content::Bool(truth) => Ok(Value::Bool(truth)),
        Content::Int(number) => Ok(Value::Int(i128::from(number))),
        Content::Time(micros) => Ok(Value::Time(micros)),
        Content::Symbol(number) => Ok(Value::Text(Text::of(alloc, table.name_of(number))?)),
        Content::Text(text) => Ok(Value::Text(Text::of(alloc, text)?)),
        Content::List(cells) => Ok(Value::List(items_of(alloc, cells, table)?)),
        Content::Struct(pairs) => Ok(Value::Struct(pairs_of(alloc, pairs, table)?)),
    }
}

/// The values of the cells.
#[cycle(value_of)]
fn items_of(alloc: Global, cells: Cells<'_>, table: &SymTab<'_>) -> Result<Items, OutOfMemory>
    requires { HasLast table.now (items_last cells) }
    ensures { IfOk result (λ vs. vs ≡ values_left table.now cells.entry) }
{
    let mut items = Items::new(alloc);
    for cell in cells {
        items.push(value_of(alloc, &cell, table)?)?;
    }
    Ok(items)
}

/// The names and values of the pairs.
#[cycle(value_of)]
fn pairs_of(alloc: Global, fields: Fields<'_>, table: &SymTab<'_>) -> Result<Pairs, OutOfMemory>
    requires { HasLast table.now (fields_last fields) }
    ensures { IfOk result (λ fs. fs ≡ pairs_left table.now fields.entry) }
{
    table.know();
    let mut pairs = Pairs::new(alloc);
    for (label, cell) in fields {
        let name = match table.text_of(label) {
            Some(text) => Text::of(alloc, text)?,
            None => unreachable!(),
        };
        let value = value_of(alloc, &cell, table)?;
        pairs.push(name, value)?;
    }
    Ok(pairs)
}
