//! The line of a group.

ghost use Rattle.std.specs.Prelude.{◌≡◌, ◌<◌, ◌+◌, ◌∷◌, ◌++◌, [], ℕ, List, Option, Some, All, length, map, slice_get, IfOk, OnOk};
ghost use Rattle.std.specs.List.{filter};
ghost use Rattle.tree_meaning.specs.Tree.{Ex, named};
ghost use Rattle.answer_meaning.specs.Made.{Output};
ghost use Rattle.answer_meaning.specs.Lines.{line_text};
ghost use Rattle.made_meaning.specs.MadeRows.{named_value, has_value, output_by};
ghost use Rattle.json_out.specs.Begun.{begun};
ghost use Rattle.hash_agg.specs.Finished.{row_view};
ghost use Rattle.group_out.specs.Summaries.{IsPrintableRow};
ghost use Rattle.group_out.specs.Values.{value_of_row};

use crate::values::value_over;
use hash_agg::GroupRow;
use json_out::LineMaker;
use query_check::Checked;
use query_tree::{OutItems, Outputs};
use snel_values::{Bytes, OutOfMemory};
use std::alloc::Global;

/// The line of the group: each output's name and value, less those that are MISSING. A group has no output for `*`.
pub(crate) fn line_over(
    alloc: Global,
    checked: &Checked,
    row: &GroupRow,
) -> Result<Bytes, OutOfMemory>
    requires { IsPrintableRow (row_view row.now) }
    ensures { IfOk result (λ line. line ≡
        line_text (output_by (value_of_row checked.now (row_view row.now)) [] checked.now.outs)) }
{
    match &checked.query().outputs {
        Outputs::Star => LineMaker::new(alloc)?.finish(),
        Outputs::Named(items) => named_line(alloc, checked, row, items),
    }
}

/// The line of the outputs of a query that aren't `*`.
fn named_line(
    alloc: Global,
    checked: &Checked,
    row: &GroupRow,
    items: &OutItems,
) -> Result<Bytes, OutOfMemory>
    requires printable { IsPrintableRow (row_view row.now) }
    requires outputs { checked.now.outs ≡ named items.now }
    ensures { IfOk result (λ line. line ≡ line_text
        (output_by (value_of_row checked.now (row_view row.now)) [] (named items.now))) }
{
    let mut line = LineMaker::new(alloc)?;
    for at in 0..items.len() {
        put_output(alloc, checked, row, items, at, &mut line)?;
    }
    line.finish()
}

/// Adds the name and the value of the output at a place, counted from 0, unless the value is MISSING.
fn put_output(
    alloc: Global,
    checked: &Checked,
    row: &GroupRow,
    items: &OutItems,
    at: usize,
    line: &mut LineMaker,
) -> Result<(), OutOfMemory>
    requires printable { IsPrintableRow (row_view row.now) }
    requires outputs { checked.now.outs ≡ named items.now }
    requires there { at < length items.now }
    ensures { (before : Output) (item : Ex × Option (List ℕ)) → line.old ≡ begun before
        → slice_get items.now at ≡ Some item
        → OnOk result (line.new ≡ begun (before ++ filter has_value
        (named_value (value_of_row checked.now (row_view row.now)) (at + 1, item) ∷ []))) }
{
    checked.know();
    let Some(item) = items.get(at) else {
        unreachable!();
    };
    let Some(name) = checked.names().get(at) else {
        unreachable!();
    };
    let value = value_over(alloc, checked, row, &item.expr)?;
    line.put_value(name.as_str(), &value)
}
