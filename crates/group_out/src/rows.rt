//! The rows that a query makes of groups.

ghost use Rattle.std.specs.Prelude.{◌≡◌, ◌++◌, List, All, IfOk, OnOk};
ghost use Rattle.std.specs.Option.{option_map};
ghost use Rattle.made_meaning.specs.OverGroups.{Group};
ghost use Rattle.snel_values.specs.Made.{row_view as made_view};
ghost use Rattle.hash_agg.specs.Finished.{row_view};
ghost use Rattle.group_out.specs.Summaries.{Summarizes, AreSummaries, IsPrintableRow};
ghost use Rattle.group_out.specs.Rows.{row_of_group, rows_of_groups};
ghost use Rattle.group_out.specs.Values.{made_of_row, made_of_rows, listed};

use crate::lines::line_over;
use crate::values::{is_kept, sort_keys};
use hash_agg::{GroupRow, GroupRows};
use query_check::Checked;
use snel_values::{MadeRow, MadeRows, OutOfMemory};
use std::alloc::Global;

/// The sort keys and the line that the query makes of each group that HAVING keeps, from the groups' rows, in order.
pub fn made_of_groups(
    alloc: Global,
    checked: &Checked,
    rows: &GroupRows,
) -> Result<MadeRows, OutOfMemory>
    requires { All IsPrintableRow rows.now }
    ensures of_groups { (groups : List Group) → AreSummaries checked.now groups rows.now
        → IfOk result (λ made. made ≡ rows_of_groups checked.now groups) }
    ensures of_rows { IfOk result (λ made. made ≡ made_of_rows checked.now rows.now) }
{
    let mut made = MadeRows::new(alloc);
    for at in 0..rows.len() {
        let Some(row) = rows.get(at) else {
            unreachable!();
        };
        add_made(alloc, checked, row, &mut made)?;
    }
    Ok(made)
}

/// The sort keys and the line that the query makes of a group, from the group's row, and none where HAVING isn't true.
pub fn out_of(
    alloc: Global,
    checked: &Checked,
    row: &GroupRow,
) -> Result<Option<MadeRow>, OutOfMemory>
    requires { IsPrintableRow (row_view row.now) }
    ensures { (group : Group) → Summarizes checked.now group (row_view row.now)
        → IfOk result (λ made. option_map made_view made ≡ row_of_group checked.now group) }
{
    made_of(alloc, checked, row)
}

/// What the query makes of a group's row.
fn made_of(alloc: Global, checked: &Checked, row: &GroupRow) -> Result<Option<MadeRow>, OutOfMemory>
    requires { IsPrintableRow (row_view row.now) }
    ensures { IfOk result (λ made.
        option_map made_view made ≡ made_of_row checked.now (row_view row.now)) }
{
    if !is_kept(alloc, checked, row)? {
        return Ok(None);
    }
    let keys = sort_keys(alloc, checked, row)?;
    let line = line_over(alloc, checked, row)?;
    Ok(Some(MadeRow { keys, line }))
}

/// Adds what the query makes of a group's row, if it makes any.
fn add_made(
    alloc: Global,
    checked: &Checked,
    row: &GroupRow,
    made: &mut MadeRows,
) -> Result<(), OutOfMemory>
    requires { IsPrintableRow (row_view row.now) }
    ensures { OnOk result (made.new ≡
        made.old ++ listed (made_of_row checked.now (row_view row.now))) }
{
    match made_of(alloc, checked, row)? {
        Some(row) => made.push(row),
        None => Ok(()),
    }
}
