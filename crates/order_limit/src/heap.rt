//! Rows as a heap, in which no row comes before one of its children: the last row by the sort keys stands first.
ghost use Rattle.std.specs.Prelude.{◌≡◌, ◌/◌, ◌<◌, ◌++◌, List, not, length, map, slice_index_or, OnOk, OnErr, IsPermutation};
ghost use Rattle.std.specs.List.Sorted.{IsSortedBy};
ghost use Rattle.std.specs.Ordering.{is_lt};
ghost use Rattle.snel_values.specs.Made.{row_view};
ghost use Rattle.order_limit.specs.Arranged.{Row, AreKeyed};
ghost use Rattle.order_limit.specs.Padded.{padded_cmp};
ghost use Rattle.order_limit.specs.Top.{StandsFor};
ghost use Rattle.order_limit.specs.Heaps.{row_before, IsHeap, IsHeapBut, IsKept, IsLastChild, Adds, top_of};

use crate::compare::compare_keys;
use snel_values::{Items, MadeRow, OutOfMemory};
use std::cmp::Ordering;

/// Adds a row to the first rows, of which at most so many are held: where there is no room, the last of them is dropped for it,
/// or the row itself.
pub(crate) fn add_row(
    falling: &[bool],
    most: usize,
    rows: &mut Vec<MadeRow>,
    row: MadeRow,
) -> Result<(), OutOfMemory>
    requires kept { IsKept falling.now most rows.old.items }
    ensures kept { OnOk result (IsKept falling.now most rows.new.items) }
    ensures adds { OnOk result
        (Adds (row_before falling.now) most rows.old.items row rows.new.items) }
    ensures err { OnErr result (rows.new.items ≡ rows.old.items) }
{
    if most == 0 {
        return Ok(());
    }
    if rows.len() < most {
        return fill_row(falling, most, rows, row);
    }
    replace_row(falling, most, rows, row);
    Ok(())
}

/// Adds rows one after the other.
pub(crate) fn add_rows(
    falling: &[bool],
    most: usize,
    rows: &mut Vec<MadeRow>,
    others: Vec<MadeRow>,
) -> Result<(), OutOfMemory>
    requires kept { IsKept falling.now most rows.old.items }
    ensures kept { IsKept falling.now most rows.new.items }
    ensures stands { OnOk result ((all : List Row) → StandsFor (top_of falling.now most rows.old.items) all
        → AreKeyed falling.now (map row_view others.items)
        → StandsFor (top_of falling.now most rows.new.items) (all ++ map row_view others.items)) }
{
    for row in others {
        match add_row(falling, most, rows, row) {
            Ok(()) => {}
            Err(OutOfMemory) => return Err(OutOfMemory),
        }
    }
    Ok(())
}

/// Whether a row with these keys is dropped where it is added.
pub(crate) fn is_last(falling: &[bool], rows: &[MadeRow], keys: &Items) -> bool
    requires some { 0 < length rows.now }
    ensures { (d : MadeRow)
        → result ≡ not (is_lt (padded_cmp falling.now keys.now (slice_index_or rows.now 0 d).keys)) }
{
    let first = &rows[0];
    !compare_keys(falling, keys, &first.keys).is_lt()
}

/// Adds a row where there is room.
fn fill_row(
    falling: &[bool],
    most: usize,
    rows: &mut Vec<MadeRow>,
    row: MadeRow,
) -> Result<(), OutOfMemory>
    requires room { length rows.old.items < most }
    ensures kept { OnOk result (IsKept falling.now most rows.new.items) }
    ensures adds { OnOk result
        (Adds (row_before falling.now) most rows.old.items row rows.new.items) }
    ensures err { OnErr result (rows.new.items ≡ rows.old.items) }
{
    let Ok(()) = rows.push(row) else {
        return Err(OutOfMemory);
    };
    if rows.len() == most {
        sort_last_first(falling, rows);
    }
    Ok(())
}

/// Puts a row in the place of the last one, if it comes before that.
fn replace_row(falling: &[bool], most: usize, rows: &mut Vec<MadeRow>, row: MadeRow)
    requires some { 0 < length rows.old.items }
    requires full { length rows.old.items ≡ most }
    requires heap { IsHeap (row_before falling.now) rows.old.items }
    ensures kept { IsKept falling.now most rows.new.items }
    ensures adds { Adds (row_before falling.now) most rows.old.items row rows.new.items }
{
    if is_last(falling, rows.as_slice(), &row.keys) {
        return;
    }
    rows[0] = row;
    sink_first(falling, rows);
}

/// Sorts rows by their keys, the last one first.
fn sort_last_first(falling: &[bool], rows: &mut Vec<MadeRow>)
    ensures permutation { IsPermutation rows.old.items rows.new.items }
    ensures sorted { IsSortedBy (λ x y. row_before falling.now y x) rows.new.items }
{
    rows.sort_unstable_by(
        |a: &MadeRow, b: &MadeRow| -> Ordering
            ensures { result ≡ padded_cmp falling.entry.now b.now.keys a.now.keys }
        { compare_keys(falling, &b.keys, &a.keys) },
    );
}

/// Moves the first row down, until it comes before none of its children.
fn sink_first(falling: &[bool], rows: &mut Vec<MadeRow>)
    requires { IsHeapBut (row_before falling.now) rows.old.items 0 }
    ensures permutation { IsPermutation rows.old.items rows.new.items }
    ensures heap { IsHeap (row_before falling.now) rows.new.items }
{
    let mut at = 0;
    while at < rows.len() / 2 {
        let child = last_child(falling, rows.as_slice(), at);
        if !is_before(falling, rows.as_slice(), at, child) {
            return;
        }
        rows.swap(at, child);
        at = child;
    }
}

/// The child of the row at a place before which the other one, if there is one, comes.
fn last_child(falling: &[bool], rows: &[MadeRow], at: usize) -> usize
    requires { at < length rows.now / 2 }
    ensures { IsLastChild (row_before falling.now) rows.now at result }
{
    let left = at * 2 + 1;
    let right = left + 1;
    if right >= rows.len() {
        return left;
    }
    if is_before(falling, rows, left, right) {
        return right;
    }
    left
}

/// Whether the row at one place comes before that at another.
fn is_before(falling: &[bool], rows: &[MadeRow], a: usize, b: usize) -> bool
    requires a { a < length rows.now }
    requires b { b < length rows.now }
    ensures { (d : MadeRow) → result
        ≡ row_before falling.now (slice_index_or rows.now a d) (slice_index_or rows.now b d) }
{
    let x = &rows[a];
    let y = &rows[b];
    compare_keys(falling, &x.keys, &y.keys).is_lt()
}
