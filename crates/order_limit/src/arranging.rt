//! Rows sorted by their keys, and cut.
ghost use Rattle.std.specs.Prelude.{◌≡◌, drop, IfOk, OnOk, IsPermutation};
ghost use Rattle.std.specs.List.Sorted.{IsSortedBy};
ghost use Rattle.std.specs.Ordering.{is_lt};
ghost use Rattle.answer_meaning.specs.Answers.{limited};
ghost use Rattle.order_limit.specs.Arranged.{AreKeyed, IsArranged};
ghost use Rattle.order_limit.specs.Padded.{padded_cmp};

use crate::compare::compare_keys;
use crate::moving::{to_rows, to_vec};
use snel_values::{MadeRow, MadeRows, OutOfMemory};
use std::alloc::Global;
use std::cmp::Ordering;

/// The rows sorted by their keys, of which those flagged in `falling` fall (DESC), less the first `skip` many (OFFSET), and then
/// at most `take` many (LIMIT). Each row has as many keys as there are flags. Keys are compared as values; rows of equal keys
/// come in any order. It fails for want of memory alone.
pub fn arrange(
    alloc: Global,
    rows: MadeRows,
    falling: &[bool],
    skip: u64,
    take: Option<u64>,
) -> Result<MadeRows, OutOfMemory>
    requires { AreKeyed falling.now rows }
    ensures { IfOk result (λ cut. IsArranged falling.now skip take rows cut) }
{
    let mut all = to_vec(alloc, rows)?;
    sort_rows(falling, &mut all)?;
    let mut kept = skip_rows(&mut all, skip)?;
    limit_rows(&mut kept, take);
    let cut = to_rows(alloc, kept)?;
    Ok(cut)
}

/// Sorts rows by their keys.
pub(crate) fn sort_rows(falling: &[bool], all: &mut Vec<MadeRow>) -> Result<(), OutOfMemory>
    ensures permutation { IsPermutation all.old.items all.new.items }
    ensures sorted { OnOk result
        (IsSortedBy (λ x y. is_lt (padded_cmp falling.now x.keys y.keys)) all.new.items) }
{
    all.sort_by(
        |a: &MadeRow, b: &MadeRow| -> Ordering
            ensures { result ≡ padded_cmp falling.entry.now a.now.keys b.now.keys }
        { compare_keys(falling, &a.keys, &b.keys) },
    )?;
    Ok(())
}

/// The rows from place `skip` on, counted from 0.
pub(crate) fn skip_rows(all: &mut Vec<MadeRow>, skip: u64) -> Result<Vec<MadeRow>, OutOfMemory>
    ensures { IfOk result (λ kept. kept.items ≡ drop skip all.old.items) }
{
    let from = skip.min(all.len() as u64) as usize;
    Ok(all.split_off(from)?)
}

/// Keeps at most so many rows.
pub(crate) fn limit_rows(kept: &mut Vec<MadeRow>, most: Option<u64>)
    ensures { kept.new.items ≡ limited most kept.old.items }
{
    if let Some(most) = most {
        kept.truncate(most.min(kept.len() as u64) as usize);
    }
}
