ghost use Rattle.std.specs.Prelude.{◌≡◌, ◌∷◌, ◌++◌, [], map, length, slice_get, IfOk, OnOk, OnErr};
ghost use Rattle.std.specs.Option.{option_map};
ghost use Rattle.hash_agg.specs.Groups.{aggregates_of, values_of};
ghost use Rattle.agg_laws.specs.Parts.{part_name, part_kept};
ghost use Rattle.hash_agg.specs.Finished.{row_view, finished_row};

use crate::group::{Group, no_parts};
use agg_laws::AnyPart;
use snel_values::{Items, OutOfMemory};
use std::alloc::Global;
use std::marker::Model;
use tree_meaning::AggName;

/// A group's key list and the value of each aggregate over it.
#[derive(Drop)]
pub struct GroupRow {
    pub keys: Items,
    pub aggs: Items,
}

/// Groups' rows, seen as the list of their key lists and values.
#[derive(Drop)]
pub struct GroupRows {
    all: Vec<GroupRow>,
}

impl Model for GroupRows {
    ghost use Rattle.std.specs.Prelude.{List, map};
    ghost use Rattle.value_meaning.specs.Val.{Val};
    ghost use Rattle.value_meaning.specs.Code.{coded_val};
    ghost use Rattle.std.specs.Coded.{coded_list, coded×};

    ghost Value = { List (List Val × List Val) };

    ghost coded = { coded_list (coded× (coded_list coded_val) (coded_list coded_val)) };

    ghost use Rattle.hash_agg.specs.Finished.{row_view};

    ghost view = { λ r. map row_view r.all.items };
}

impl GroupRows {
    /// No rows.
    pub fn new(alloc: Global) -> GroupRows
        ensures { result ≡ [] }
    {
        GroupRows {
            all: Vec::new(alloc),
        }
    }

    /// Adds a row at the end.
    pub fn push(&mut self, row: GroupRow) -> Result<(), OutOfMemory>
        ensures ok { OnOk result (self.new ≡ self.old ++ row_view row ∷ []) }
        ensures err { OnErr result (self.new ≡ self.old) }
    {
        self.all.push(row)?;
        Ok(())
    }

    /// The row at a place, counted from 0.
    pub fn get(&self, at: usize) -> Option<&GroupRow>
        ensures { option_map (λ r. row_view r.now) result ≡ slice_get self.now at }
    {
        self.all.get(at)
    }

    /// How many rows there are.
    pub fn len(&self) -> usize
        ensures { result ≡ length self.now }
    {
        self.all.len()
    }
}

/// The value of each aggregate.
pub fn values(alloc: Global, parts: &[AnyPart]) -> Result<Items, OutOfMemory>
    ensures { IfOk result (λ vs. vs ≡ values_of (map part_name parts.now) (map part_kept parts.now)) }
{
    let mut items = Items::new(alloc);
    for i in 0..parts.len() {
        items.push(parts[i].finish())?;
    }
    Ok(items)
}

/// The rows of groups, in order.
pub fn finished(alloc: Global, all: Vec<Group>) -> Result<GroupRows, OutOfMemory>
    ensures { IfOk result (λ rows. rows ≡ map finished_row all.items) }
{
    let mut rows = GroupRows::new(alloc);
    for group in all {
        let aggs = values(alloc, group.parts.as_slice())?;
        rows.push(GroupRow {
            keys: group.keys,
            aggs,
        })?;
    }
    Ok(rows)
}

/// The row of no rows: no keys, and each aggregate over nothing.
pub fn empty_row(alloc: Global, aggs: &[AggName]) -> Result<GroupRow, OutOfMemory>
    ensures { IfOk result (λ r. row_view r ≡ ([], aggregates_of aggs.now [])) }
{
    let parts = no_parts(alloc, aggs)?;
    let aggs = values(alloc, parts.as_slice())?;
    Ok(GroupRow {
        keys: Items::new(alloc),
        aggs,
    })
}
