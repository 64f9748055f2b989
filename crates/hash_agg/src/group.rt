ghost use Rattle.std.specs.Prelude.{◌≡◌, ◌^◌, ◌-◌, length, map, IfOk, [], MatchOption, None, ◌<◌};
ghost use Rattle.hash_agg.specs.Groups.{joined_all, partials_of};
ghost use Rattle.agg_laws.specs.Parts.{part_name, part_kept};
ghost use Rattle.hash_agg.specs.Items.{alone_all, EachHasRoom, EachTwoHaveRoom};
ghost use Rattle.hash_agg.specs.Entries.{entry_of, names_of, with_row, with_group};

use crate::keys::RowKeys;
use agg_laws::{AnyPart, Seen};
use snel_values::{Items, OutOfMemory};
use std::alloc::Global;
use tree_meaning::AggName;

/// A group: its key list and the partial of each aggregate.
#[derive(Drop)]
pub struct Group {
    pub keys: Items,
    pub parts: Vec<AnyPart>,
}

impl Group {
    /// The group of one row.
    pub fn of<K: RowKeys>(
        alloc: Global,
        aggs: &[AggName],
        keys: &K,
        items: &[Seen],
    ) -> Result<Group, OutOfMemory>
        requires { length items.now ≡ length aggs.now }
        ensures names { IfOk result (λ g. names_of g ≡ aggs.now) }
        ensures entry { IfOk result (λ g. entry_of g ≡ (K.values keys.now, alone_all aggs.now items.now)) }
    {
        let mut group = Group {
            keys: keys.build(alloc)?,
            parts: no_parts(alloc, aggs)?,
        };
        group.add(items);
        Ok(group)
    }

    /// Adds a row.
    pub fn add(&mut self, items: &[Seen])
        requires one_each { length items.now ≡ length (names_of self.old) }
        requires room { EachHasRoom (names_of self.old) (entry_of self.old).1 }
        ensures names { names_of self.new ≡ names_of self.old }
        ensures entry { entry_of self.new ≡ with_row self.old items.now }
    {
        add_each(self.parts.as_mut_slice(), items);
    }
}

impl Group {
    /// Joins the partials of another group.
    pub fn merge(&mut self, other: &Group)
        requires names { names_of self.old ≡ names_of other.now }
        requires room { EachTwoHaveRoom (names_of self.old) (entry_of self.old).1 (entry_of other.now).1 }
        ensures names { names_of self.new ≡ names_of self.old }
        ensures entry { entry_of self.new ≡ with_group self.old other.now }
    {
        merge_each(self.parts.as_mut_slice(), other.parts.as_slice());
    }
}

/// Joins to each partial the other of its aggregate.
fn merge_each(parts: &mut [AnyPart], more: &[AnyPart])
    requires names { map part_name parts.old ≡ map part_name more.now }
    requires room { EachTwoHaveRoom (map part_name parts.old) (map part_kept parts.old) (map part_kept more.now) }
    ensures names { map part_name parts.new ≡ map part_name parts.old }
    ensures states { map part_kept parts.new ≡ joined_all (map part_name parts.old) (map part_kept parts.old) (map part_kept more.now) }
{
    for i in 0..parts.len() {
        parts[i].merge(&more[i]);
    }
}

/// The partials of no rows.
pub fn no_parts(alloc: Global, aggs: &[AggName]) -> Result<Vec<AnyPart>, OutOfMemory>
    ensures names { IfOk result (λ parts. map part_name parts.items ≡ aggs.now) }
    ensures states { IfOk result (λ parts. map part_kept parts.items ≡ partials_of aggs.now []) }
{
    let mut parts = Vec::new(alloc);
    for agg in aggs {
        parts.push(AnyPart::empty(*agg))?;
    }
    Ok(parts)
}

/// Adds to each partial its item.
pub fn add_each(parts: &mut [AnyPart], items: &[Seen])
    requires one_each { length items.now ≡ length parts.old }
    requires room { EachHasRoom (map part_name parts.old) (map part_kept parts.old) }
    ensures names { map part_name parts.new ≡ map part_name parts.old }
    ensures states { map part_kept parts.new ≡ joined_all (map part_name parts.old) (map part_kept parts.old) (alone_all (map part_name parts.old) items.now) }
{
    for i in 0..parts.len() {
        parts[i].add(items[i]);
    }
}
