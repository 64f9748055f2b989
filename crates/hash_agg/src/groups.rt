ghost use Rattle.std.specs.Prelude.{◌≡◌, ◌<◌, ◌≤◌, ◌^◌, ◌-◌, ◌↔◌, [], List, Some, None, Err, length, map, IfOk, OnOk, OnErr, MatchOption, slice_index_or, ◌+◌, All, vec_len, vec_capacity};
ghost use Rattle.value_meaning.specs.Val.{Val};
ghost use Rattle.agg_meaning.specs.Partials.{Partial};
ghost use Rattle.hash_agg.specs.Groups.{Entry, partials_at, merged_at, AreApart};
ghost use Rattle.hash_agg.specs.Items.{alone_all, EachHasRoom, EachTwoHaveRoom};
ghost use Rattle.hash_agg.specs.Covers.{Covers};
ghost use Rattle.hash_agg.specs.Adds.{TwoHaveRoom};
ghost use Rattle.hash_agg.specs.Finished.{row_of};
ghost use Rattle.hash_agg.specs.Entries.{entry_of, names_of};
ghost use Rattle.hash_agg.specs.declared.fault.GroupFault.TheVariants.{Over};
ghost use Rattle.hash_agg.specs.Adds.{Joins, only_at, count_new, one_if_none};

use crate::fault::GroupFault;
use crate::finish::{GroupRows, finished};
use crate::group::Group;
use crate::index::Index;
use crate::keys::RowKeys;
use agg_laws::Seen;
use snel_values::OutOfMemory;
use std::alloc::Global;
use std::hash::DefaultHasher;
use std::marker::Model;
use tree_meaning::AggName;

/// Groups of rows by their key lists, at most as many as the limit, each with the partial of each aggregate.
#[derive(Drop)]
pub struct Groups {
    alloc: Global,
    aggs: Vec<AggName>,
    limit: u32,
    all: Vec<Group>,
    index: Index,
}

impl Model for Groups {
    ghost use Rattle.std.specs.Prelude.{◌≡◌, ◌≤◌, length, map, All};
    ghost use Rattle.hash_agg.specs.Groups.{AreApart};
    ghost use Rattle.hash_agg.specs.Entries.{entry_of, names_of};
    ghost use Rattle.hash_agg.specs.Covers.{Covers};
    ghost use Rattle.hash_agg.specs.Held.{Held};
    ghost use Rattle.value_meaning.specs.Code.{coded_val};
    ghost use Rattle.std.specs.Coded.{codes};

    ghost Value = { Held };

    ghost coded = { Prim.hlevel (codes, coded_val) };

    ghost view = { λ g. record { names = g.aggs.items; limit = g.limit; entries = map entry_of g.all.items } };

    ghost invariant = { λ g. AreApart (map entry_of g.all.items) × All (λ x. names_of x ≡ g.aggs.items) g.all.items × (length g.all.items ≤ g.limit) × Covers g.index (map entry_of g.all.items) };
}

/// 1 where the group's key list isn't there, else 0.
fn one_if_new(index: &Index, all: &[Group], group: &Group) -> usize
    requires apart { AreApart (map entry_of all.now) }
    requires covers { Covers index.now (map entry_of all.now) }
    ensures { result ≡ one_if_none (partials_at group.now.keys (map entry_of all.now)) }
{
    match index.find(all, &group.keys) {
        Some(_) => 0,
        None => 1,
    }
}

/// How many of the groups have a key list that isn't there.
fn new_in(index: &Index, all: &[Group], more: &[Group]) -> usize
    requires apart { AreApart (map entry_of all.now) }
    requires covers { Covers index.now (map entry_of all.now) }
    ensures { result ≡ count_new (map entry_of all.now) (map entry_of more.now) }
{
    let mut count: usize = 0;
    for i in 0..more.len() {
        count += one_if_new(index, all, &more[i]);
    }
    count
}

/// Joins a group to that of its key list, or adds it.
fn join_one(alloc: Global, index: &mut Index, all: &mut Vec<Group>, group: Group)
    requires covers { Covers index.old (map entry_of all.old.items) }
    requires free { vec_len all.old < vec_capacity all.old }
    requires apart { AreApart (map entry_of all.old.items) }
    requires named { All (λ x. names_of x ≡ names_of group) all.old.items }
    requires room { (ss : List Partial) → partials_at group.keys (map entry_of all.old.items) ≡ Some ss → EachTwoHaveRoom (names_of group) ss (entry_of group).1 }
    ensures covers { Covers index.new (map entry_of all.new.items) }
    ensures capacity { vec_capacity all.old ≤ vec_capacity all.new }
    ensures len { vec_len all.new ≡ vec_len all.old + one_if_none (partials_at group.keys (map entry_of all.old.items)) }
    ensures apart { AreApart (map entry_of all.new.items) }
    ensures named { All (λ x. names_of x ≡ names_of group) all.new.items }
    ensures joins { (ls : List Val) → partials_at ls (map entry_of all.new.items) ≡ merged_at (names_of group) (partials_at ls (map entry_of all.old.items)) (only_at group.keys (entry_of group).1 ls) }
{
    match index.find(all.as_slice(), &group.keys) {
        Some(at) => all[at].merge(&group),
        None => match all.push(group) {
            Ok(()) => index.cover(alloc, all.as_slice()),
            Err(_) => unreachable!(),
        },
    }
}

/// Joins groups of the same aggregates.
fn join_all(
    alloc: Global,
    aggs: &[AggName],
    index: &mut Index,
    all: &mut Vec<Group>,
    mut more: Vec<Group>,
)
    requires covers { Covers index.old (map entry_of all.old.items) }
    requires free { vec_len all.old + vec_len more ≤ vec_capacity all.old }
    requires apart { AreApart (map entry_of all.old.items) }
    requires named { All (λ x. names_of x ≡ aggs.now) all.old.items }
    requires more_apart { AreApart (map entry_of more.items) }
    requires more_named { All (λ x. names_of x ≡ aggs.now) more.items }
    requires room { TwoHaveRoom aggs.now (map entry_of all.old.items) (map entry_of more.items) }
    ensures covers { Covers index.new (map entry_of all.new.items) }
    ensures len { vec_len all.new ≡ vec_len all.old + count_new (map entry_of all.old.items) (map entry_of more.items) }
    ensures apart { AreApart (map entry_of all.new.items) }
    ensures named { All (λ x. names_of x ≡ aggs.now) all.new.items }
    ensures joins { (ls : List Val) → partials_at ls (map entry_of all.new.items) ≡ merged_at aggs.now (partials_at ls (map entry_of all.old.items)) (partials_at ls (map entry_of more.items)) }
{
    let _ = aggs;
    while let Some(group) = more.pop() {
        join_one(alloc, index, all, group);
    }
}

impl Groups {
    /// No groups.
    pub fn new(
        alloc: Global,
        aggs: &[AggName],
        limit: u32,
        seed: DefaultHasher,
    ) -> Result<Groups, OutOfMemory>
        ensures { IfOk result (λ g. g ≡ record { names = aggs.now; limit = limit; entries = [] }) }
    {
        let mut copied = Vec::new(alloc);
        copied.extend_from_slice(aggs)?;
        Ok(Groups {
            alloc,
            aggs: copied,
            limit,
            all: Vec::new(alloc),
            index: Index::new(alloc, seed),
        })
    }

    /// No groups, of the same aggregates and with the same limit.
    pub fn fresh(&self) -> Result<Groups, OutOfMemory>
        ensures { IfOk result (λ g. g ≡ record { names = self.now.names; limit = self.now.limit; entries = [] }) }
    {
        Groups::new(
            self.alloc,
            self.aggs.as_slice(),
            self.limit,
            self.index.seed(),
        )
    }

    /// Adds a row to the group of its key list: one item for each aggregate.
    pub fn add<K: RowKeys>(&mut self, keys: &K, items: &[Seen]) -> Result<(), GroupFault>
        requires one_each { length items.now ≡ length self.old.names }
        requires room { (ss : List Partial) → partials_at (K.values keys.now) self.old.entries ≡ Some ss → EachHasRoom self.old.names ss }
        ensures ok { OnOk result (Joins (only_at (K.values keys.now) (alone_all self.old.names items.now)) self.old self.new) }
        ensures over { (result ≡ Err Over) ↔ (partials_at (K.values keys.now) self.old.entries ≡ None) × (self.old.limit ≤ length self.old.entries) }
        ensures err { OnErr result (self.new ≡ self.old) }
    {
        match self.index.find(self.all.as_slice(), keys) {
            Some(at) => {
                self.all[at].add(items);
                Ok(())
            }
            None => {
                if self.all.len() >= self.limit as usize {
                    return Err(GroupFault::Over);
                }
                let group = Group::of(self.alloc, self.aggs.as_slice(), keys, items)?;
                let Ok(()) = self.all.push(group) else {
                    return Err(GroupFault::OutOfMemory);
                };
                self.index.cover(self.alloc, self.all.as_slice());
                Ok(())
            }
        }
    }

    /// Joins other groups of the same aggregates.
    pub fn merge(&mut self, other: Groups) -> Result<(), GroupFault>
        requires names { self.old.names ≡ other.names }
        requires room { TwoHaveRoom self.old.names self.old.entries other.entries }
        ensures ok { OnOk result (Joins (λ ks. partials_at ks other.entries) self.old self.new) }
        ensures over { (result ≡ Err Over) ↔ (self.old.limit < length self.old.entries + count_new self.old.entries other.entries) }
        ensures err { OnErr result (self.new ≡ self.old) }
    {
        let fresh = new_in(&self.index, self.all.as_slice(), other.all.as_slice());
        if fresh > self.limit as usize - self.all.len() {
            return Err(GroupFault::Over);
        }
        let Ok(()) = self.all.reserve(other.all.len()) else {
            return Err(GroupFault::OutOfMemory);
        };
        join_all(
            self.alloc,
            self.aggs.as_slice(),
            &mut self.index,
            &mut self.all,
            other.all,
        );
        Ok(())
    }

    /// The row of each group: its key list and the values of its aggregates.
    pub fn finish(self) -> Result<GroupRows, OutOfMemory>
        ensures { IfOk result (λ rows. rows ≡ map (row_of self.names) self.entries) }
    {
        let rows = finished(self.alloc, self.all)?;
        Ok(rows)
    }

    /// Tells what holds of all groups.
    pub fn know(&self)
        ensures apart { AreApart self.now.entries }
        ensures few { length self.now.entries ≤ self.now.limit }
    {
        let _limit = self.limit;
    }

    /// How many groups there are.
    pub fn len(&self) -> u32
        ensures { result ≡ length self.now.entries }
    {
        let _limit = self.limit;
        self.all.len() as u32
    }
}
