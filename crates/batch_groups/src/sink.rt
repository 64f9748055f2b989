//! The groups of the rows that pass.

ghost use Rattle.std.specs.Prelude.{◌≡◌, List, true, map, All, IfOk, IfSome};
ghost use Rattle.value_meaning.specs.Val.{Val};
ghost use Rattle.hash_agg.specs.Groups.{Keyed};
ghost use Rattle.batch_groups.specs.Gathered.{Gathered, StandFor, Grew, IsEmptyFor};
ghost use Rattle.batch_groups.specs.OfQuery.{FinishesAs, MakesGroups, with_empty_row};
ghost use Rattle.tree_meaning.specs.Tree.{Query};
ghost use Rattle.check_meaning.specs.Aggregates.{is_grouped};
ghost use Rattle.program_meaning.specs.Simulation.{Simulates};
ghost use Rattle.block_lines.specs.RowLines.{kept_rows};
ghost use Rattle.worker_merge.specs.Growing.{GrewSomehow};
ghost use Rattle.group_out.specs.Summaries.{IsPrintableRow};

use crate::adding::add_lane;
use crate::joining::join_groups;
use crate::operands::see_operands;
use agg_laws::Seen;
use block_file::Block;
use block_lines::{LineHeads, RowSink};
use hash_agg::{GroupRows, Groups, empty_row};
use lane_ssa::{EndAggs, Frame, Job};
use snel_values::OutOfMemory;
use std::alloc::Global;
use std::hash::DefaultHasher;
use std::marker::Model;
use tree_meaning::AggName;
use worker_merge::SharedSink;

/// As many rows as a sink takes: 2^45. A query covers fewer.
pub(crate) const MOST_ROWS: u64 = 35_184_372_088_832;

/// The groups of the rows that were taken, at most as many as a limit. Once there would be more, which it remembers, it adds
/// nothing any more.
#[derive(Drop)]
pub struct GroupSink {
    groups: Groups,
    shown: Vec<Seen>,
    count: u64,
    over: bool,
}

impl Model for GroupSink {
    ghost use Rattle.hash_agg.specs.Held.{Held};
    ghost use Rattle.batch_groups.specs.Gathered.{Gathered, AreOf};
    ghost use Rattle.value_meaning.specs.Code.{coded_val};
    ghost use Rattle.std.specs.Coded.{codes};

    ghost Value = { Gathered };

    ghost coded = { Prim.hlevel (codes, coded_val) };

    ghost view = { λ s. record { groups = s.groups; over = s.over } };

    ghost invariant = { λ s. AreOf s.groups s.count };
}

impl GroupSink {
    /// No groups of the job's aggregates, and at most so many later. Their keys are found by hashes that begin with the seed.
    pub fn new(
        alloc: Global,
        job: &Job,
        limit: u32,
        seed: DefaultHasher,
    ) -> Result<GroupSink, OutOfMemory>
        ensures empty { IfOk result (λ s. IsEmptyFor job.now s) }
        ensures limit { IfOk result (λ s. s.groups.limit ≡ limit) }
    {
        let names = names_of(alloc, &job.ends().aggs)?;
        Ok(GroupSink {
            groups: Groups::new(alloc, names.as_slice(), limit, seed)?,
            shown: Vec::new(alloc),
            count: 0,
            over: false,
        })
    }

    /// The rows of the groups, in some order, or nothing where there were more groups than the limit. Each row has the values of
    /// a group's keys, and those of the aggregates over it. Without GROUP BY there is one group, also of no rows.
    pub fn finish(self, alloc: Global, job: &Job) -> Result<Option<GroupRows>, OutOfMemory>
        ensures rows { (q : Query) (empty : Gathered) (rows : List Val) → Simulates job.now q
            → is_grouped q ≡ true → IsEmptyFor job.now empty
            → GrewSomehow Grew empty self job.now (kept_rows job.now rows)
            → IfOk result (λ made. MakesGroups q self.groups.limit rows made) }
        ensures printable { IfOk result (λ made. IfSome made (λ rows. All IsPrintableRow rows)) }
    {
        match self.into_rows()? {
            Some(rows) => {
                let rows = or_empty_row(alloc, job, rows)?;
                Ok(Some(rows))
            }
            None => Ok(None),
        }
    }

    /// The row of each group, or nothing where there were more groups than the limit.
    fn into_rows(self) -> Result<Option<GroupRows>, OutOfMemory>
        ensures rows { (rows : List Keyed) → StandFor self.groups self.over rows → IfOk result
            (λ made. FinishesAs self.groups.limit self.groups.names rows made) }
        ensures printable { IfOk result (λ made. IfSome made (λ rows. All IsPrintableRow rows)) }
    {
        if self.over {
            return Ok(None);
        }
        self.groups.know();
        let rows = self.groups.finish()?;
        Ok(Some(rows))
    }
}

/// The rows, and where a job without keys has none, the row of no rows.
fn or_empty_row(alloc: Global, job: &Job, rows: GroupRows) -> Result<GroupRows, OutOfMemory>
    ensures rows { IfOk result (λ all. all
        ≡ with_empty_row job.now.ends.groups (map (λ a. a.0) job.now.ends.aggs) rows) }
    ensures printable { All IsPrintableRow rows → IfOk result (λ all. All IsPrintableRow all) }
{
    let ends = job.ends();
    let mut rows = rows;
    if ends.groups.len() > 0 || rows.len() > 0 {
        return Ok(rows);
    }
    let names = names_of(alloc, &ends.aggs)?;
    rows.push(empty_row(alloc, names.as_slice())?)?;
    Ok(rows)
}

/// The names of aggregates.
fn names_of(alloc: Global, aggs: &EndAggs) -> Result<Vec<AggName>, OutOfMemory>
    ensures { IfOk result (λ names. names.items ≡ map (λ a. a.0) aggs.now) }
{
    let mut names = Vec::new(alloc);
    for at in 0..aggs.len() {
        let Some(agg) = aggs.get(at) else {
            unreachable!();
        };
        names.push(agg.name)?;
    }
    Ok(names)
}

impl RowSink for GroupSink {
    ghost use Rattle.batch_groups.specs.Gathered.{Takes, Grew};
    ghost use Rattle.batch_groups.specs.Growing.{grew_by_none, grew_by_both, takes_more};

    ghost takes = { λ s job. Takes s job };

    ghost grew = { λ a b job rows. Grew a b job rows };

    fn take<'b>(
        &mut self,
        alloc: Global,
        _heads: &LineHeads,
        frame: &Frame<'b>,
        block: &Block<'b>,
        _first: u32,
        lane: u32,
    ) -> Result<(), OutOfMemory> {
        if self.over {
            return Ok(());
        }
        let ends = frame.job().ends();
        see_operands(frame, &ends.aggs, lane, &mut self.shown)?;
        let shown = self.shown.as_slice();
        add_lane(
            alloc,
            &mut self.groups,
            &mut self.count,
            &mut self.over,
            frame,
            block.table(),
            &ends.groups,
            lane,
            shown,
        )
    }

    ghost grew_by_none = { λ s job. grew_by_none s job };

    ghost grew_by_both = { λ a b c job xs ys h k. grew_by_both a b c job xs ys h k };

    ghost takes_more = { λ a b job rows h k. takes_more a b job rows h k };
}

impl SharedSink for GroupSink {
    ghost use Rattle.batch_groups.specs.Gathered.{Begins};
    ghost use Rattle.batch_groups.specs.Growing.{fresh_takes, begins_still};

    ghost begins = { λ s empty. Begins s empty };

    fn fresh(&self, alloc: Global) -> Result<GroupSink, OutOfMemory> {
        Ok(GroupSink {
            groups: self.groups.fresh()?,
            shown: Vec::new(alloc),
            count: 0,
            over: false,
        })
    }

    fn join(&mut self, other: GroupSink) -> Result<(), OutOfMemory> {
        if self.over {
            return Ok(());
        }
        if other.over {
            self.over = true;
            return Ok(());
        }
        if other.count > MOST_ROWS - self.count {
            return Err(OutOfMemory);
        }
        join_groups(
            &mut self.groups,
            &mut self.count,
            &mut self.over,
            other.groups,
            other.count,
        )
    }

    ghost fresh_takes = { λ s empty job h k. fresh_takes s empty job h k };

    ghost begins_still = { λ a b empty job rows h k. begins_still a b empty job rows h k };
}
