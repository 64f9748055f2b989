//! The first rows of a scan, by their sort keys.
use block_file::Block;
use block_lines::{LineHeads, RowSink, row_line, sort_keys};
use lane_ssa::Frame;
use order_limit::TopK;
use snel_values::{MadeRow, OutOfMemory};
use std::alloc::Global;
use worker_merge::SharedSink;

/// Takes the sort keys of each row, and its line where it may be among the first rows that are held.
#[derive(Drop)]
pub(crate) struct TopSink {
    pub(crate) top: TopK,
}

impl RowSink for TopSink {
    ghost use Rattle.sorted_rows.specs.Grown.{GrewBy, HasKeysOf};
    ghost use Rattle.sorted_rows.specs.Grown.{grew_by_none, grew_by_both, takes_more};

    ghost takes = { λ s job. HasKeysOf s.top job };

    ghost grew = { λ a b job rows. GrewBy a.top b.top job rows };

    fn take<'b>(
        &mut self,
        alloc: Global,
        heads: &LineHeads,
        frame: &Frame<'b>,
        block: &Block<'b>,
        first: u32,
        lane: u32,
    ) -> Result<(), OutOfMemory> {
        let keys = sort_keys(alloc, frame, block, first, lane)?;
        if !self.top.wants(&keys) {
            return Ok(());
        }
        let line = row_line(alloc, heads, frame, block, first, lane)?;
        self.top.put(MadeRow { keys, line })
    }

    ghost grew_by_none = { λ s job. grew_by_none s.top job };

    ghost grew_by_both = { λ a b c job xs ys h k. grew_by_both a.top b.top c.top job xs ys h k };

    ghost takes_more = { λ a b job rows h k. takes_more a.top b.top job rows h k };
}

impl SharedSink for TopSink {
    ghost use Rattle.sorted_rows.specs.Grown.{IsFresh, fresh_takes, begins_still};

    ghost begins = { λ s empty. IsFresh s.top empty.top };

    fn fresh(&self, alloc: Global) -> Result<TopSink, OutOfMemory> {
        let top = self.top.fresh(alloc)?;
        Ok(TopSink { top })
    }

    fn join(&mut self, other: TopSink) -> Result<(), OutOfMemory> {
        self.top.join(other.top)
    }

    ghost fresh_takes = { λ s empty job h k. fresh_takes s.top empty.top job h k };

    ghost begins_still = { λ a b empty job rows h k. begins_still a.top b.top empty.top job rows h k };
}
