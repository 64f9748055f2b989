//! Rows with the values of their sort keys.

ghost use Rattle.std.specs.Prelude.{◌≡◌, ◌<◌, ◌+◌, ◌++◌, ◌/◌, List, Some, false, length, slice_get, OnOk, IfOk, IfErr};
ghost use Rattle.value_meaning.specs.Val.{Val};
ghost use Rattle.snel_values.specs.Made.{row_view};
ghost use Rattle.tree_meaning.specs.Tree.{Query};
ghost use Rattle.check_meaning.specs.Aggregates.{is_grouped};
ghost use Rattle.eval_meaning.specs.Passed.{passed};
ghost use Rattle.program_meaning.specs.Simulation.{Simulates};
ghost use Rattle.lane_ssa.specs.ChunksOf.{rows_from};
ghost use Rattle.lane_ssa.specs.Counts.{counted};
ghost use Rattle.block_lines.specs.GoodBlocks.{IsGoodBlock, HasGoodRows, SaysOfBlock, StaysIfBad};
ghost use Rattle.block_lines.specs.HeadTexts.{AreHeads};
ghost use Rattle.block_lines.specs.Ran.{HasRunOver};
ghost use Rattle.block_lines.specs.RowLines.{keyed_line, made_keyed};

use crate::fault::ScanFault;
use crate::heads::LineHeads;
use crate::row_parts::{row_line, sort_keys};
use crate::scanning::scan_rows;
use crate::sink::RowSink;
use block_file::Block;
use lane_ssa::Frame;
use snel_values::{MadeRow, MadeRows, OutOfMemory};
use std::alloc::Global;
use time_index::Entry;

/// Scans a block into made rows: as [`scan_rows`] does, with the values of the sort keys and the line of each row that passes.
///
/// What is added is what a query that the job simulates makes of the block's rows, where the query isn't grouped. `Damaged`
/// and `OutOfRange` leave the rows as they were; for want of memory some rows may be added.
pub fn scan_keyed<'b>(
    alloc: Global,
    frame: &mut Frame<'b>,
    heads: &LineHeads,
    bytes: &'b [u8],
    entry: &Entry,
    field: &str,
    into: &mut MadeRows,
) -> Result<(), ScanFault>
    requires heads { AreHeads frame.old.job.ends.outs heads.now }
    ensures good { OnOk result (HasGoodRows field.now entry.now bytes.now) }
    ensures rows { (rows : List Val) (q : Query) → IsGoodBlock field.now entry.now bytes.now rows
        → Simulates frame.old.job q → is_grouped q ≡ false
        → OnOk result (into.new ≡ into.old ++ made_keyed q rows) }
    ensures chunks { (rows : List Val) → IsGoodBlock field.now entry.now bytes.now rows
        → OnOk result (frame.new.chunks ≡ counted frame.old.chunks ((length rows + 15) / 16)) }
    ensures kept { (rows : List Val) (q : Query) → IsGoodBlock field.now entry.now bytes.now rows
        → Simulates frame.old.job q
        → OnOk result (frame.new.kept ≡ counted frame.old.kept (length (passed q rows))) }
    ensures cause { IfErr result (λ fault. SaysOfBlock field.now entry.now bytes.now fault) }
    ensures same { IfErr result (λ fault. StaysIfBad fault into.old into.new) }
    ensures job { frame.new.job ≡ frame.old.job }
{
    scan_rows(alloc, frame, heads, bytes, entry, field, into)
}

impl RowSink for MadeRows {
    ghost use Rattle.std.specs.Prelude.{◌≡◌, ◌++◌, map};
    ghost use Rattle.block_lines.specs.RowLines.{keyed_line};
    ghost use Rattle.block_lines.specs.Growing.{grown_by_none, grown_by_both};

    ghost takes = { λ _ _. Unit {0} };

    ghost grew = { λ a b job rows. b ≡ a ++ map (keyed_line job) rows };

    fn take<'b>(
        &mut self,
        alloc: Global,
        heads: &LineHeads,
        frame: &Frame<'b>,
        block: &Block<'b>,
        first: u32,
        lane: u32,
    ) -> Result<(), OutOfMemory> {
        let row = keyed_row(alloc, heads, frame, block, first, lane)?;
        self.push(row)
    }

    ghost grew_by_none = { λ s job. grown_by_none (keyed_line job) s };

    ghost grew_by_both = { λ a b c job xs ys h k. grown_by_both (keyed_line job) a b c xs ys h k };

    ghost takes_more = { λ _ _ _ _ h _. h };
}

/// The values of the sort keys and the line of the row in a lane, which is below 16, of the chunk from `first` on that the
/// frame ran over.
fn keyed_row<'b>(
    alloc: Global,
    heads: &LineHeads,
    frame: &Frame<'b>,
    block: &Block<'b>,
    first: u32,
    lane: u32,
) -> Result<MadeRow, OutOfMemory>
    requires lane { lane < 16 }
    requires heads { AreHeads frame.now.job.ends.outs heads.now }
    requires within { first + lane < length block.now.1 }
    requires ran { HasRunOver block.now.0 (rows_from first block.now.1) frame.now }
    ensures { (row : Val) → slice_get (rows_from first block.now.1) lane ≡ Some row
        → IfOk result (λ r. row_view r ≡ keyed_line frame.now.job row) }
{
    let keys = sort_keys(alloc, frame, block, first, lane)?;
    let line = row_line(alloc, heads, frame, block, first, lane)?;
    Ok(MadeRow { keys, line })
}
