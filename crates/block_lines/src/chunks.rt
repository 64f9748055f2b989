//! The rows of a chunk that pass.

ghost use Rattle.std.specs.Prelude.{◌≡◌, ◌<◌, ◌%◌, length, OnOk};
ghost use Rattle.lane_ssa.specs.Bound.{IsBound};
ghost use Rattle.lane_ssa.specs.ChunksOf.{rows_from};
ghost use Rattle.lane_ssa.specs.Counts.{counted};
ghost use Rattle.block_lines.specs.HeadTexts.{AreHeads};
ghost use Rattle.block_lines.specs.Ran.{HasRunOver};
ghost use Rattle.block_lines.specs.RowLines.{kept_rows};

use crate::heads::LineHeads;
use crate::sink::RowSink;
use block_file::Block;
use lane_ssa::Frame;
use snel_values::OutOfMemory;
use std::alloc::Global;

/// Hands on the rows that passed in the chunk from `first` on that the frame ran over.
#[inline(never)]
fn take_lanes<'b, S: RowSink>(
    alloc: Global,
    heads: &LineHeads,
    frame: &Frame<'b>,
    block: &Block<'b>,
    first: u32,
    sink: &mut S,
) -> Result<(), OutOfMemory>
    requires takes { S.takes sink.old frame.now.job }
    requires heads { AreHeads frame.now.job.ends.outs heads.now }
    requires ran { HasRunOver block.now.0 (rows_from first block.now.1) frame.now }
    ensures { OnOk result (S.grew sink.old sink.new frame.now.job
        (kept_rows frame.now.job (rows_from first block.now.1))) }
{
    let kept = frame.kept();
    for lane in 0..16u32 {
        if kept.has(lane) {
            sink.take(alloc, heads, frame, block, first, lane)?;
        }
    }
    Ok(())
}

/// Runs the chunk from `first` on, and hands on its rows that pass.
pub(crate) fn take_chunk<'b, S: RowSink>(
    alloc: Global,
    heads: &LineHeads,
    frame: &mut Frame<'b>,
    block: &Block<'b>,
    first: u32,
    sink: &mut S,
) -> Result<(), OutOfMemory>
    requires takes { S.takes sink.old frame.old.job }
    requires heads { AreHeads frame.old.job.ends.outs heads.now }
    requires bound { IsBound block.now.0 frame.old.job.program frame.old.symbols }
    requires within { first < length block.now.1 }
    requires whole { first % 16 ≡ 0 }
    ensures rows { OnOk result (S.grew sink.old sink.new frame.old.job
        (kept_rows frame.old.job (rows_from first block.now.1))) }
    ensures chunks { frame.new.chunks ≡ counted frame.old.chunks 1 }
    ensures kept { frame.new.kept ≡ counted frame.old.kept
        (length (kept_rows frame.old.job (rows_from first block.now.1))) }
    ensures job { frame.new.job ≡ frame.old.job }
    ensures symbols { frame.new.symbols ≡ frame.old.symbols }
{
    let chunk = block.chunk(first);
    frame.run_chunk(block, &chunk);
    take_lanes(alloc, heads, frame, block, first, sink)
}
