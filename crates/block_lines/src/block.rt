//! The rows of a block that pass.

ghost use Rattle.std.specs.Prelude.{◌≡◌, ◌+◌, ◌/◌, length, OnOk};
ghost use Rattle.lane_ssa.specs.Counts.{counted};
ghost use Rattle.block_lines.specs.HeadTexts.{AreHeads};
ghost use Rattle.block_lines.specs.RowLines.{kept_rows};

use crate::chunks::take_chunk;
use crate::heads::LineHeads;
use crate::sink::RowSink;
use block_file::Block;
use lane_ssa::Frame;
use snel_values::OutOfMemory;
use std::alloc::Global;

/// Binds the frame to the block, runs its job over the block's rows, sixteen at a time, and hands on each row that passes, in
/// order. The frame counts each chunk and each row that passes.
pub fn take_block<'b, S: RowSink>(
    alloc: Global,
    heads: &LineHeads,
    frame: &mut Frame<'b>,
    block: &Block<'b>,
    sink: &mut S,
) -> Result<(), OutOfMemory>
    requires takes { S.takes sink.old frame.old.job }
    requires heads { AreHeads frame.old.job.ends.outs heads.now }
    ensures rows { OnOk result (S.grew sink.old sink.new frame.old.job
        (kept_rows frame.old.job block.now.1)) }
    ensures chunks { OnOk result (frame.new.chunks
        ≡ counted frame.old.chunks ((length block.now.1 + 15) / 16)) }
    ensures kept { OnOk result (frame.new.kept
        ≡ counted frame.old.kept (length (kept_rows frame.old.job block.now.1))) }
    ensures job { frame.new.job ≡ frame.old.job }
{
    frame.bind(block.table());
    block.know();
    let mut first = 0;
    while first < block.rows() {
        take_chunk(alloc, heads, frame, block, first, sink)?;
        first += 16;
    }
    Ok(())
}
