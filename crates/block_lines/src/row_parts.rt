//! The values of the sort keys of a row, and its line, each by itself.

ghost use Rattle.std.specs.Prelude.{◌≡◌, ◌<◌, ◌+◌, Some, length, slice_get, IfOk};
ghost use Rattle.value_meaning.specs.Val.{Val};
ghost use Rattle.lane_ssa.specs.ChunksOf.{rows_from};
ghost use Rattle.block_lines.specs.HeadTexts.{AreHeads};
ghost use Rattle.block_lines.specs.Ran.{HasRunOver};
ghost use Rattle.block_lines.specs.RowLines.{keyed_line, line_of};

use crate::heads::LineHeads;
use crate::one_line::append_line;
use crate::values::values_of;
use block_file::Block;
use lane_ssa::Frame;
use snel_values::{Bytes, Items, OutOfMemory};
use std::alloc::Global;

/// The values of the sort keys of the row in a lane, which is below 16, of the chunk from `first` on that the frame ran over.
pub fn sort_keys<'b>(
    alloc: Global,
    frame: &Frame<'b>,
    block: &Block<'b>,
    first: u32,
    lane: u32,
) -> Result<Items, OutOfMemory>
    requires lane { lane < 16 }
    requires ran { HasRunOver block.now.0 (rows_from first block.now.1) frame.now }
    ensures keys { (row : Val) → slice_get (rows_from first block.now.1) lane ≡ Some row
        → IfOk result (λ keys. keys ≡ (keyed_line frame.now.job row).0) }
    ensures count { IfOk result (λ keys. length keys ≡ length frame.now.job.ends.sorts) }
{
    let sorts = &frame.job().ends().sorts;
    values_of(alloc, frame, block.table(), sorts, lane)
}

/// The line of the row in a lane, which is below 16, of the chunk from `first` on that the frame ran over.
pub fn row_line<'b>(
    alloc: Global,
    heads: &LineHeads,
    frame: &Frame<'b>,
    block: &Block<'b>,
    first: u32,
    lane: u32,
) -> Result<Bytes, OutOfMemory>
    requires lane { lane < 16 }
    requires heads { AreHeads frame.now.job.ends.outs heads.now }
    requires within { first + lane < length block.now.1 }
    requires ran { HasRunOver block.now.0 (rows_from first block.now.1) frame.now }
    ensures { (row : Val) → slice_get (rows_from first block.now.1) lane ≡ Some row
        → IfOk result (λ line. line ≡ line_of frame.now.job row) }
{
    let mut line = Bytes::new(alloc);
    append_line(&mut line, heads, frame, block, first, lane)?;
    Ok(line)
}
