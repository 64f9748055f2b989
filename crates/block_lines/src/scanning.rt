//! Scanning the bytes of a block.

ghost use Rattle.std.specs.Prelude.{◌≡◌, ◌+◌, ◌++◌, ◌/◌, ℕ, List, false, length, OnOk, IfOk, IfErr};
ghost use Rattle.value_meaning.specs.Val.{Val};
ghost use Rattle.tree_meaning.specs.Tree.{Query};
ghost use Rattle.check_meaning.specs.Aggregates.{is_grouped};
ghost use Rattle.eval_meaning.specs.Passed.{passed};
ghost use Rattle.program_meaning.specs.Simulation.{Simulates};
ghost use Rattle.lane_ssa.specs.Counts.{counted};
ghost use Rattle.block_lines.specs.GoodBlocks.{IsGoodBlock, HasGoodRows, SaysOfBlock, lines_after, StaysIfBad};
ghost use Rattle.block_lines.specs.HeadTexts.{AreHeads};
ghost use Rattle.block_lines.specs.RowLines.{kept_rows, made_lines};

use crate::block::take_block;
use crate::fault::ScanFault;
use crate::heads::LineHeads;
use crate::line_list::Lines;
use crate::sink::RowSink;
use block_file::{Block, BlockFault, open_block};
use lane_ssa::Frame;
use snel_values::OutOfMemory;
use std::alloc::Global;
use time_index::{Entry, in_range};

/// Scans a block into lines: as [`scan_rows`] does, with the line of each row that passes.
///
/// What is added are the lines of what a query that the job simulates makes of the block's rows, where the query isn't
/// grouped. `Damaged` and `OutOfRange` leave the lines as they were; for want of memory all lines are dropped, also those of
/// before.
pub fn scan_block<'b>(
    alloc: Global,
    frame: &mut Frame<'b>,
    heads: &LineHeads,
    bytes: &'b [u8],
    entry: &Entry,
    field: &str,
    into: &mut Lines,
) -> Result<(), ScanFault>
    requires heads { AreHeads frame.old.job.ends.outs heads.now }
    ensures good { OnOk result (HasGoodRows field.now entry.now bytes.now) }
    ensures lines { (rows : List Val) (q : Query) → IsGoodBlock field.now entry.now bytes.now rows
        → Simulates frame.old.job q → is_grouped q ≡ false
        → OnOk result (into.new ≡ into.old ++ made_lines q rows) }
    ensures chunks { (rows : List Val) → IsGoodBlock field.now entry.now bytes.now rows
        → OnOk result (frame.new.chunks ≡ counted frame.old.chunks ((length rows + 15) / 16)) }
    ensures kept { (rows : List Val) (q : Query) → IsGoodBlock field.now entry.now bytes.now rows
        → Simulates frame.old.job q
        → OnOk result (frame.new.kept ≡ counted frame.old.kept (length (passed q rows))) }
    ensures cause { IfErr result (λ fault. SaysOfBlock field.now entry.now bytes.now fault) }
    ensures same { IfErr result (λ fault. into.new ≡ lines_after fault into.old) }
    ensures job { frame.new.job ≡ frame.old.job }
{
    match scan_rows(alloc, frame, heads, bytes, entry, field, into) {
        Ok(()) => Ok(()),
        Err(ScanFault::OutOfMemory) => {
            into.clear();
            Err(ScanFault::OutOfMemory)
        }
        Err(fault) => Err(fault),
    }
}

/// Tests the bytes of a block, runs the frame's job over its rows, sixteen at a time, and hands on each row that passes, in
/// order. The block is good where the bytes are a block of as many rows as its entry says, of which each time in the indexed
/// field lies from the entry's least to its greatest; the empty name says that no field is indexed. Before the last row is
/// tested none is handed on.
///
/// The frame counts each chunk and each row that passes. `Damaged` and `OutOfRange` come only where the block is so, and leave
/// the sink as it was; for want of memory some of the rows may be handed on.
pub fn scan_rows<'b, S: RowSink>(
    alloc: Global,
    frame: &mut Frame<'b>,
    heads: &LineHeads,
    bytes: &'b [u8],
    entry: &Entry,
    field: &str,
    sink: &mut S,
) -> Result<(), ScanFault>
    requires takes { S.takes sink.old frame.old.job }
    requires heads { AreHeads frame.old.job.ends.outs heads.now }
    ensures good { OnOk result (HasGoodRows field.now entry.now bytes.now) }
    ensures rows { (rows : List Val) → IsGoodBlock field.now entry.now bytes.now rows
        → OnOk result (S.grew sink.old sink.new frame.old.job (kept_rows frame.old.job rows)) }
    ensures chunks { (rows : List Val) → IsGoodBlock field.now entry.now bytes.now rows
        → OnOk result (frame.new.chunks ≡ counted frame.old.chunks ((length rows + 15) / 16)) }
    ensures kept { (rows : List Val) → IsGoodBlock field.now entry.now bytes.now rows
        → OnOk result (frame.new.kept
        ≡ counted frame.old.kept (length (kept_rows frame.old.job rows))) }
    ensures cause { IfErr result (λ fault. SaysOfBlock field.now entry.now bytes.now fault) }
    ensures same { IfErr result (λ fault. StaysIfBad fault sink.old sink.new) }
    ensures job { frame.new.job ≡ frame.old.job }
{
    let block = match open_good(alloc, bytes, entry, field) {
        Ok(block) => block,
        Err(fault) => return Err(fault),
    };
    match take_block(alloc, heads, frame, &block, sink) {
        Ok(()) => Ok(()),
        Err(OutOfMemory) => Err(ScanFault::OutOfMemory),
    }
}

/// Opens a good block.
fn open_good<'b>(
    alloc: Global,
    bytes: &'b [u8],
    entry: &Entry,
    field: &str,
) -> Result<Block<'b>, ScanFault>
    ensures good { IfOk result (λ b. IsGoodBlock field.now entry.now bytes.now b.1) }
    ensures cause { IfErr result (λ fault. SaysOfBlock field.now entry.now bytes.now fault) }
{
    let block = match open_block(alloc, bytes, entry.rows) {
        Ok(block) => block,
        Err(BlockFault::Damaged) => return Err(ScanFault::Damaged),
        Err(BlockFault::OutOfMemory) => return Err(ScanFault::OutOfMemory),
    };
    if in_range(&block, entry, field) {
        Ok(block)
    } else {
        Err(ScanFault::OutOfRange)
    }
}
