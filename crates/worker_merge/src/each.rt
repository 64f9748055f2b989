//! Tests and scans blocks one after the other.

ghost use Rattle.std.specs.Prelude.{◌≡◌, OnOk, IfOk, IfErr};
ghost use Rattle.block_lines.specs.HeadTexts.{AreHeads};
ghost use Rattle.scan_meaning.specs.Blocks.{good_rows};
ghost use Rattle.scan_files.specs.Places.{block_held, blocks_held, field_at};
ghost use Rattle.scan_batches.specs.Scans.{SaysOfBatch};
ghost use Rattle.worker_merge.specs.Hands.{HandsInOrder, AddsOf, IsTested};

use block_lines::{LineHeads, RowSink, ScanFault, scan_rows};
use lane_ssa::{Frame, Job, Tally};
use scan_batches::BatchFault;
use scan_files::Stored;
use snel_device::Gate;
use snel_values::{OutOfMemory, Words};
use std::alloc::Global;

/// Tests the blocks, in files that index these fields, and hands on each row that passes, in order, and counts what was run.
pub(crate) fn scan_each<'b, G: Gate, S: RowSink>(
    alloc: Global,
    gate: &G,
    job: &'b Job,
    heads: &LineHeads,
    fields: &Words,
    blocks: &'b [Stored],
    sink: &mut S,
    ran: &mut Tally,
) -> Result<(), BatchFault>
    requires takes { S.takes sink.old job.now }
    requires heads { AreHeads job.now.ends.outs heads.now }
    ensures handed { OnOk result (HandsInOrder S.grew job.now (blocks_held fields.now blocks.now)
        sink.old sink.new ran.old.chunks ran.new.chunks ran.old.kept ran.new.kept) }
    ensures bad { IfErr result (λ fault. SaysOfBatch (blocks_held fields.now blocks.now) fault) }
{
    let Ok(mut frame) = Frame::new(alloc, job) else {
        return Err(BatchFault::OutOfMemory);
    };
    for number in 0..blocks.len() {
        gate.pass(number.min(u32::MAX as usize) as u32);
        let block = &blocks[number];
        match scan_one(alloc, &mut frame, heads, fields, block, sink) {
            Ok(true) => {}
            Ok(false) => return Err(BatchFault::Bad(number)),
            Err(OutOfMemory) => return Err(BatchFault::OutOfMemory),
        }
    }
    ran.join(frame.into_tally());
    Ok(())
}

/// Hands on the rows of a block that pass, or answers that it is bad.
pub(crate) fn scan_one<'b, S: RowSink>(
    alloc: Global,
    frame: &mut Frame<'b>,
    heads: &LineHeads,
    fields: &Words,
    block: &'b Stored,
    sink: &mut S,
) -> Result<bool, OutOfMemory>
    requires takes { S.takes sink.old frame.old.job }
    requires heads { AreHeads frame.old.job.ends.outs heads.now }
    ensures added { IfOk result (λ good. AddsOf S.grew frame.old.job block.now.place.entry.rows
        (good_rows (block_held fields.now block.now)) good sink.old sink.new frame.old.chunks
        frame.new.chunks frame.old.kept frame.new.kept) }
    ensures tested { IfOk result
        (λ good. IsTested (good_rows (block_held fields.now block.now)) good) }
    ensures job { frame.new.job ≡ frame.old.job }
{
    let place = block.place;
    let entry = place.entry;
    let field = field_of(fields, place.file);
    match scan_rows(alloc, frame, heads, &block.bytes, &entry, field, sink) {
        Ok(()) => Ok(true),
        Err(ScanFault::Damaged) => Ok(false),
        Err(ScanFault::OutOfRange) => Ok(false),
        Err(ScanFault::OutOfMemory) => Err(OutOfMemory),
    }
}

// The field that the file with this number indexes, and the empty name where it indexes none.
fn field_of(fields: &Words, file: u32) -> &str
    ensures { result.now ≡ field_at fields.now file }
{
    match fields.get(file as usize) {
        Some(field) => field,
        None => "",
    }
}
