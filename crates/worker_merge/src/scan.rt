//! Scanning the blocks of a batch.

ghost use Rattle.std.specs.Prelude.{◌≡◌, ◌<◌, ◌≤◌, length, OnOk, IfErr};
ghost use Rattle.block_lines.specs.HeadTexts.{AreHeads};
ghost use Rattle.scan_files.specs.Places.{blocks_held};
ghost use Rattle.scan_batches.specs.Scans.{SaysOfBatch};
ghost use Rattle.worker_merge.specs.Hands.{HandsRows};

use crate::each::scan_each;
use crate::settle::settle;
use crate::shared::SharedSink;
use crate::workers::{hire, scan_all};
use block_lines::LineHeads;
use lane_ssa::{Job, Tally};
use scan_batches::BatchFault;
use scan_board::Board;
use scan_files::Stored;
use snel_device::Gate;
use snel_values::{OutOfMemory, Words};
use std::alloc::Global;
use std::thread::Threads;

/// Tests the blocks, in files that index these fields, by so many workers, from 1 to 64, and hands each row that passes to the
/// sink, in any order, and counts what was run. A worker passes the gate with the number of a block, from 0, before it opens it.
///
/// `Bad` names the first bad block, whatever the workers met first. After a fault the sink may hold some of the rows.
pub fn scan_blocks<'b, R: Threads + Sync, G: Gate + Sync, S: SharedSink>(
    rt: &R,
    alloc: Global,
    gate: &G,
    workers: u32,
    job: &'b Job,
    heads: &LineHeads,
    fields: &Words,
    blocks: &'b [Stored],
    sink: &mut S,
    ran: &mut Tally,
) -> Result<(), BatchFault>
    requires workers { (0 < workers) × (workers ≤ 64) }
    requires takes { S.takes sink.old job.now }
    requires heads { AreHeads job.now.ends.outs heads.now }
    ensures handed { OnOk result (HandsRows S.grew job.now (blocks_held fields.now blocks.now)
        sink.old sink.new ran.old.chunks ran.new.chunks ran.old.kept ran.new.kept) }
    ensures bad { IfErr result (λ fault. SaysOfBatch (blocks_held fields.now blocks.now) fault) }
{
    match u32::try_from(blocks.len()) {
        Ok(count) if 1 < workers && 1 < count => scan_at_board(
            rt,
            alloc,
            gate,
            workers.min(count),
            count,
            job,
            heads,
            fields,
            blocks,
            sink,
            ran,
        ),
        _ => scan_each(alloc, gate, job, heads, fields, blocks, sink, ran),
    }
}

// The same, for so many workers and blocks: the workers draw the blocks at a board, each the next one that none has drawn.
fn scan_at_board<R: Threads + Sync, G: Gate + Sync, S: SharedSink>(
    rt: &R,
    alloc: Global,
    gate: &G,
    workers: u32,
    count: u32,
    job: &Job,
    heads: &LineHeads,
    fields: &Words,
    blocks: &[Stored],
    sink: &mut S,
    ran: &mut Tally,
) -> Result<(), BatchFault>
    requires workers { (0 < workers) × (workers ≤ 64) }
    requires count { count ≡ length blocks.now }
    requires takes { S.takes sink.old job.now }
    requires heads { AreHeads job.now.ends.outs heads.now }
    ensures handed { OnOk result (HandsRows S.grew job.now (blocks_held fields.now blocks.now)
        sink.old sink.new ran.old.chunks ran.new.chunks ran.old.kept ran.new.kept) }
    ensures bad { IfErr result (λ fault. SaysOfBatch (blocks_held fields.now blocks.now) fault) }
{
    let Ok((board, mut seats)) = Board::new(alloc, workers, count, None) else {
        return Err(BatchFault::OutOfMemory);
    };
    let mut hired = match hire(alloc, sink, &mut seats) {
        Ok(hired) => hired,
        Err(OutOfMemory) => return Err(BatchFault::OutOfMemory),
    };
    let at_work = hired.as_mut_slice();
    scan_all(rt, alloc, gate, &board, job, heads, fields, blocks, at_work);
    settle(job, fields, blocks, board, seats, hired, sink, ran)
}
