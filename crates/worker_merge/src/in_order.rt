//! Scanning the blocks of a batch into lines, in the order of the blocks.

ghost use Rattle.std.specs.Prelude.{◌≡◌, ◌<◌, ◌≤◌, ◌++◌, false, length, All, OnOk, IfOk, IfErr, IfSome, IfNone};
ghost use Rattle.block_lines.specs.HeadTexts.{AreHeads};
ghost use Rattle.block_lines.specs.RowLines.{lines_of};
ghost use Rattle.scan_meaning.specs.Blocks.{good_rows};
ghost use Rattle.scan_files.specs.Places.{block_held, blocks_held};
ghost use Rattle.scan_batches.specs.Scans.{SaysOfBatch};
ghost use Rattle.worker_merge.specs.Hands.{AddsOf, IsTested};
ghost use Rattle.worker_merge.specs.Pieces.{HandsLines, IsPieceOf, AreOwn};

use crate::collecting::{collect_all, seat_collectors};
use crate::each::scan_each;
use crate::piece::{Piece, scan_piece};
use crate::slots::{slots_of, take_from};
use block_lines::{LineHeads, Lines};
use lane_ssa::{Job, Tally};
use scan_batches::BatchFault;
use scan_board::Board;
use scan_files::Stored;
use snel_device::Gate;
use snel_values::{OutOfMemory, Words};
use std::alloc::Global;
use std::thread::Threads;

/// Tests the blocks, in files that index these fields, by so many workers, from 1 to 64, and adds the line of each row that
/// passes, in order, and counts what was run. A worker passes the gate with the number of a block, from 0, before it opens it.
///
/// `Bad` names the first bad block, whatever the workers met first. After a fault some of the lines may be added.
pub fn scan_lines<'b, R: Threads + Sync, G: Gate + Sync>(
    rt: &R,
    alloc: Global,
    gate: &G,
    workers: u32,
    job: &'b Job,
    heads: &LineHeads,
    fields: &Words,
    blocks: &'b [Stored],
    lines: &mut Lines,
    ran: &mut Tally,
) -> Result<(), BatchFault>
    requires workers { (0 < workers) × (workers ≤ 64) }
    requires heads { AreHeads job.now.ends.outs heads.now }
    ensures handed { OnOk result (HandsLines job.now (blocks_held fields.now blocks.now)
        lines.old lines.new ran.old.chunks ran.new.chunks ran.old.kept ran.new.kept) }
    ensures bad { IfErr result (λ fault. SaysOfBatch (blocks_held fields.now blocks.now) fault) }
{
    match u32::try_from(blocks.len()) {
        Ok(count) if 1 < workers && 1 < count => scan_apart(
            rt,
            alloc,
            gate,
            workers.min(count),
            count,
            job,
            heads,
            fields,
            blocks,
            lines,
            ran,
        ),
        _ => scan_each(alloc, gate, job, heads, fields, blocks, lines, ran),
    }
}

// The same, for so many workers and blocks: the workers keep the lines of each block apart, and these are put behind each other.
fn scan_apart<R: Threads + Sync, G: Gate + Sync>(
    rt: &R,
    alloc: Global,
    gate: &G,
    workers: u32,
    count: u32,
    job: &Job,
    heads: &LineHeads,
    fields: &Words,
    blocks: &[Stored],
    lines: &mut Lines,
    ran: &mut Tally,
) -> Result<(), BatchFault>
    requires workers { (0 < workers) × (workers ≤ 64) }
    requires count { count ≡ length blocks.now }
    requires heads { AreHeads job.now.ends.outs heads.now }
    ensures handed { OnOk result (HandsLines job.now (blocks_held fields.now blocks.now)
        lines.old lines.new ran.old.chunks ran.new.chunks ran.old.kept ran.new.kept) }
    ensures bad { IfErr result (λ fault. SaysOfBatch (blocks_held fields.now blocks.now) fault) }
{
    match collect_pieces(rt, alloc, gate, workers, count, job, heads, fields, blocks) {
        Ok(slots) => put_in_order(alloc, job, heads, fields, blocks, slots, lines, ran),
        Err(OutOfMemory) => Err(BatchFault::OutOfMemory),
    }
}

// The lines of the blocks that workers drew at a board, each the next one that none has drawn, in slots by number.
fn collect_pieces<R: Threads + Sync, G: Gate + Sync>(
    rt: &R,
    alloc: Global,
    gate: &G,
    workers: u32,
    count: u32,
    job: &Job,
    heads: &LineHeads,
    fields: &Words,
    blocks: &[Stored],
) -> Result<Vec<Option<Piece>>, OutOfMemory>
    requires workers { (0 < workers) × (workers ≤ 64) }
    requires count { count ≡ length blocks.now }
    requires heads { AreHeads job.now.ends.outs heads.now }
    ensures { IfOk result (λ slots. AreOwn job.now fields.now blocks.now slots.items) }
{
    let Ok((board, mut seats)) = Board::new(alloc, workers, count, None) else {
        return Err(OutOfMemory);
    };
    let mut hired = match seat_collectors(alloc, &mut seats) {
        Ok(hired) => hired,
        Err(OutOfMemory) => return Err(OutOfMemory),
    };
    let at_work = hired.as_mut_slice();
    collect_all(rt, alloc, gate, &board, job, heads, fields, blocks, at_work);
    slots_of(alloc, job, fields, blocks, hired)
}

// Puts the lines of the blocks behind each other. A block whose slot is empty is scanned here: it's bad, or stands behind a bad one.
fn put_in_order<'b>(
    alloc: Global,
    job: &'b Job,
    heads: &LineHeads,
    fields: &Words,
    blocks: &'b [Stored],
    mut slots: Vec<Option<Piece>>,
    lines: &mut Lines,
    ran: &mut Tally,
) -> Result<(), BatchFault>
    requires heads { AreHeads job.now.ends.outs heads.now }
    requires own { AreOwn job.now fields.now blocks.now slots.items }
    ensures handed { OnOk result (HandsLines job.now (blocks_held fields.now blocks.now)
        lines.old lines.new ran.old.chunks ran.new.chunks ran.old.kept ran.new.kept) }
    ensures bad { IfErr result (λ fault. SaysOfBatch (blocks_held fields.now blocks.now) fault) }
{
    let mut all = Tally::none();
    for number in 0..blocks.len() {
        let block = &blocks[number];
        let found = take_from(&mut slots, number);
        match add_block(alloc, job, heads, fields, block, found, lines, &mut all) {
            Ok(true) => {}
            Ok(false) => return Err(BatchFault::Bad(number)),
            Err(OutOfMemory) => return Err(BatchFault::OutOfMemory),
        }
    }
    ran.join(all);
    Ok(())
}

// Adds the lines of a block, which a worker may have made, and counts what was run, or answers that the block is bad.
fn add_block<'b>(
    alloc: Global,
    job: &'b Job,
    heads: &LineHeads,
    fields: &Words,
    block: &'b Stored,
    found: Option<Piece>,
    lines: &mut Lines,
    all: &mut Tally,
) -> Result<bool, OutOfMemory>
    requires heads { AreHeads job.now.ends.outs heads.now }
    requires own { IfSome found (λ p. IsPieceOf job.now (block_held fields.now block.now) p) }
    ensures added { IfOk result (λ good. AddsOf (λ a b j rows. b ≡ a ++ lines_of j rows) job.now
        block.now.place.entry.rows (good_rows (block_held fields.now block.now)) good lines.old
        lines.new all.old.chunks all.new.chunks all.old.kept all.new.kept) }
    ensures tested { IfOk result
        (λ good. IsTested (good_rows (block_held fields.now block.now)) good) }
{
    match piece_of(alloc, job, heads, fields, block, found) {
        Ok(Some(piece)) => {
            let Piece {
                number: _,
                lines: own,
                ran,
            } = piece;
            match append_lines(lines, &own) {
                Ok(()) => {}
                Err(OutOfMemory) => return Err(OutOfMemory),
            }
            all.join(ran);
            Ok(true)
        }
        Ok(None) => Ok(false),
        Err(OutOfMemory) => Err(OutOfMemory),
    }
}

// The lines of a block, which a worker may have made. None where the block is bad.
fn piece_of<'b>(
    alloc: Global,
    job: &'b Job,
    heads: &LineHeads,
    fields: &Words,
    block: &'b Stored,
    found: Option<Piece>,
) -> Result<Option<Piece>, OutOfMemory>
    requires heads { AreHeads job.now.ends.outs heads.now }
    requires own { IfSome found (λ p. IsPieceOf job.now (block_held fields.now block.now) p) }
    ensures piece { IfOk result (λ made. IfSome made
        (λ p. IsPieceOf job.now (block_held fields.now block.now) p)) }
    ensures bad { IfOk result (λ made. IfNone made
        (IsTested (good_rows (block_held fields.now block.now)) false)) }
{
    match found {
        Some(piece) => Ok(Some(piece)),
        None => scan_piece(alloc, job, heads, fields, 0, block),
    }
}

// Adds all of the other's lines, in order.
fn append_lines(into: &mut Lines, other: &Lines) -> Result<(), OutOfMemory>
    ensures { OnOk result (into.new ≡ into.old ++ other.now) }
{
    for at in 0..other.len() {
        let Some(line) = other.get(at) else {
            unreachable!()
        };
        match into.push(line) {
            Ok(()) => {}
            Err(OutOfMemory) => return Err(OutOfMemory),
        }
    }
    Ok(())
}
