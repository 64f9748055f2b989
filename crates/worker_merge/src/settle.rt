//! What the workers of a batch come to.

ghost use Rattle.std.specs.Prelude.{◌≡◌, ◌<◌, ◌≤◌, [], length, All, OnOk, IfErr};
ghost use Rattle.scan_files.specs.Places.{blocks_held};
ghost use Rattle.scan_batches.specs.Scans.{SaysOfBatch};
ghost use Rattle.scan_board.specs.Seats.{seats_of, blocks_of, BelongsTo, view_of};
ghost use Rattle.worker_merge.specs.Hands.{HandsRows};
ghost use Rattle.worker_merge.specs.Draws.{drawn, taken, IsSettled, IsDone};

use crate::shared::SharedSink;
use crate::workers::Worker;
use lane_ssa::{Job, Tally};
use scan_batches::BatchFault;
use scan_board::{Board, Seats};
use scan_files::Stored;
use snel_values::{OutOfMemory, Words};

/// Ends the board of workers that have scanned: takes over what they handed on and counted, or names the first bad block.
pub(crate) fn settle<S: SharedSink>(
    job: &Job,
    fields: &Words,
    blocks: &[Stored],
    board: Board,
    mut seats: Seats,
    workers: Vec<Worker<S>>,
    sink: &mut S,
    ran: &mut Tally,
) -> Result<(), BatchFault>
    requires takes { S.takes sink.old job.now }
    requires none { seats ≡ [] }
    requires count { length workers.items ≡ seats_of board }
    requires blocks { blocks_of board ≡ length blocks.now }
    requires done { All (IsDone S.grew job.now fields.now blocks.now S.begins sink.old board) workers.items }
    ensures handed { OnOk result (HandsRows S.grew job.now (blocks_held fields.now blocks.now)
        sink.old sink.new ran.old.chunks ran.new.chunks ran.old.kept ran.new.kept) }
    ensures bad { IfErr result (λ fault. SaysOfBatch (blocks_held fields.now blocks.now) fault) }
{
    let mut all = Tally::none();
    match dismiss(
        job, fields, blocks, &board, workers, &mut seats, sink, &mut all,
    ) {
        Ok(()) => {}
        Err(OutOfMemory) => return Err(BatchFault::OutOfMemory),
    }
    match board.gather(seats).damage() {
        Some(number) => Err(BatchFault::Bad(number as usize)),
        None => {
            ran.join(all);
            Ok(())
        }
    }
}

// Takes the seats of the workers, and from those that were told that no block is left what they handed on and counted.
fn dismiss<S: SharedSink>(
    job: &Job,
    fields: &Words,
    blocks: &[Stored],
    board: &Board,
    mut workers: Vec<Worker<S>>,
    seats: &mut Seats,
    sink: &mut S,
    all: &mut Tally,
) -> Result<(), OutOfMemory>
    requires takes { S.takes sink.old job.now }
    requires none { seats.old ≡ [] }
    requires few { length workers.items ≤ 64 }
    requires done { All (IsDone S.grew job.now fields.now blocks.now S.begins sink.old board.now) workers.items }
    requires uncounted { (all.old.chunks ≡ 0) × (all.old.kept ≡ 0) }
    ensures count { OnOk result (length seats.new ≡ length workers.items) }
    ensures settled { OnOk result (All (λ s. BelongsTo board.now s
        × IsSettled fields.now blocks.now (view_of s)) seats.new) }
    ensures joined { OnOk result (HandsRows S.grew job.now
        (blocks_held fields.now (drawn blocks.now (taken seats.new)))
        sink.old sink.new 0 all.new.chunks 0 all.new.kept) }
{
    while let Some(worker) = workers.pop() {
        let Worker {
            seat,
            sink: other,
            ran,
            lacked,
        } = worker;
        if lacked {
            return Err(OutOfMemory);
        }
        if !seat.ended() {
            seats.put(seat);
            continue;
        }
        sink.join(other)?;
        all.join(ran);
        seats.put(seat);
    }
    Ok(())
}
