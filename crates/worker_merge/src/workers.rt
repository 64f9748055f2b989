//! Workers, each with a seat at the board of a batch.

ghost use Rattle.std.specs.Prelude.{◌≡◌, ℕ, ◌<◌, [], length, All, IfOk, slice_index_or};
ghost use Rattle.block_lines.specs.HeadTexts.{AreHeads};
ghost use Rattle.scan_core.specs.Board.{empty_view};
ghost use Rattle.scan_board.specs.declared.board.Board.{Board};
ghost use Rattle.scan_board.specs.Seats.{blocks_of, BelongsTo, view_of};
ghost use Rattle.worker_merge.specs.Draws.{IsReady, IsFresh, HasScanned};

use crate::drawing::scan_drawn;
use crate::shared::SharedSink;
use block_lines::LineHeads;
use lane_ssa::{Job, Tally};
use scan_board::{Board, BoardSeat, Seats};
use scan_files::Stored;
use snel_device::Gate;
use snel_values::{OutOfMemory, Words};
use std::alloc::Global;
use std::thread;
use std::thread::Threads;

/// A worker: its seat, a sink and counts of its own, and whether it lacked memory.
#[derive(Drop)]
pub(crate) struct Worker<S: Drop> {
    pub(crate) seat: BoardSeat,
    pub(crate) sink: S,
    pub(crate) ran: Tally,
    pub(crate) lacked: bool,
}

/// A worker for each of these seats of a board, with a fresh sink of the root's.
pub(crate) fn hire<S: SharedSink>(
    alloc: Global,
    root: &S,
    seats: &mut Seats,
) -> Result<Vec<Worker<S>>, OutOfMemory>
    ensures fresh { (b : Board) → All (λ s. BelongsTo b s × (view_of s ≡ empty_view)) seats.old
        → IfOk result (λ workers. All (IsFresh S.begins root.now b) workers.items) }
    ensures count { IfOk result (λ workers. length workers.items ≡ length seats.old) }
    ensures none { IfOk result (λ _. seats.new ≡ []) }
{
    let mut workers = Vec::new(alloc);
    while let Some(seat) = seats.take() {
        workers.push(Worker {
            seat,
            sink: root.fresh(alloc)?,
            ran: Tally::none(),
            lacked: false,
        })?;
    }
    Ok(workers)
}

/// Has each worker draw and scan blocks, each in a thread of its own.
pub(crate) fn scan_all<R: Threads + Sync, G: Gate + Sync, S: SharedSink>(
    rt: &R,
    alloc: Global,
    gate: &G,
    board: &Board,
    job: &Job,
    heads: &LineHeads,
    fields: &Words,
    blocks: &[Stored],
    workers: &mut [Worker<S>],
)
    requires blocks { blocks_of board.now ≡ length blocks.now }
    requires ready { All (IsReady board.now) workers.old }
    requires takes { All (λ w. S.takes w.sink job.now) workers.old }
    requires heads { AreHeads job.now.ends.outs heads.now }
    ensures scanned { (i : ℕ) (d : _) → i < length workers.old → HasScanned S.grew job.now
        fields.now blocks.now board.now (slice_index_or workers.old i d)
        (slice_index_or workers.new i d) }
    ensures count { length workers.new ≡ length workers.old }
{
    let threads = workers.len().max(1);
    thread::for_each_mut(
        rt,
        workers,
        threads,
        &|_, worker: &mut Worker<S>|
            requires ready { IsReady board.now worker.old }
            requires takes { S.takes worker.old.sink job.now }
            requires blocks { blocks_of board.now ≡ length blocks.now }
            requires heads { AreHeads job.now.ends.outs heads.now }
        { scan_drawn(alloc, gate, board, job, heads, fields, blocks, worker) },
    );
}
