//! Workers that draw blocks at a board and keep the lines of each apart.

ghost use Rattle.std.specs.Prelude.{◌≡◌, ℕ, ◌<◌, [], length, All, IfOk, slice_index_or};
ghost use Rattle.block_lines.specs.HeadTexts.{AreHeads};
ghost use Rattle.scan_core.specs.Board.{empty_view};
ghost use Rattle.scan_board.specs.declared.board.Board.{Board};
ghost use Rattle.scan_board.specs.Seats.{blocks_of, BelongsTo, view_of};
ghost use Rattle.worker_merge.specs.Pieces.{IsIdle, IsPiece};

use crate::drawing::draw;
use crate::piece::{Piece, scan_piece};
use block_lines::LineHeads;
use lane_ssa::Job;
use scan_board::{Board, BoardSeat, Seats};
use scan_files::Stored;
use snel_device::Gate;
use snel_values::{OutOfMemory, Words};
use std::alloc::Global;
use std::thread;
use std::thread::Threads;

/// A worker: its seat, the lines of the blocks that it drew, and whether it lacked memory.
#[derive(Drop)]
pub(crate) struct Collector {
    pub(crate) seat: BoardSeat,
    pub(crate) pieces: Vec<Piece>,
    pub(crate) lacked: bool,
}

/// A worker for each of these seats of a board.
pub(crate) fn seat_collectors(
    alloc: Global,
    seats: &mut Seats,
) -> Result<Vec<Collector>, OutOfMemory>
    ensures { (b : Board) → All (λ s. BelongsTo b s × (view_of s ≡ empty_view)) seats.old
        → IfOk result (λ workers. All (IsIdle b) workers.items) }
{
    let mut workers = Vec::new(alloc);
    while let Some(seat) = seats.take() {
        workers.push(Collector {
            seat,
            pieces: Vec::new(alloc),
            lacked: false,
        })?;
    }
    Ok(workers)
}

/// Has each worker draw blocks and make their lines, each in a thread of its own.
pub(crate) fn collect_all<R: Threads + Sync, G: Gate + Sync>(
    rt: &R,
    alloc: Global,
    gate: &G,
    board: &Board,
    job: &Job,
    heads: &LineHeads,
    fields: &Words,
    blocks: &[Stored],
    workers: &mut [Collector],
)
    requires blocks { blocks_of board.now ≡ length blocks.now }
    requires idle { All (IsIdle board.now) workers.old }
    requires heads { AreHeads job.now.ends.outs heads.now }
    ensures own { (i : ℕ) (d : _) → i < length workers.old
        → All (IsPiece job.now fields.now blocks.now)
        (slice_index_or workers.new i d).pieces.items }
    ensures count { length workers.new ≡ length workers.old }
{
    let threads = workers.len().max(1);
    thread::for_each_mut(
        rt,
        workers,
        threads,
        &|_, worker: &mut Collector|
            requires idle { IsIdle board.now worker.old }
            requires blocks { blocks_of board.now ≡ length blocks.now }
            requires heads { AreHeads job.now.ends.outs heads.now }
        { collect(alloc, gate, board, job, heads, fields, blocks, worker) },
    );
}

// Draws blocks and makes their lines, until none is left, one is bad, or a lower one is known to be.
fn collect<G: Gate>(
    alloc: Global,
    gate: &G,
    board: &Board,
    job: &Job,
    heads: &LineHeads,
    fields: &Words,
    blocks: &[Stored],
    worker: &mut Collector,
)
    requires idle { IsIdle board.now worker.old }
    requires blocks { blocks_of board.now ≡ length blocks.now }
    requires heads { AreHeads job.now.ends.outs heads.now }
    ensures { All (IsPiece job.now fields.now blocks.now) worker.new.pieces.items }
{
    while let Some(number) = draw(gate, board, &mut worker.seat) {
        match collect_one(
            alloc,
            job,
            heads,
            fields,
            blocks,
            number,
            &mut worker.pieces,
        ) {
            Ok(true) => {}
            Ok(false) => {
                board.report_damage(&mut worker.seat, number);
                return;
            }
            Err(OutOfMemory) => {
                worker.lacked = true;
                return;
            }
        }
    }
}

// Adds the lines of the block with this number, or answers that it is bad.
fn collect_one(
    alloc: Global,
    job: &Job,
    heads: &LineHeads,
    fields: &Words,
    blocks: &[Stored],
    number: u32,
    pieces: &mut Vec<Piece>,
) -> Result<bool, OutOfMemory>
    requires there { number < length blocks.now }
    requires heads { AreHeads job.now.ends.outs heads.now }
    requires own { All (IsPiece job.now fields.now blocks.now) pieces.old.items }
    ensures { All (IsPiece job.now fields.now blocks.now) pieces.new.items }
{
    let block = &blocks[number as usize];
    match scan_piece(alloc, job, heads, fields, number, block) {
        Ok(Some(piece)) => match pieces.push(piece) {
            Ok(()) => Ok(true),
            Err(_) => Err(OutOfMemory),
        },
        Ok(None) => Ok(false),
        Err(OutOfMemory) => Err(OutOfMemory),
    }
}
