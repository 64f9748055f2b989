//! What one worker does: it draws blocks at the board and scans them.

ghost use Rattle.std.specs.Prelude.{◌≡◌, ◌<◌, ◌≤◌, false, length, IfSome, IfNone};
ghost use Rattle.block_lines.specs.HeadTexts.{AreHeads};
ghost use Rattle.scan_core.specs.Board.{claimed};
ghost use Rattle.scan_board.specs.Seats.{blocks_of, BelongsTo, view_of};
ghost use Rattle.worker_merge.specs.Draws.{Looked, IsLast, IsReady, HasScanned};

use crate::each::scan_one;
use crate::shared::SharedSink;
use crate::workers::Worker;
use block_lines::LineHeads;
use lane_ssa::{Frame, Job};
use scan_board::{Board, BoardSeat, Go};
use scan_files::Stored;
use snel_device::Gate;
use snel_values::{OutOfMemory, Words};
use std::alloc::Global;

/// The number of the next block to scan. None where none is left, or where a block below the next one is known to be bad. It
/// passes the gate between the draw and the look at what other workers met.
pub(crate) fn draw<G: Gate>(gate: &G, board: &Board, seat: &mut BoardSeat) -> Option<u32>
    requires belongs { BelongsTo board.now seat.old }
    requires going { (view_of seat.old).ended ≡ false }
    ensures belongs { BelongsTo board.now seat.new }
    ensures there { IfSome result (λ n. n < blocks_of board.now) }
    ensures drawn { IfSome result (λ n. Looked (claimed (view_of seat.old) n) (view_of seat.new)) }
    ensures count { IfSome result (λ n. length (view_of seat.old).claims ≤ n) }
    ensures last { IfNone result (IsLast (view_of seat.old) (view_of seat.new)) }
{
    let Some(number) = board.claim(seat) else {
        return None;
    };
    gate.pass(number);
    match board.look(seat) {
        Go::Harm(lower) => {
            if lower < number {
                return None;
            }
        }
        Go::Enough => {}
        Go::On => {}
    }
    Some(number)
}

/// Draws blocks and scans them, until none is left, one is bad, or a lower one is known to be.
pub(crate) fn scan_drawn<G: Gate, S: SharedSink>(
    alloc: Global,
    gate: &G,
    board: &Board,
    job: &Job,
    heads: &LineHeads,
    fields: &Words,
    blocks: &[Stored],
    worker: &mut Worker<S>,
)
    requires ready { IsReady board.now worker.old }
    requires takes { S.takes worker.old.sink job.now }
    requires blocks { blocks_of board.now ≡ length blocks.now }
    requires heads { AreHeads job.now.ends.outs heads.now }
    ensures { HasScanned S.grew job.now fields.now blocks.now board.now worker.old worker.new }
{
    let Ok(mut frame) = Frame::new(alloc, job) else {
        worker.lacked = true;
        return;
    };
    while let Some(number) = draw(gate, board, &mut worker.seat) {
        let block = &blocks[number as usize];
        match scan_one(alloc, &mut frame, heads, fields, block, &mut worker.sink) {
            // No number of rows is enough, so none is told.
            Ok(true) => board.report_rows(&mut worker.seat, 0),
            Ok(false) => {
                board.report_damage(&mut worker.seat, number);
                return;
            }
            Err(OutOfMemory) => {
                worker.lacked = true;
                return;
            }
        }
    }
    worker.ran = frame.into_tally();
}
