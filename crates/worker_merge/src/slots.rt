//! A slot for each block of a batch.

ghost use Rattle.std.specs.Prelude.{◌≡◌, ℕ, ◌<◌, None, List, length, All, IfOk};
ghost use Rattle.program_meaning.specs.Jobs.{Job};
ghost use Rattle.scan_files.specs.Places.{Held};
ghost use Rattle.worker_merge.specs.Pieces.{IsOwn, IsPiece, AreOwn};

use crate::collecting::Collector;
use crate::piece::Piece;
use lane_ssa::Job;
use scan_files::Stored;
use snel_values::{OutOfMemory, Words};
use std::alloc::Global;

/// A slot for each block, with its lines where a worker made them.
pub(crate) fn slots_of(
    alloc: Global,
    job: &Job,
    fields: &Words,
    blocks: &[Stored],
    mut workers: Vec<Collector>,
) -> Result<Vec<Option<Piece>>, OutOfMemory>
    requires own { All (λ w. All (IsPiece job.now fields.now blocks.now) w.pieces.items)
        workers.items }
    ensures { IfOk result (λ slots. AreOwn job.now fields.now blocks.now slots.items) }
{
    let mut slots = match empty_slots(alloc, blocks.len()) {
        Ok(slots) => slots,
        Err(OutOfMemory) => return Err(OutOfMemory),
    };
    while let Some(worker) = workers.pop() {
        let Collector {
            seat: _,
            pieces,
            lacked,
        } = worker;
        if lacked {
            return Err(OutOfMemory);
        }
        put_all(job, fields, blocks, pieces, &mut slots);
    }
    Ok(slots)
}

// So many slots, which hold nothing.
fn empty_slots(alloc: Global, count: usize) -> Result<Vec<Option<Piece>>, OutOfMemory>
    ensures count { IfOk result (λ slots. length slots.items ≡ count) }
    ensures none { IfOk result (λ slots. All (λ o. o ≡ None) slots.items) }
{
    let mut slots = Vec::new(alloc);
    for _ in 0..count {
        slots.push(None)?;
    }
    Ok(slots)
}

// Puts each piece into the slot of its number.
fn put_all(
    job: &Job,
    fields: &Words,
    blocks: &[Stored],
    mut pieces: Vec<Piece>,
    slots: &mut [Option<Piece>],
)
    requires pieces { All (IsPiece job.now fields.now blocks.now) pieces.items }
    requires own { AreOwn job.now fields.now blocks.now slots.old }
    ensures { AreOwn job.now fields.now blocks.now slots.new }
{
    while let Some(piece) = pieces.pop() {
        let number = piece.number as usize;
        slots[number] = Some(piece);
    }
}

/// Takes out what the slot of this number holds.
pub(crate) fn take_from(slots: &mut Vec<Option<Piece>>, number: usize) -> Option<Piece>
    requires { number < length slots.old.items }
    ensures { (job : Job) (fields : List (List ℕ)) (hs : List Held)
        → AreOwn job fields hs slots.old.items
        → IsOwn job fields hs number result × AreOwn job fields hs slots.new.items }
{
    slots[number].take()
}
