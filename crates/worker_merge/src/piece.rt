//! The lines of one block.

ghost use Rattle.std.specs.Prelude.{◌≡◌, false, IfOk, IfSome, IfNone};
ghost use Rattle.block_lines.specs.HeadTexts.{AreHeads};
ghost use Rattle.scan_meaning.specs.Blocks.{good_rows};
ghost use Rattle.scan_files.specs.Places.{block_held};
ghost use Rattle.worker_merge.specs.Hands.{IsTested};
ghost use Rattle.worker_merge.specs.Pieces.{IsPieceOf};

use crate::each::scan_one;
use block_lines::{LineHeads, Lines};
use lane_ssa::{Frame, Job, Tally};
use scan_files::Stored;
use snel_values::{OutOfMemory, Words};
use std::alloc::Global;

/// The lines of the block with this number in its batch, and what was run over it.
#[derive(Drop)]
pub(crate) struct Piece {
    pub(crate) number: u32,
    pub(crate) lines: Lines,
    pub(crate) ran: Tally,
}

/// Makes the lines of a block with this number. None where the block is bad.
pub(crate) fn scan_piece<'b>(
    alloc: Global,
    job: &'b Job,
    heads: &LineHeads,
    fields: &Words,
    number: u32,
    block: &'b Stored,
) -> Result<Option<Piece>, OutOfMemory>
    requires heads { AreHeads job.now.ends.outs heads.now }
    ensures piece { IfOk result (λ made. IfSome made
        (λ p. IsPieceOf job.now (block_held fields.now block.now) p)) }
    ensures number { IfOk result (λ made. IfSome made (λ p. p.number ≡ number)) }
    ensures bad { IfOk result (λ made. IfNone made
        (IsTested (good_rows (block_held fields.now block.now)) false)) }
{
    let Ok(mut frame) = Frame::new(alloc, job) else {
        return Err(OutOfMemory);
    };
    let mut lines = Lines::new(alloc);
    match scan_one(alloc, &mut frame, heads, fields, block, &mut lines) {
        Ok(true) => Ok(Some(Piece {
            number,
            lines,
            ran: frame.into_tally(),
        })),
        Ok(false) => Ok(None),
        Err(OutOfMemory) => Err(OutOfMemory),
    }
}
