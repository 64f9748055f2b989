//! Where the rows of a scan go.

ghost use Rattle.std.specs.Prelude.{◌≡◌, ◌<◌, ◌+◌, ◌++◌, ◌∷◌, [], List, Some, length, slice_get, OnOk};
ghost use Rattle.value_meaning.specs.Val.{Val};
ghost use Rattle.program_meaning.specs.Jobs.{Job};
ghost use Rattle.lane_ssa.specs.ChunksOf.{rows_from};
ghost use Rattle.block_lines.specs.HeadTexts.{AreHeads};
ghost use Rattle.block_lines.specs.Ran.{HasRunOver};

use crate::heads::LineHeads;
use block_file::Block;
use lane_ssa::Frame;
use snel_values::OutOfMemory;
use std::alloc::Global;

/// Takes the rows that pass, one after the other, from the registers that a frame holds in their lanes.
pub trait RowSink {
    /// It takes rows of the job.
    ghost takes: { Self → Job → Type 0 };

    /// It grew by what the job makes of these rows, in order.
    ghost grew: { Self → Self → Job → List Val → Type 0 };

    /// Takes the row in a lane, which is below 16, of the chunk from `first` on that the frame ran over.
    fn take<'b>(
        &mut self,
        alloc: Global,
        heads: &LineHeads,
        frame: &Frame<'b>,
        block: &Block<'b>,
        first: u32,
        lane: u32,
    ) -> Result<(), OutOfMemory>
        requires takes { takes self.old frame.now.job }
        requires lane { lane < 16 }
        requires heads { AreHeads frame.now.job.ends.outs heads.now }
        requires within { first + lane < length block.now.1 }
        requires ran { HasRunOver block.now.0 (rows_from first block.now.1) frame.now }
        ensures { (row : Val) → slice_get (rows_from first block.now.1) lane ≡ Some row
            → OnOk result (grew self.old self.new frame.now.job (row ∷ [])) };

    /// Where it stays as it is, it grew by no rows.
    ghost grew_by_none: { (s : Self) (job : Job) → grew s s job [] };

    /// Where it grew twice, it grew by the rows of both.
    ghost grew_by_both: { (a b c : Self) (job : Job) (xs ys : List Val)
        → grew a b job xs → grew b c job ys → grew a c job (xs ++ ys) };

    /// Where it grew, it takes rows as before.
    ghost takes_more: { (a b : Self) (job : Job) (rows : List Val)
        → takes a job → grew a b job rows → takes b job };
}
