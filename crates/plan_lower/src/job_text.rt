//! The listing of a job.
ghost use Rattle.std.specs.Prelude.{◌≡◌, IfOk};
ghost use Rattle.plan_lower.specs.Listing.{listing_text};

use crate::end_lines::put_ends;
use crate::instr_lines::put_program;
use lane_ssa::Job;
use snel_values::{Bytes, OutOfMemory};
use std::alloc::Global;

/// The text of a job: a line for each instruction; then the mask of the rows that pass; then `star`, or the name and the
/// register of each output; and then a line for each sort key, group key and aggregate. Value registers are `r0`, `r1` and so
/// on, masks `m0`, `m1` and so on, each in the order of making. It fails for want of memory alone.
#[tactic(auto, unfolding(crate::specs::Listing::listing_text))]
pub fn listing(alloc: Global, job: &Job) -> Result<Bytes, OutOfMemory>
    ensures { IfOk result (λ text. text ≡ listing_text job.now) }
{
    let mut text = Bytes::new(alloc);
    put_program(&mut text, job.instrs())?;
    put_ends(&mut text, job.ends())?;
    Ok(text)
}
