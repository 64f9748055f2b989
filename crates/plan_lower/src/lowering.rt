//! From accepted queries to jobs.
ghost use Rattle.std.specs.Prelude.{◌≡◌, ◌∷◌, [], IfOk, IfSome};
ghost use Rattle.tree_meaning.specs.WellFormed.{IsFormed};
ghost use Rattle.program_meaning.specs.Instructions as instr;
ghost use Rattle.program_meaning.specs.Simulation.{Simulates};
ghost use Rattle.plan_lower.specs.Emitting.{IsBegun, Keeps};

use crate::emitting::emit_test;
use crate::endings::emit_ends;
use lane_ssa::{Builder, Instr, Job};
use query_check::Checked;
use query_tree::Operand;
use snel_values::OutOfMemory;
use std::alloc::Global;

/// The mask register of the live lanes, which each program makes first.
const LIVE: u32 = 0;

/// The job of an accepted query. Its program makes the mask of all rows and the row, then what WHERE asks and the mask of the
/// rows that pass, and then under that mask each output and what each order key stands for, or, where the query is grouped,
/// each group key and the operand of each aggregate. LIMIT, OFFSET and HAVING, and which order keys fall, are no part of a job.
/// It fails for want of memory alone; more registers than a `u32` counts are such a want.
pub fn lower(alloc: Global, checked: &Checked) -> Result<Job, OutOfMemory>
    ensures { IfOk result (λ j. Simulates j checked.now) }
{
    let mut builder = begin(alloc)?;
    let keep = emit_filter(alloc, &mut builder, &checked.query().filter, LIVE)?;
    let ends = emit_ends(alloc, &mut builder, checked, keep)?;
    Ok(builder.finish(ends))
}

/// The program that makes the mask of the live lanes and the row.
fn begin(alloc: Global) -> Result<Builder, OutOfMemory>
    ensures { IfOk result (λ b. b ≡ instr.all ∷ instr.root 0 ∷ []) }
{
    let mut builder = Builder::new(alloc);
    let mask = builder.put(Instr::All)?;
    builder.put(Instr::Root { mask })?;
    Ok(builder)
}

/// Adds the instructions of WHERE, if it stands; the mask of the lanes that pass.
fn emit_filter(
    alloc: Global,
    builder: &mut Builder,
    filter: &Option<Operand>,
    mask: u32,
) -> Result<u32, OutOfMemory>
    requires begun { IsBegun builder.old mask }
    requires formed { IfSome filter.now IsFormed }
    ensures { IfOk result (λ k. Keeps builder.old builder.new filter.now mask k) }
{
    match filter {
        None => Ok(mask),
        Some(test) => emit_test(alloc, builder, test, mask),
    }
}
