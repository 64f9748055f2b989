//! The listing of a text's job.
ghost use Rattle.std.specs.Prelude.{ℕ, List, IsErrOf};
ghost use Rattle.snel_device.specs.Causes.{Rose};
ghost use Rattle.query_run.specs.Statuses.{status_after};
ghost use Rattle.query_run.specs.Jobs.{Compiles};
ghost use Rattle.query_run.specs.Explained.{EndsExplained, HasExplainCause};

use crate::compile::compile;
use crate::query_fault::QueryFault;
use lane_ssa::Job;
use plan_lower::listing;
use snel_device::{Failed, Out};
use snel_values::OutOfMemory;
use std::alloc::Global;

/// Writes the listing of the job of a text, by one put. A text is refused as a query over a file refuses it.
pub fn explain<O: Out>(alloc: Global, sql: &str, out: &mut O) -> Result<(), QueryFault>
    // The listing of a job that simulates the accepted query is written: all of it at Ok, a prefix of it where the put failed,
    // and else nothing.
    ensures ends { EndsExplained sql.now (status_after result) (O.holds out.old) (O.holds out.new) }
    // Each fault has its cause.
    ensures cause { HasExplainCause sql.now result }
    ensures write_fault { IsErrOf result QueryFault.WriteFault
        → Rose (O.faults out.old) (O.faults out.new) }
{
    match compile(alloc, sql) {
        Ok(job) => put_listing(alloc, &job, out),
        Err(fault) => Err(fault),
    }
}

/// Writes the listing of a job.
fn put_listing<O: Out>(alloc: Global, job: &Job, out: &mut O) -> Result<(), QueryFault>
    ensures ends { (sql : List ℕ) → Compiles sql job.now
        → EndsExplained sql (status_after result) (O.holds out.old) (O.holds out.new) }
    ensures cause { (sql : List ℕ) → Compiles sql job.now → HasExplainCause sql result }
    ensures write_fault { IsErrOf result QueryFault.WriteFault
        → Rose (O.faults out.old) (O.faults out.new) }
{
    let text = match listing(alloc, job) {
        Ok(text) => text,
        Err(OutOfMemory) => return Err(QueryFault::OutOfMemory),
    };
    match out.put(text.as_slice()) {
        Ok(()) => Ok(()),
        Err(Failed) => Err(QueryFault::WriteFault),
    }
}
