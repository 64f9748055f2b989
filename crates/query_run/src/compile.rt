//! From the text of a query to its job.
ghost use Rattle.std.specs.Prelude.{ℕ, List, IfOk, IfErr};
ghost use Rattle.query_meaning.specs.Faults.{ComesTo, is_query};
ghost use Rattle.query_run.specs.Jobs.{Compiles};
ghost use Rattle.query_run.specs.Faults.{SaysOfText};

use crate::accept::accept;
use crate::query_fault::QueryFault;
use lane_ssa::Job;
use plan_lower::lower;
use query_check::Checked;
use snel_values::OutOfMemory;
use std::alloc::Global;

/// The job of a text that is accepted.
pub fn compile(alloc: Global, sql: &str) -> Result<Job, QueryFault>
    ensures compiled { IfOk result (λ job. Compiles sql.now job) }
    ensures refused { IfErr result (λ fault. SaysOfText sql.now fault) }
{
    match accept(alloc, sql) {
        Ok(checked) => job_of(alloc, &checked),
        Err(fault) => Err(fault),
    }
}

/// The job of an accepted query that was read from a text.
pub(crate) fn job_of(alloc: Global, checked: &Checked) -> Result<Job, QueryFault>
    ensures compiled { IfOk result
        (λ job. (sql : List ℕ) → ComesTo sql (is_query checked.now) → Compiles sql job) }
    ensures refused { IfErr result
        (λ fault. (sql : List ℕ) → ComesTo sql (is_query checked.now) → SaysOfText sql fault) }
{
    checked.know();
    match lower(alloc, checked) {
        Ok(job) => Ok(job),
        Err(OutOfMemory) => Err(QueryFault::OutOfMemory),
    }
}
