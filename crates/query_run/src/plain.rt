//! Queries that neither group nor sort.
ghost use Rattle.std.specs.Prelude.{◌≡◌, ◌+◌, ◌^◌, ◌<◌, ◌≤◌, ℕ, true, length, All, IsErrOf};
ghost use Rattle.std.specs.Option.{ForSome};
ghost use Rattle.snel_device.specs.Causes.{HasCause};
ghost use Rattle.query_tree.specs.Queries.{query_view};
ghost use Rattle.program_meaning.specs.Simulation.{Simulates};
ghost use Rattle.scan_meaning.specs.Batches.{is_plain};
ghost use Rattle.scan_meaning.specs.Causes.{index_costs};
ghost use Rattle.scan_files.specs.Surveys.{Surveys};
ghost use Rattle.query_run.specs.Faults.{scan_fault};
ghost use Rattle.query_run.specs.Runs.{RunsTo};
ghost use Rattle.query_run.specs.Statuses.{IsAbsent};

use crate::query_fault::QueryFault;
use crate::settings::Settings;
use crate::sum::QuerySum;
use batch_lines::scan_all;
use block_lines::LineHeads;
use lane_ssa::{Job, Tally};
use query_tree::Query;
use scan_batches::{Cut, ScanFault};
use scan_files::Survey;
use snel_device::{Files, Gate, Out};
use snel_values::Words;
use std::alloc::Global;
use std::thread::Threads;

/// Answers a query that neither groups nor sorts, of whose files the indexes were read: the lines of 64 blocks are put before
/// the next are read.
pub(crate) fn run_plain<R: Threads + Sync, F: Files, O: Out, G: Gate + Sync>(
    rt: &R,
    alloc: Global,
    query: &Query,
    job: &Job,
    names: &Words,
    settings: &Settings,
    found: &Survey,
    files: &mut F,
    out: &mut O,
    gate: &G,
) -> Result<QuerySum, QueryFault>
    requires some { 1 ≤ length names.now }
    requires some_workers { 0 < settings.now.workers }
    requires few_workers { settings.now.workers ≤ 64 }
    requires simulates { Simulates job.now (query_view query.now) }
    requires plain { is_plain (query_view query.now) ≡ true }
    requires surveyed { ForSome (F.told files.old) (λ told. Surveys (query_view query.now) names.now
        (length names.now) told found.now.fields found.now.places.items found.now.skipped) }
    requires named { All (λ p. p.file < length names.now) found.now.places.items }
    requires places { length found.now.places.items ≤ 2 ^ 26 }
    ensures ran { (start : ℕ) → start ≤ F.taken files.old
        → ForSome (F.told files.old)
        (λ told. F.taken files.old ≤ start + index_costs told names.now)
        → RunsTo (query_view query.now) settings.now.groups names.now (F.told files.old) result
        start (F.taken files.new) (O.holds out.old) (O.holds out.new) }
    ensures read_fault { HasCause (F.read_faults files.old) (F.read_faults files.new)
        (IsErrOf result QueryFault.ReadFault) }
    ensures write_fault { HasCause (O.faults out.old) (O.faults out.new)
        (IsErrOf result QueryFault.WriteFault) }
    ensures present { IsAbsent result → ⊥ }
    ensures told { F.told files.new ≡ F.told files.old }
    ensures same_misses { F.misses files.new ≡ F.misses files.old }
    ensures same_write_faults { F.write_faults files.new ≡ F.write_faults files.old }
{
    let Ok(heads) = LineHeads::of(alloc, job) else {
        return Err(QueryFault::OutOfMemory);
    };
    let cut = Cut {
        skip: query.skip,
        take: query.take,
    };
    let mut ran = Tally::none();
    match scan_all(
        rt,
        alloc,
        gate,
        settings.workers,
        query,
        job,
        &heads,
        &cut,
        names,
        &found.fields,
        &found.places,
        files,
        out,
        &mut ran,
    ) {
        Ok(done) => Ok(QuerySum {
            lines: done.lines,
            read: done.read,
            skipped: found.skipped,
            ran,
        }),
        Err(fault) => Err(of_scan(fault)),
    }
}

/// What stands against the blocks, as a fault of the query.
pub(crate) fn of_scan(fault: ScanFault) -> QueryFault
    ensures { result ≡ scan_fault fault }
{
    match fault {
        ScanFault::Damaged { file, block } => QueryFault::Damaged { file, block },
        ScanFault::ReadFault => QueryFault::ReadFault,
        ScanFault::WriteFault => QueryFault::WriteFault,
        ScanFault::OutOfMemory => QueryFault::OutOfMemory,
    }
}
