//! Queries that sort and don't group.
ghost use Rattle.std.specs.Prelude.{◌≡◌, ◌+◌, ◌^◌, ◌<◌, ◌≤◌, ℕ, false, length, All, IsErrOf};
ghost use Rattle.std.specs.Option.{ForSome};
ghost use Rattle.snel_device.specs.Causes.{HasCause};
ghost use Rattle.check_meaning.specs.Aggregates.{is_grouped};
ghost use Rattle.program_meaning.specs.Simulation.{Simulates};
ghost use Rattle.scan_meaning.specs.Batches.{is_plain};
ghost use Rattle.scan_meaning.specs.Causes.{index_costs};
ghost use Rattle.scan_files.specs.Surveys.{Surveys};
ghost use Rattle.query_run.specs.Statuses.{IsAbsent};
ghost use Rattle.query_run.specs.Runs.{RunsTo};

use crate::plain::of_scan;
use crate::query_fault::QueryFault;
use crate::settings::Settings;
use crate::sum::QuerySum;
use lane_ssa::Job;
use query_check::Checked;
use scan_batches::put_rows;
use scan_files::Survey;
use snel_device::{Failed, Files, Gate, Out};
use snel_values::Words;
use sorted_rows::sort_rows;
use std::alloc::Global;
use std::thread::Threads;

/// Answers a query with ORDER BY that isn't grouped, of whose files the indexes were read: all blocks are read, and their rows
/// are sorted and cut, before the first line is put.
pub(crate) fn run_sorted<R: Threads + Sync, F: Files, O: Out, G: Gate + Sync>(
    rt: &R,
    alloc: Global,
    checked: &Checked,
    job: &Job,
    names: &Words,
    settings: &Settings,
    found: &Survey,
    files: &mut F,
    out: &mut O,
    gate: &G,
) -> Result<QuerySum, QueryFault>
    requires some { 1 ≤ length names.now }
    requires some_workers { 0 < settings.now.workers }
    requires few_workers { settings.now.workers ≤ 64 }
    requires simulates { Simulates job.now checked.now }
    requires ungrouped { is_grouped checked.now ≡ false }
    requires sorts { is_plain checked.now ≡ false }
    requires surveyed { ForSome (F.told files.old) (λ told. Surveys checked.now names.now
        (length names.now) told found.now.fields found.now.places.items found.now.skipped) }
    requires named { All (λ p. p.file < length names.now) found.now.places.items }
    requires places { length found.now.places.items ≤ 2 ^ 26 }
    ensures ran { (start : ℕ) → start ≤ F.taken files.old
        → ForSome (F.told files.old)
        (λ told. F.taken files.old ≤ start + index_costs told names.now)
        → RunsTo checked.now settings.now.groups names.now (F.told files.old) result
        start (F.taken files.new) (O.holds out.old) (O.holds out.new) }
    ensures read_fault { HasCause (F.read_faults files.old) (F.read_faults files.new)
        (IsErrOf result QueryFault.ReadFault) }
    ensures write_fault { HasCause (O.faults out.old) (O.faults out.new)
        (IsErrOf result QueryFault.WriteFault) }
    ensures present { IsAbsent result → ⊥ }
    ensures told { F.told files.new ≡ F.told files.old }
    ensures same_misses { F.misses files.new ≡ F.misses files.old }
    ensures same_write_faults { F.write_faults files.new ≡ F.write_faults files.old }
{
    let sorted = match sort_rows(
        rt,
        alloc,
        gate,
        settings.workers,
        checked.query(),
        job,
        names,
        &found.fields,
        &found.places,
        files,
    ) {
        Ok(sorted) => sorted,
        Err(fault) => return Err(of_scan(fault)),
    };
    match put_rows(&sorted.rows, out) {
        Ok(()) => Ok(QuerySum {
            lines: sorted.rows.len() as u64,
            read: found.places.len() as u32,
            skipped: found.skipped,
            ran: sorted.ran,
        }),
        Err(Failed) => Err(QueryFault::WriteFault),
    }
}
