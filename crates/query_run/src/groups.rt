//! Queries that group.
ghost use Rattle.std.specs.Prelude.{◌≡◌, ◌+◌, ◌^◌, ◌<◌, ◌≤◌, ℕ, true, length, All, IsErrOf};
ghost use Rattle.std.specs.Option.{ForSome};
ghost use Rattle.snel_device.specs.Causes.{HasCause};
ghost use Rattle.check_meaning.specs.Aggregates.{is_grouped};
ghost use Rattle.program_meaning.specs.Simulation.{Simulates};
ghost use Rattle.scan_meaning.specs.Causes.{index_costs};
ghost use Rattle.scan_files.specs.Surveys.{Surveys};
ghost use Rattle.query_run.specs.Statuses.{IsAbsent};
ghost use Rattle.query_run.specs.Runs.{RunsTo};

use crate::plain::of_scan;
use crate::query_fault::QueryFault;
use crate::settings::Settings;
use crate::sum::QuerySum;
use batch_groups::GroupSink;
use batch_rows::gather_all;
use block_lines::LineHeads;
use group_answers::answer_of_groups;
use lane_ssa::{Job, Tally};
use query_check::Checked;
use scan_batches::put_rows;
use scan_files::Survey;
use snel_device::{Failed, Files, Gate, Out};
use snel_values::Words;
use std::alloc::Global;
use std::hash::{BuildHasher, DefaultHasher, RandomState};
use std::random::RandomSource;
use std::thread::Threads;

/// Answers a query that groups, of whose files the indexes were read: all blocks are read, then the rows of the groups are
/// made, sorted and cut, and then their lines are put. Nothing is put where there are more groups than the limit.
pub(crate) fn run_groups<R: Threads + Sync + RandomSource, F: Files, O: Out, G: Gate + Sync>(
    rt: &R,
    alloc: Global,
    checked: &Checked,
    job: &Job,
    names: &Words,
    settings: &Settings,
    found: &Survey,
    files: &mut F,
    out: &mut O,
    gate: &G,
) -> Result<QuerySum, QueryFault>
    requires some { 1 ≤ length names.now }
    requires some_workers { 0 < settings.now.workers }
    requires few_workers { settings.now.workers ≤ 64 }
    requires simulates { Simulates job.now checked.now }
    requires grouped { is_grouped checked.now ≡ true }
    requires surveyed { ForSome (F.told files.old) (λ told. Surveys checked.now names.now
        (length names.now) told found.now.fields found.now.places.items found.now.skipped) }
    requires named { All (λ p. p.file < length names.now) found.now.places.items }
    requires places { length found.now.places.items ≤ 2 ^ 26 }
    ensures ran { (start : ℕ) → start ≤ F.taken files.old
        → ForSome (F.told files.old)
        (λ told. F.taken files.old ≤ start + index_costs told names.now)
        → RunsTo checked.now settings.now.groups names.now (F.told files.old) result
        start (F.taken files.new) (O.holds out.old) (O.holds out.new) }
    ensures read_fault { HasCause (F.read_faults files.old) (F.read_faults files.new)
        (IsErrOf result QueryFault.ReadFault) }
    ensures write_fault { HasCause (O.faults out.old) (O.faults out.new)
        (IsErrOf result QueryFault.WriteFault) }
    ensures present { IsAbsent result → ⊥ }
    ensures told { F.told files.new ≡ F.told files.old }
    ensures same_misses { F.misses files.new ≡ F.misses files.old }
    ensures same_write_faults { F.write_faults files.new ≡ F.write_faults files.old }
{
    let Ok(heads) = LineHeads::of(alloc, job) else {
        return Err(QueryFault::OutOfMemory);
    };
    let Ok(mut sink) = GroupSink::new(alloc, job, settings.groups, seed_of(rt)) else {
        return Err(QueryFault::OutOfMemory);
    };
    let mut ran = Tally::none();
    match gather_all(
        rt,
        alloc,
        gate,
        settings.workers,
        checked.query(),
        job,
        &heads,
        names,
        &found.fields,
        &found.places,
        files,
        &mut sink,
        &mut ran,
    ) {
        Ok(()) => {}
        Err(fault) => return Err(of_scan(fault)),
    }
    let Ok(finished) = sink.finish(alloc, job) else {
        return Err(QueryFault::OutOfMemory);
    };
    let Some(groups) = finished else {
        return Err(QueryFault::Groups);
    };
    let Ok(rows) = answer_of_groups(alloc, checked, groups) else {
        return Err(QueryFault::OutOfMemory);
    };
    match put_rows(&rows, out) {
        Ok(()) => Ok(QuerySum {
            lines: rows.len() as u64,
            read: found.places.len() as u32,
            skipped: found.skipped,
            ran,
        }),
        Err(Failed) => Err(QueryFault::WriteFault),
    }
}

// The hasher with which the hashes of keys begin. Keys come from outside and may be chosen to collide, so it's another one in
// each run, where the source of random bytes answers. No answer depends on it.
fn seed_of<R: RandomSource>(rt: &R) -> DefaultHasher {
    match RandomState::new(rt) {
        Ok(state) => state.build_hasher(),
        Err(_) => DefaultHasher::new(),
    }
}
