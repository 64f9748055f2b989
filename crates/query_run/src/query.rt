//! A query over files: from its text to its lines.
ghost use Rattle.std.specs.Prelude.{◌≡◌, ◌+◌, ◌^◌, ◌<◌, ◌≤◌, ℕ, true, length, All, IfOk, IsErrOf};
ghost use Rattle.std.specs.Option.{ForSome};
ghost use Rattle.snel_device.specs.Causes.{Rose, HasCause};
ghost use Rattle.tree_meaning.specs.Tree.{Query as QueryTree};
ghost use Rattle.program_meaning.specs.Simulation.{Simulates};
ghost use Rattle.scan_meaning.specs.Causes.{index_costs};
ghost use Rattle.scan_files.specs.Surveys.{Surveys};
ghost use Rattle.query_run.specs.Queries.{Accepts};
ghost use Rattle.query_run.specs.Statuses.{status_after, IsAbsent};
ghost use Rattle.query_run.specs.Headline.{Headline};
ghost use Rattle.query_run.specs.Ends.{Ends, Reads};
ghost use Rattle.query_run.specs.Faults.{HasItsCause, IsQuiet, StopsSo, query_fault};
ghost use Rattle.query_run.specs.Runs.{RunsTo};
ghost use Rattle.query_run.specs.Sums.{SumsUp};

use crate::accept::accept;
use crate::compile::job_of;
use crate::groups::run_groups;
use crate::plain::run_plain;
use crate::query_fault::QueryFault;
use crate::settings::Settings;
use crate::sorted::run_sorted;
use crate::sum::QuerySum;
use lane_ssa::Job;
use query_check::Checked;
use scan_files::{FilesFault, Survey, find_places};
use snel_device::{Files, Gate, Out};
use snel_values::Words;
use std::alloc::Global;
use std::random::RandomSource;
use std::thread::Threads;

/// Answers a query over 1 to 64 files: reads the index of each, then the blocks that the WHERE doesn't exclude by the times
/// that the index tells, 64 at a time, and puts one line for each row that passes, as OFFSET and LIMIT let them through. The
/// lines of 64 blocks are put before the next are read, and a LIMIT that is full ends the reading. Blocks are scanned by so many
/// workers as the settings say, from 1 to 64, each of which passes the gate with a block's number in its batch.
pub fn run_query<R: Threads + Sync + RandomSource, F: Files, O: Out, G: Gate + Sync>(
    rt: &R,
    alloc: Global,
    sql: &str,
    names: &Words,
    settings: &Settings,
    files: &mut F,
    out: &mut O,
    gate: &G,
) -> Result<QuerySum, QueryFault>
    requires some { 1 ≤ length names.now }
    requires few { length names.now ≤ 64 }
    requires some_workers { 0 < settings.now.workers }
    requires few_workers { settings.now.workers ≤ 64 }

    // The bytes written are those of an answer for the rows of the files: all of them at Ok, else a prefix.
    ensures headline { Headline sql.now settings.now.groups names.now (F.told files.old) (status_after result)
        (O.holds out.old) (O.holds out.new) }

    // The answer is Ok, or the first fault that the text, the names and the files give rise to.
    ensures ends { Ends sql.now settings.now.groups names.now (F.told files.old) (status_after result) (O.holds out.old)
        (O.holds out.new) }
    ensures cause { HasItsCause sql.now settings.now.groups names.now (F.told files.old) result }
    ensures quiet { IsQuiet result (O.holds out.old) (O.holds out.new) }

    // At a bad block and at a failed read whole batches of lines are written, and none of a query that sorts or groups.
    ensures stopped { (q : QueryTree) → Accepts sql.now q
        → StopsSo q names.now (F.told files.old) result (F.taken files.old) (F.taken files.new)
        (O.holds out.old) (O.holds out.new) }

    // No more bytes are read than the answer costs, and what was done is counted.
    ensures taken { Reads sql.now names.now (F.told files.old) (F.taken files.old)
        (F.taken files.new) }
    ensures sum { (q : QueryTree) → Accepts sql.now q
        → IfOk result (λ s. SumsUp q names.now (F.told files.old) s) }

    ensures absent { IsAbsent result → Rose (F.misses files.old) (F.misses files.new) }
    ensures read_fault { IsErrOf result QueryFault.ReadFault
        → Rose (F.read_faults files.old) (F.read_faults files.new) }
    ensures write_fault { IsErrOf result QueryFault.WriteFault
        → Rose (O.faults out.old) (O.faults out.new) }
    ensures told { F.told files.new ≡ F.told files.old }
    ensures same_write_faults { F.write_faults files.new ≡ F.write_faults files.old }
{
    let checked = match accept(alloc, sql) {
        Ok(checked) => checked,
        Err(fault) => return Err(fault),
    };
    let job = match job_of(alloc, &checked) {
        Ok(job) => job,
        Err(fault) => return Err(fault),
    };
    run_job(rt, alloc, &checked, &job, names, settings, files, out, gate)
}

// Answers a query that the job simulates.
fn run_job<R: Threads + Sync + RandomSource, F: Files, O: Out, G: Gate + Sync>(
    rt: &R,
    alloc: Global,
    checked: &Checked,
    job: &Job,
    names: &Words,
    settings: &Settings,
    files: &mut F,
    out: &mut O,
    gate: &G,
) -> Result<QuerySum, QueryFault>
    requires some { 1 ≤ length names.now }
    requires few { length names.now ≤ 64 }
    requires some_workers { 0 < settings.now.workers }
    requires few_workers { settings.now.workers ≤ 64 }
    requires simulates { Simulates job.now checked.now }
    ensures ran { RunsTo checked.now settings.now.groups names.now (F.told files.old)
        result (F.taken files.old) (F.taken files.new) (O.holds out.old) (O.holds out.new) }
    ensures absent { IsAbsent result → Rose (F.misses files.old) (F.misses files.new) }
    ensures read_fault { IsErrOf result QueryFault.ReadFault
        → Rose (F.read_faults files.old) (F.read_faults files.new) }
    ensures write_fault { IsErrOf result QueryFault.WriteFault
        → Rose (O.faults out.old) (O.faults out.new) }
    ensures told { F.told files.new ≡ F.told files.old }
    ensures same_write_faults { F.write_faults files.new ≡ F.write_faults files.old }
{
    let found = match find_places(alloc, checked.query(), names, files) {
        Ok(found) => found,
        Err(fault) => return Err(of_files(fault)),
    };
    run_found(
        rt, alloc, checked, job, names, settings, &found, files, out, gate,
    )
}

// Answers a query of whose files the indexes were read.
fn run_found<R: Threads + Sync + RandomSource, F: Files, O: Out, G: Gate + Sync>(
    rt: &R,
    alloc: Global,
    checked: &Checked,
    job: &Job,
    names: &Words,
    settings: &Settings,
    found: &Survey,
    files: &mut F,
    out: &mut O,
    gate: &G,
) -> Result<QuerySum, QueryFault>
    requires some { 1 ≤ length names.now }
    requires some_workers { 0 < settings.now.workers }
    requires few_workers { settings.now.workers ≤ 64 }
    requires simulates { Simulates job.now checked.now }
    requires surveyed { ForSome (F.told files.old) (λ told. Surveys checked.now names.now
        (length names.now) told found.now.fields found.now.places.items found.now.skipped) }
    requires named { All (λ p. p.file < length names.now) found.now.places.items }
    requires places { length found.now.places.items ≤ 2 ^ 26 }
    ensures ran { (start : ℕ) → start ≤ F.taken files.old
        → ForSome (F.told files.old)
        (λ told. F.taken files.old ≤ start + index_costs told names.now)
        → RunsTo checked.now settings.now.groups names.now (F.told files.old) result
        start (F.taken files.new) (O.holds out.old) (O.holds out.new) }
    ensures read_fault { HasCause (F.read_faults files.old) (F.read_faults files.new)
        (IsErrOf result QueryFault.ReadFault) }
    ensures write_fault { HasCause (O.faults out.old) (O.faults out.new)
        (IsErrOf result QueryFault.WriteFault) }
    ensures present { IsAbsent result → ⊥ }
    ensures told { F.told files.new ≡ F.told files.old }
    ensures same_misses { F.misses files.new ≡ F.misses files.old }
    ensures same_write_faults { F.write_faults files.new ≡ F.write_faults files.old }
{
    if checked.grouped() {
        run_groups(
            rt, alloc, checked, job, names, settings, found, files, out, gate,
        )
    } else if checked.query().order.len() == 0 {
        run_plain(
            rt,
            alloc,
            checked.query(),
            job,
            names,
            settings,
            found,
            files,
            out,
            gate,
        )
    } else {
        run_sorted(
            rt, alloc, checked, job, names, settings, found, files, out, gate,
        )
    }
}

// What stands against the files, as a fault of the query.
fn of_files(fault: FilesFault) -> QueryFault
    ensures { result ≡ query_fault fault }
{
    match fault {
        FilesFault::Absent(number) => QueryFault::Absent(number),
        FilesFault::NotAFile(number) => QueryFault::NotAFile(number),
        FilesFault::ReadFault => QueryFault::ReadFault,
        FilesFault::OutOfMemory => QueryFault::OutOfMemory,
    }
}
