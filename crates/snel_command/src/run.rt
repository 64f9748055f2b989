//! The top call.
ghost use Rattle.std.specs.Prelude.{◌≡◌, ◌⊎◌, ◌≤◌, ℕ, take, length, None, OnOk, IfErr, IsErrOf};
ghost use Rattle.std.specs.Io.KnownBytes.{Appends};
ghost use Rattle.snel_device.specs.Causes.{Rose, HasCause};
ghost use Rattle.snel_words.specs.Words.{asked, query, check, pack, explain};
ghost use Rattle.snel_words.specs.Asked.{ask_view, packing_view};
ghost use Rattle.snel_words.specs.NamedFiles.{HasNames, IsWithinLimits};
ghost use Rattle.snel_command.specs.Outcomes.{status_after, done_of};
ghost use Rattle.snel_command.specs.Causes.{Says, CameOut};
ghost use Rattle.snel_command.specs.Ends.{Ends};
ghost use Rattle.snel_command.specs.Effects.{ReadsBytes, ChangesFiles, WritesFiles, TakesInput, ReadFailed, WriteFailed};
ghost use Rattle.snel_command.specs.Headline.{Headline};
ghost use Rattle.snel_command.specs.Stops.{Stops, StaysQuiet};
ghost use Rattle.snel_command.specs.Comes.{Comes, ComesPacked};
ghost use Rattle.snel_command.specs.Packs.{sum_line};
ghost use Rattle.json_pack.specs.Packs.{sum_view};

use crate::making::make_log;
use crate::outcome::{Done, Outcome, Refusal};
use crate::reporting::end;
use json_pack::{PackFault, PackSettings, PackSum, pack};
use query_run::{QueryFault, QuerySum, check_files, explain, run_query};
use snel_device::{Files, Gate, Input, Out};
use snel_values::Words;
use snel_words::{Ask, Packing, Settings, read_words};
use std::alloc::Global;
use std::random::RandomSource;
use std::thread::Threads;

/// Does what the words ask, and answers the status. `words` are those after the program's name.
///
/// Answers, listings and counts go to `out`; a status other than 0 writes its line to `err`, and a query with `--stats` its counts.
pub fn snel<
    R: Threads + Sync + RandomSource,
    F: Files,
    I: Input + Send,
    O: Out,
    E: Out,
    G: Gate + Sync,
>(
    rt: &R,
    alloc: Global,
    words: &Words,
    files: &mut F,
    input: &mut I,
    out: &mut O,
    err: &mut E,
    gate: &G,
) -> u8
    // The bytes that a query writes are those of an answer: all of them at status 0, else a prefix.
    ensures headline { Headline (asked words.now) (F.told files.old) result (O.holds out.old)
        (O.holds out.new) }

    // The status belongs to the first refusal or to the answer, and so does what was written.
    ensures ends { Ends (asked words.now) (F.told files.old) (I.left input.old) result
        (O.holds out.old) (O.holds out.new) }

    ensures quiet { StaysQuiet (asked words.now) result (O.holds out.old) (O.holds out.new) }

    // A query that a bad block or a failed read ends has written whole batches of lines.
    ensures stopped { Stops (asked words.now) (F.told files.old) result (F.taken files.old)
        (F.taken files.new) (O.holds out.old) (O.holds out.new) }

    // The status has its cause, which `err` is told in one line.
    ensures cause { CameOut (asked words.now) (F.told files.old) (I.left input.old) result
        (E.faults err.old) (E.faults err.new) (E.holds err.old) (E.holds err.new) }
    ensures absent { result ≡ 4 → Rose (F.misses files.old) (F.misses files.new) }
    ensures exists { result ≡ 12 → Rose (F.misses files.old) (F.misses files.new) }
    ensures read_fault { result ≡ 8 → ReadFailed (asked words.now) (F.read_faults files.old)
        (F.read_faults files.new) (I.faults input.old) (I.faults input.new) }
    ensures write_fault { result ≡ 9 → WriteFailed (asked words.now) (F.write_faults files.old)
        (F.write_faults files.new) (O.faults out.old) (O.faults out.new) }

    // Refused words and texts, and that a call is done against which nothing stands.
    ensures comes { Comes (asked words.now) (F.told files.old) result (F.read_faults files.old)
        (F.read_faults files.new) (O.faults out.old) (O.faults out.new) }

    // Files that are there already, refused lines, and that packing is done against which nothing stands.
    ensures packs { ComesPacked (asked words.now) (F.told files.old) (I.left input.old) result
        (F.write_faults files.old) (F.write_faults files.new) (I.faults input.old)
        (I.faults input.new) (O.faults out.old) (O.faults out.new) }

    // No more bytes are read than the answer costs, and nothing changes but what the command is for.
    ensures taken { ReadsBytes (asked words.now) (F.told files.old) (F.taken files.old)
        (F.taken files.new) }
    ensures told { ChangesFiles (asked words.now) (I.left input.old) result (F.told files.old)
        (F.told files.new) }
    ensures written { WritesFiles (asked words.now) (F.write_faults files.old)
        (F.write_faults files.new) }
    ensures input { TakesInput (asked words.now) result (I.left input.old) (I.left input.new) }
{
    match read_words(alloc, words) {
        Ok(ask) => {
            let outcome = obey(rt, alloc, &ask, files, input, out, gate);
            end(outcome, &ask, err)
        }
        Err(_) => {
            let outcome = Err(Refusal::Query(QueryFault::OutOfMemory));
            end(outcome, &Ask::Nothing, err)
        }
    }
}

// Does what is asked, and answers how it came out.
fn obey<R: Threads + Sync + RandomSource, F: Files, I: Input, O: Out, G: Gate + Sync>(
    rt: &R,
    alloc: Global,
    ask: &Ask<'_>,
    files: &mut F,
    input: &mut I,
    out: &mut O,
    gate: &G,
) -> Outcome
    requires asked { HasNames (ask_view ask.now) }
    ensures headline { Headline (ask_view ask.now) (F.told files.old) (status_after result)
        (O.holds out.old) (O.holds out.new) }
    ensures ends { Ends (ask_view ask.now) (F.told files.old) (I.left input.old)
        (status_after result) (O.holds out.old) (O.holds out.new) }
    ensures quiet { StaysQuiet (ask_view ask.now) (status_after result) (O.holds out.old)
        (O.holds out.new) }
    ensures stopped { Stops (ask_view ask.now) (F.told files.old) (status_after result)
        (F.taken files.old) (F.taken files.new) (O.holds out.old) (O.holds out.new) }
    ensures cause { Says (ask_view ask.now) (F.told files.old) (I.left input.old) result }
    ensures absent { status_after result ≡ 4 → Rose (F.misses files.old) (F.misses files.new) }
    ensures exists { status_after result ≡ 12 → Rose (F.misses files.old) (F.misses files.new) }
    ensures read_fault { status_after result ≡ 8 → ReadFailed (ask_view ask.now)
        (F.read_faults files.old) (F.read_faults files.new) (I.faults input.old)
        (I.faults input.new) }
    ensures write_fault { status_after result ≡ 9 → WriteFailed (ask_view ask.now)
        (F.write_faults files.old) (F.write_faults files.new) (O.faults out.old)
        (O.faults out.new) }
    ensures packs { ComesPacked (ask_view ask.now) (F.told files.old) (I.left input.old)
        (status_after result) (F.write_faults files.old) (F.write_faults files.new)
        (I.faults input.old) (I.faults input.new) (O.faults out.old) (O.faults out.new) }
    ensures taken { ReadsBytes (ask_view ask.now) (F.told files.old) (F.taken files.old)
        (F.taken files.new) }
    ensures told { ChangesFiles (ask_view ask.now) (I.left input.old) (status_after result)
        (F.told files.old) (F.told files.new) }
    ensures written { WritesFiles (ask_view ask.now) (F.write_faults files.old)
        (F.write_faults files.new) }
    ensures input { TakesInput (ask_view ask.now) (status_after result) (I.left input.old)
        (I.left input.new) }
{
    match ask {
        Ask::Nothing => Err(Refusal::Words),
        Ask::Query {
            settings,
            sql,
            names,
        } => query_files(rt, alloc, *settings, sql, names, files, out, gate),
        Ask::Check { names } => check_named(alloc, names, files, out),
        Ask::Pack { packing, name } => pack_lines(alloc, packing, name, files, input, out),
        Ask::Explain { sql } => explain_text(alloc, sql, out),
        Ask::Make { start, rows, name } => {
            make_log(rt, alloc, *start, *rows, name, files, out, gate)
        }
    }
}

// Answers a query over files.
fn query_files<R: Threads + Sync + RandomSource, F: Files, O: Out, G: Gate + Sync>(
    rt: &R,
    alloc: Global,
    settings: Settings,
    sql: &str,
    names: &Words,
    files: &mut F,
    out: &mut O,
    gate: &G,
) -> Outcome
    requires some { 1 ≤ length names.now }
    requires few { length names.now ≤ 64 }
    requires some_workers { 1 ≤ settings.workers }
    requires few_workers { settings.workers ≤ 64 }
    ensures headline { Headline (query settings sql.now names.now) (F.told files.old)
        (status_after result) (O.holds out.old) (O.holds out.new) }
    ensures ends { Ends (query settings sql.now names.now) (F.told files.old) None
        (status_after result) (O.holds out.old) (O.holds out.new) }
    ensures quiet { StaysQuiet (query settings sql.now names.now) (status_after result)
        (O.holds out.old) (O.holds out.new) }
    ensures stopped { Stops (query settings sql.now names.now) (F.told files.old)
        (status_after result) (F.taken files.old) (F.taken files.new) (O.holds out.old)
        (O.holds out.new) }
    ensures cause { Says (query settings sql.now names.now) (F.told files.old) None result }
    ensures absent { status_after result ≡ 4 → Rose (F.misses files.old) (F.misses files.new) }
    ensures no_exists { status_after result ≡ 12 → ⊥ }
    ensures read_fault { status_after result ≡ 8
        → Rose (F.read_faults files.old) (F.read_faults files.new) }
    ensures write_fault { status_after result ≡ 9 → Rose (O.faults out.old) (O.faults out.new) }
    ensures taken { ReadsBytes (query settings sql.now names.now) (F.told files.old)
        (F.taken files.old) (F.taken files.new) }
    ensures told { F.told files.new ≡ F.told files.old }
    ensures written { F.write_faults files.new ≡ F.write_faults files.old }
{
    let how = query_run::Settings {
        workers: settings.workers,
        groups: settings.groups,
    };
    match run_query(rt, alloc, sql, names, &how, files, out, gate) {
        Ok(sum) => Ok(done_of(settings.stats, &sum)),
        Err(fault) => Err(Refusal::Query(fault)),
    }
}

// What a query did, with its counts of blocks where they are asked.
fn done_of(stats: bool, sum: &QuerySum) -> Done
    ensures { result ≡ done_of stats sum.now.read sum.now.skipped }
{
    if stats {
        Done::Counted {
            read: sum.read,
            skipped: sum.skipped,
        }
    } else {
        Done::All
    }
}

// Checks files.
fn check_named<F: Files, O: Out>(
    alloc: Global,
    names: &Words,
    files: &mut F,
    out: &mut O,
) -> Outcome
    requires some { 1 ≤ length names.now }
    requires few { length names.now ≤ 64 }
    ensures ends { Ends (check names.now) (F.told files.old) None (status_after result)
        (O.holds out.old) (O.holds out.new) }
    ensures cause { Says (check names.now) (F.told files.old) None result }
    ensures absent { status_after result ≡ 4 → Rose (F.misses files.old) (F.misses files.new) }
    ensures no_exists { status_after result ≡ 12 → ⊥ }
    ensures read_fault { status_after result ≡ 8
        → Rose (F.read_faults files.old) (F.read_faults files.new) }
    ensures write_fault { status_after result ≡ 9 → Rose (O.faults out.old) (O.faults out.new) }
    ensures told { F.told files.new ≡ F.told files.old }
    ensures written { F.write_faults files.new ≡ F.write_faults files.old }
{
    match check_files(alloc, names, files, out) {
        Ok(()) => Ok(Done::All),
        Err(fault) => Err(Refusal::Query(fault)),
    }
}

// Packs the lines of the input into a new file, and puts the counts.
fn pack_lines<F: Files, I: Input, O: Out>(
    alloc: Global,
    packing: &Packing<'_>,
    name: &str,
    files: &mut F,
    input: &mut I,
    out: &mut O,
) -> Outcome
    requires { IsWithinLimits (packing_view packing.now) }
    ensures ends { Ends (pack (packing_view packing.now) name.now) (F.told files.old)
        (I.left input.old) (status_after result) (O.holds out.old) (O.holds out.new) }
    ensures cause { Says (pack (packing_view packing.now) name.now) (F.told files.old)
        (I.left input.old) result }
    ensures no_absent { status_after result ≡ 4 → ⊥ }
    ensures exists { status_after result ≡ 12 → Rose (F.misses files.old) (F.misses files.new) }
    ensures read_fault { status_after result ≡ 8
        → Rose (I.faults input.old) (I.faults input.new) }
    ensures write_fault { status_after result ≡ 9
        → Rose (F.write_faults files.old) (F.write_faults files.new)
        ⊎ Rose (O.faults out.old) (O.faults out.new) }
    ensures packs { ComesPacked (pack (packing_view packing.now) name.now) (F.told files.old)
        (I.left input.old) (status_after result) (F.write_faults files.old)
        (F.write_faults files.new) (I.faults input.old) (I.faults input.new) (O.faults out.old)
        (O.faults out.new) }
    ensures taken { F.taken files.new ≡ F.taken files.old }
    ensures told { ChangesFiles (pack (packing_view packing.now) name.now) (I.left input.old)
        (status_after result) (F.told files.old) (F.told files.new) }
    ensures written { F.write_faults files.old ≤ F.write_faults files.new }
    ensures input { TakesInput (pack (packing_view packing.now) name.now) (status_after result)
        (I.left input.old) (I.left input.new) }
{
    let settings = PackSettings {
        time: packing.time,
        block: packing.block,
        drop_fractions: packing.drop_fractions,
    };
    match pack(alloc, name, &settings, files, input) {
        Ok(sum) => match put_sum(alloc, &sum, out) {
            Ok(()) => Ok(Done::All),
            Err(fault) => Err(Refusal::Pack(fault)),
        },
        Err(fault) => Err(Refusal::Pack(fault)),
    }
}

// Puts the counts of what was packed.
fn put_sum<O: Out>(alloc: Global, sum: &PackSum, out: &mut O) -> Result<(), PackFault>
    ensures line { OnOk result (Appends (O.holds out.old) (O.holds out.new)
        (sum_line (sum_view sum.now))) }
    ensures front { (n : ℕ) × Appends (O.holds out.old) (O.holds out.new)
        (take n (sum_line (sum_view sum.now))) }
    ensures kept { IsErrOf result PackFault.OutOfMemory → O.holds out.new ≡ O.holds out.old }
    ensures only { IfErr result (λ f. (f ≡ PackFault.WriteFault) ⊎ (f ≡ PackFault.OutOfMemory)) }
    ensures fault { HasCause (O.faults out.old) (O.faults out.new)
        (IsErrOf result PackFault.WriteFault) }
{
    let Ok(line) = format!(in alloc;
        "rows {}, blocks {}, dropped {}\n",
        sum.rows, sum.blocks, sum.dropped
    ) else {
        return Err(PackFault::OutOfMemory);
    };
    match out.put(line.as_bytes()) {
        Ok(()) => Ok(()),
        Err(_) => Err(PackFault::WriteFault),
    }
}

// Writes the listing of a query.
fn explain_text<O: Out>(alloc: Global, sql: &str, out: &mut O) -> Outcome
    ensures ends { Ends (explain sql.now) None None (status_after result) (O.holds out.old)
        (O.holds out.new) }
    ensures cause { Says (explain sql.now) None None result }
    ensures no_exists { status_after result ≡ 12 → ⊥ }
    ensures write_fault { status_after result ≡ 9 → Rose (O.faults out.old) (O.faults out.new) }
{
    match explain(alloc, sql, out) {
        Ok(()) => Ok(Done::All),
        Err(fault) => Err(Refusal::Query(fault)),
    }
}
