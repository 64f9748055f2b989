//! Making a log, and the query over it.
ghost use Rattle.std.specs.Prelude.{◌≡◌, ◌⊎◌, ◌≤◌, ℕ, [], ◌∷◌, take, None, OnOk, IfErr, IsErrOf};
ghost use Rattle.std.specs.Io.KnownBytes.{Appends};
ghost use Rattle.snel_device.specs.Causes.{Rose, HasCause};
ghost use Rattle.query_run.specs.Statuses as of_query;
ghost use Rattle.query_run.specs.Statuses.{IsAbsent};
ghost use Rattle.query_run.specs.Ends.{Reads};
ghost use Rattle.make_meaning.specs.LogQuery.{text};
ghost use Rattle.snel_words.specs.Words as asks;
ghost use Rattle.json_pack.specs.Packs.{sum_view};
ghost use Rattle.snel_command.specs.Outcomes.{status_after};
ghost use Rattle.snel_command.specs.Causes.{Says};
ghost use Rattle.snel_command.specs.Ends.{Ends};
ghost use Rattle.snel_command.specs.Effects.{ReadsBytes, ChangesFiles};
ghost use Rattle.snel_command.specs.Headline.{Headline};
ghost use Rattle.snel_command.specs.Comes.{ComesPacked};
ghost use Rattle.snel_command.specs.Makes.{made_line, QueriesLog};

use crate::outcome::{Done, Outcome, Refusal};
use json_pack::{PackFault, PackSum, make};
use query_run::{QueryFault, Settings, run_query};
use snel_device::{Files, Gate, Out};
use snel_values::Words;
use std::alloc::Global;
use std::random::RandomSource;
use std::thread::Threads;

/// The query over a log: how many of its rows have each status.
const STATUS_COUNTS: &str =
    "SELECT status, COUNT(*) AS n FROM logs GROUP BY status ORDER BY status";

/// How many workers answer it.
const WORKERS: u32 = 4;

/// The most groups that it has.
pub(crate) const MOST_GROUPS: u32 = 1_048_576;

/// Makes the file of a log of so many rows, puts the line of its counts, and answers the query over it.
pub(crate) fn make_log<R: Threads + Sync + RandomSource, F: Files, O: Out, G: Gate + Sync>(
    rt: &R,
    alloc: Global,
    start: u64,
    rows: u32,
    name: &str,
    files: &mut F,
    out: &mut O,
    gate: &G,
) -> Outcome
    requires few { rows ≤ 1_000_000 }
    ensures headline { Headline (asks.make start rows name.now) (F.told files.old) (status_after result)
        (O.holds out.old) (O.holds out.new) }
    ensures ends { Ends (asks.make start rows name.now) (F.told files.old) None (status_after result)
        (O.holds out.old) (O.holds out.new) }
    ensures cause { Says (asks.make start rows name.now) (F.told files.old) None result }
    ensures absent { status_after result ≡ 4 → Rose (F.misses files.old) (F.misses files.new) }
    ensures exists { status_after result ≡ 12 → Rose (F.misses files.old) (F.misses files.new) }
    ensures read_fault { status_after result ≡ 8
        → Rose (F.read_faults files.old) (F.read_faults files.new) }
    ensures write_fault { status_after result ≡ 9
        → Rose (F.write_faults files.old) (F.write_faults files.new)
        ⊎ Rose (O.faults out.old) (O.faults out.new) }
    ensures packs { ComesPacked (asks.make start rows name.now) (F.told files.old) None (status_after result)
        (F.write_faults files.old) (F.write_faults files.new) 0 0 (O.faults out.old)
        (O.faults out.new) }
    ensures taken { ReadsBytes (asks.make start rows name.now) (F.told files.old) (F.taken files.old)
        (F.taken files.new) }
    ensures told { ChangesFiles (asks.make start rows name.now) None (status_after result)
        (F.told files.old) (F.told files.new) }
    ensures written { F.write_faults files.old ≤ F.write_faults files.new }
{
    let sum = match make(alloc, start, rows, name, files) {
        Ok(sum) => sum,
        Err(fault) => return Err(Refusal::Pack(fault)),
    };
    match put_made(alloc, &sum, out) {
        Ok(()) => {}
        Err(fault) => return Err(Refusal::Pack(fault)),
    }
    match count_statuses(rt, alloc, name, files, out, gate) {
        Ok(()) => Ok(Done::All),
        Err(fault) => Err(Refusal::Query(fault)),
    }
}

/// Puts the counts of a made log.
fn put_made<O: Out>(alloc: Global, sum: &PackSum, out: &mut O) -> Result<(), PackFault>
    ensures line { OnOk result (Appends (O.holds out.old) (O.holds out.new)
        (made_line (sum_view sum.now))) }
    ensures front { (n : ℕ) × Appends (O.holds out.old) (O.holds out.new)
        (take n (made_line (sum_view sum.now))) }
    ensures only { IfErr result (λ f. (f ≡ PackFault.WriteFault) ⊎ (f ≡ PackFault.OutOfMemory)) }
    ensures fault { HasCause (O.faults out.old) (O.faults out.new)
        (IsErrOf result PackFault.WriteFault) }
{
    let Ok(line) = format!(in alloc;
        "rows {}, blocks {}, bytes {}\n",
        sum.rows, sum.blocks, sum.bytes
    ) else {
        return Err(PackFault::OutOfMemory);
    };
    match out.put(line.as_bytes()) {
        Ok(()) => Ok(()),
        Err(_) => Err(PackFault::WriteFault),
    }
}

/// Answers the query over the file of this name.
fn count_statuses<R: Threads + Sync + RandomSource, F: Files, O: Out, G: Gate + Sync>(
    rt: &R,
    alloc: Global,
    name: &str,
    files: &mut F,
    out: &mut O,
    gate: &G,
) -> Result<(), QueryFault>
    ensures queried { QueriesLog name.now (F.told files.old) (of_query.status_after result)
        (O.holds out.old) (O.holds out.new) }
    ensures taken { Reads text (name.now ∷ []) (F.told files.old) (F.taken files.old)
        (F.taken files.new) }
    ensures absent { IsAbsent result → Rose (F.misses files.old) (F.misses files.new) }
    ensures read_fault { IsErrOf result QueryFault.ReadFault
        → Rose (F.read_faults files.old) (F.read_faults files.new) }
    ensures write_fault { IsErrOf result QueryFault.WriteFault
        → Rose (O.faults out.old) (O.faults out.new) }
    ensures told { F.told files.new ≡ F.told files.old }
    ensures same_write_faults { F.write_faults files.new ≡ F.write_faults files.old }
{
    let mut names = Words::new(alloc);
    match names.push(name) {
        Ok(()) => {}
        Err(_) => return Err(QueryFault::OutOfMemory),
    }
    let how = Settings {
        workers: WORKERS,
        groups: MOST_GROUPS,
    };
    match run_query(rt, alloc, STATUS_COUNTS, &names, &how, files, out, gate) {
        Ok(_) => Ok(()),
        Err(fault) => Err(fault),
    }
}
