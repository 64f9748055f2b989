//! Reads the batches one after the other and hands on their rows.

ghost use Rattle.std.specs.Prelude.{◌≡◌, ◌+◌, ◌^◌, ◌<◌, ◌≤◌, List, length, All, IfErr, OnOk, IsErrOf};
ghost use Rattle.std.specs.Option.{ForSome};
ghost use Rattle.snel_device.specs.Causes.{HasCause};
ghost use Rattle.value_meaning.specs.Val.{Val};
ghost use Rattle.query_tree.specs.Queries.{query_view};
ghost use Rattle.program_meaning.specs.Simulation.{Simulates};
ghost use Rattle.block_lines.specs.HeadTexts.{AreHeads};
ghost use Rattle.scan_meaning.specs.Blocks.{Block};
ghost use Rattle.scan_meaning.specs.Batches.{first_bad};
ghost use Rattle.scan_files.specs.Places.{blocks_at, IsPlaced, room_of};
ghost use Rattle.scan_batches.specs.Scans.{IsReading, NamesBlock};
ghost use Rattle.scan_batches.specs.Gathers.{Gathers, Gathered, StopsGathering};
ghost use Rattle.batch_rows.specs.Grown.{GrewByRows};

use block_lines::LineHeads;
use lane_ssa::{Job, Tally};
use query_tree::Query;
use scan_batches::{BatchFault, ScanFault, name_bad};
use scan_files::{FilesFault, Place, batch_of, read_batch};
use snel_device::{Files, Gate};
use snel_values::Words;
use std::alloc::Global;
use std::thread::Threads;
use worker_merge::{SharedSink, scan_blocks};

/// Reads the blocks at these places, 64 after 64, and has so many workers, from 1 to 64, hand the rows that pass to the sink, in
/// any order. The job simulates the query. Chunks and rows are counted from none.
///
/// At `Ok` none of the blocks is bad, and else the first bad one is named, whatever the workers met first.
pub fn gather_all<R: Threads + Sync, G: Gate + Sync, S: SharedSink, F: Files>(
    rt: &R,
    alloc: Global,
    gate: &G,
    workers: u32,
    query: &Query,
    job: &Job,
    heads: &LineHeads,
    names: &Words,
    fields: &Words,
    places: &[Place],
    files: &mut F,
    sink: &mut S,
    ran: &mut Tally,
) -> Result<(), ScanFault>
    requires workers { (0 < workers) × (workers ≤ 64) }
    requires simulates { Simulates job.now (query_view query.now) }
    requires takes { S.takes sink.old job.now }
    requires heads { AreHeads job.now.ends.outs heads.now }
    requires few { length places.now ≤ 2 ^ 26 }
    requires named { All (λ p. p.file < length names.now) places.now }
    requires placed { ForSome (F.told files.old)
        (λ told. All (λ p. IsPlaced told names.now p) places.now) }
    requires no_chunks { ran.old.chunks ≡ 0 }
    requires no_rows { ran.old.kept ≡ 0 }
    ensures gathered { OnOk result ((bs : List Block)
        × ForSome (F.told files.old)
        (λ told. bs ≡ blocks_at told names.now fields.now places.now)
        × Gathered (query_view query.now) bs (GrewByRows S.grew sink.old sink.new job.now)
        ran.new.chunks ran.new.kept) }
    ensures bad { IfErr result (λ fault. ForSome (F.told files.old) (λ told. NamesBlock fault
        (λ b. first_bad (blocks_at told names.now fields.now places.now) ≡ Some b))) }
    ensures reading { IfErr result (λ fault. IsReading fault) }
    ensures stopped { IfErr result (λ fault. ForSome (F.told files.old)
        (λ told. StopsGathering fault (blocks_at told names.now fields.now places.now)
        (F.taken files.old) (F.taken files.new))) }
    ensures most { F.taken files.new ≤ F.taken files.old + room_of places.now }
    ensures later { F.taken files.old ≤ F.taken files.new }
    ensures fault { HasCause (F.read_faults files.old) (F.read_faults files.new)
        (IsErrOf result ScanFault.ReadFault) }
    ensures told { F.told files.new ≡ F.told files.old }
    ensures same_misses { F.misses files.new ≡ F.misses files.old }
    ensures same_write_faults { F.write_faults files.new ≡ F.write_faults files.old }
{
    let batches = (places.len() + 63) / 64;
    for number in 0..batches {
        let batch = batch_of(places, number);
        match gather_batch(
            rt, alloc, gate, workers, query, job, heads, names, fields, batch, files, sink, ran,
        ) {
            Ok(()) => {}
            Err(fault) => return Err(fault),
        }
    }
    Ok(())
}

// Reads the blocks of one batch, and hands on their rows.
fn gather_batch<R: Threads + Sync, G: Gate + Sync, S: SharedSink, F: Files>(
    rt: &R,
    alloc: Global,
    gate: &G,
    workers: u32,
    query: &Query,
    job: &Job,
    heads: &LineHeads,
    names: &Words,
    fields: &Words,
    places: &[Place],
    files: &mut F,
    sink: &mut S,
    ran: &mut Tally,
) -> Result<(), ScanFault>
    requires workers { (0 < workers) × (workers ≤ 64) }
    requires simulates { Simulates job.now (query_view query.now) }
    requires takes { S.takes sink.old job.now }
    requires heads { AreHeads job.now.ends.outs heads.now }
    requires named { All (λ p. p.file < length names.now) places.now }
    requires placed { ForSome (F.told files.old)
        (λ told. All (λ p. IsPlaced told names.now p) places.now) }
    ensures gathered { OnOk result ((bs : List Block)
        × ForSome (F.told files.old)
        (λ told. bs ≡ blocks_at told names.now fields.now places.now)
        × (length bs ≡ length places.now)
        × ((rows : List Val) (first : S) → GrewByRows S.grew first sink.old job.now rows
        → Gathers (query_view query.now) bs rows (GrewByRows S.grew first sink.new job.now)
        ran.old.chunks ran.new.chunks ran.old.kept ran.new.kept)) }
    ensures takes { OnOk result (S.takes sink.new job.now) }
    ensures bad { IfErr result (λ fault. ForSome (F.told files.old) (λ told. NamesBlock fault
        (λ b. first_bad (blocks_at told names.now fields.now places.now) ≡ Some b))) }
    ensures reading { IfErr result (λ fault. IsReading fault) }
    ensures fault { HasCause (F.read_faults files.old) (F.read_faults files.new)
        (IsErrOf result ScanFault.ReadFault) }
    ensures later { F.taken files.old ≤ F.taken files.new }
    ensures most { F.taken files.new ≤ F.taken files.old + room_of places.now }
    ensures told { F.told files.new ≡ F.told files.old }
    ensures same_misses { F.misses files.new ≡ F.misses files.old }
    ensures same_write_faults { F.write_faults files.new ≡ F.write_faults files.old }
{
    let blocks = match read_batch(alloc, names, places, files) {
        Ok(blocks) => blocks,
        Err(FilesFault::ReadFault) => return Err(ScanFault::ReadFault),
        Err(_) => return Err(ScanFault::OutOfMemory),
    };
    match scan_blocks(
        rt, alloc, gate, workers, job, heads, fields, &blocks, sink, ran,
    ) {
        Ok(()) => Ok(()),
        Err(BatchFault::Bad(number)) => Err(name_bad(&blocks, number)),
        Err(BatchFault::OutOfMemory) => Err(ScanFault::OutOfMemory),
    }
}
