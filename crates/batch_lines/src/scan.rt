//! Reads and scans the batches one after the other.
ghost use Rattle.std.specs.Prelude.{◌≡◌, ◌+◌, ◌^◌, ◌<◌, ◌≤◌, ℕ, Some, true, length, All, IfErr, OnOk, IsErrOf};
ghost use Rattle.std.specs.Option.{ForSome};
ghost use Rattle.snel_device.specs.Causes.{HasCause};
ghost use Rattle.query_tree.specs.Queries.{query_view};
ghost use Rattle.program_meaning.specs.Simulation.{Simulates};
ghost use Rattle.block_lines.specs.HeadTexts.{AreHeads};
ghost use Rattle.scan_meaning.specs.Batches.{first_bad, front, size_of, is_plain, Counts};
ghost use Rattle.scan_files.specs.Places.{blocks_at, blocks_held, IsPlaced, room_of};
ghost use Rattle.scan_batches.specs.Lines.{TakesSome};
ghost use Rattle.scan_batches.specs.Scans.{Scans, IsReading, NamesBlock, SaysOfBatch};
ghost use Rattle.scan_batches.specs.Outcome.{ScansTo};

use crate::put::put_lines;
use block_lines::{LineHeads, Lines};
use lane_ssa::{Job, Tally};
use query_tree::Query;
use scan_batches::{BatchFault, Cut, Done, ScanFault, is_full, name_bad, rest_of};
use scan_files::{FilesFault, Place, Stored, batch_of, read_batch};
use snel_device::{Failed, Files, Gate, Out};
use snel_values::Words;
use std::alloc::Global;
use std::thread::Threads;
use worker_merge::scan_lines;

/// Reads the blocks at these places, 64 after 64, has so many workers, from 1 to 64, make their lines, and puts those of each
/// batch, in the order of the blocks and as OFFSET and LIMIT let them through, before it reads the next, until all are scanned or
/// the LIMIT is full. The job simulates the query. Chunks and rows are counted from none.
pub fn scan_all<R: Threads + Sync, G: Gate + Sync, F: Files, O: Out>(
    rt: &R,
    alloc: Global,
    gate: &G,
    workers: u32,
    query: &Query,
    job: &Job,
    heads: &LineHeads,
    cut: &Cut,
    names: &Words,
    fields: &Words,
    places: &[Place],
    files: &mut F,
    out: &mut O,
    ran: &mut Tally,
) -> Result<Done, ScanFault>
    requires workers { (0 < workers) × (workers ≤ 64) }
    requires simulates { Simulates job.now (query_view query.now) }
    requires plain { is_plain (query_view query.now) ≡ true }
    requires heads { AreHeads job.now.ends.outs heads.now }
    requires few { length places.now ≤ 2 ^ 26 }
    requires named { All (λ p. p.file < length names.now) places.now }
    requires placed { ForSome (F.told files.old)
        (λ told. All (λ p. IsPlaced told names.now p) places.now) }
    requires skip { cut.now.skip ≡ (query_view query.now).skip }
    requires take { cut.now.take ≡ (query_view query.now).take }
    requires no_chunks { ran.old.chunks ≡ 0 }
    requires no_rows { ran.old.kept ≡ 0 }
    // What the answer says of the blocks, and what was put.
    ensures outcome { ForSome (F.told files.old) (λ told. ScansTo (query_view query.now)
        (blocks_at told names.now fields.now places.now) result (F.taken files.old)
        (F.taken files.new) ran.new.chunks ran.new.kept (O.holds out.old) (O.holds out.new)) }
    ensures some { TakesSome (O.holds out.old) (O.holds out.new) }
    ensures cost { ForSome (F.told files.old) (λ told. (count : ℕ) → Counts (query_view query.now)
        (blocks_at told names.now fields.now places.now) count → F.taken files.new
        ≤ F.taken files.old
        + size_of (front count (blocks_at told names.now fields.now places.now))) }
    ensures later { F.taken files.old ≤ F.taken files.new }
    ensures fault { HasCause (F.read_faults files.old) (F.read_faults files.new)
        (IsErrOf result ScanFault.ReadFault) }
    ensures write_fault { HasCause (O.faults out.old) (O.faults out.new)
        (IsErrOf result ScanFault.WriteFault) }
    ensures told { F.told files.new ≡ F.told files.old }
    ensures same_misses { F.misses files.new ≡ F.misses files.old }
    ensures same_write_faults { F.write_faults files.new ≡ F.write_faults files.old }
{
    let mut left = *cut;
    let mut lines = Lines::new(alloc);
    let mut put = 0u64;
    let batches = (places.len() + 63) / 64;
    for number in 0..batches {
        if is_full(&left) {
            return Ok(Done {
                lines: put,
                read: (64 * number) as u32,
            });
        }
        let batch = batch_of(places, number);
        match next_batch(
            rt, alloc, gate, workers, query, job, heads, names, fields, batch, files, &mut lines,
            ran,
        ) {
            Ok(()) => {}
            Err(fault) => return Err(fault),
        }
        match put_lines(&lines, &left, out) {
            Ok(count) => put = put.saturating_add(count),
            Err(Failed) => return Err(ScanFault::WriteFault),
        }
        left = rest_of(&left, lines.len());
    }
    Ok(Done {
        lines: put,
        read: places.len() as u32,
    })
}

// Reads the blocks of one batch, and makes their lines.
fn next_batch<R: Threads + Sync, G: Gate + Sync, F: Files>(
    rt: &R,
    alloc: Global,
    gate: &G,
    workers: u32,
    query: &Query,
    job: &Job,
    heads: &LineHeads,
    names: &Words,
    fields: &Words,
    places: &[Place],
    files: &mut F,
    lines: &mut Lines,
    ran: &mut Tally,
) -> Result<(), ScanFault>
    requires workers { (0 < workers) × (workers ≤ 64) }
    requires simulates { Simulates job.now (query_view query.now) }
    requires plain { is_plain (query_view query.now) ≡ true }
    requires heads { AreHeads job.now.ends.outs heads.now }
    requires named { All (λ p. p.file < length names.now) places.now }
    requires placed { ForSome (F.told files.old)
        (λ told. All (λ p. IsPlaced told names.now p) places.now) }
    ensures scanned { OnOk result (ForSome (F.told files.old) (λ told. Scans (query_view query.now)
        (blocks_at told names.now fields.now places.now) lines.new
        ran.old.chunks ran.new.chunks ran.old.kept ran.new.kept)) }
    ensures bad { IfErr result (λ fault. ForSome (F.told files.old) (λ told. NamesBlock fault
        (λ b. first_bad (blocks_at told names.now fields.now places.now) ≡ Some b))) }
    ensures reading { IfErr result (λ fault. IsReading fault) }
    ensures fault { HasCause (F.read_faults files.old) (F.read_faults files.new)
        (IsErrOf result ScanFault.ReadFault) }
    ensures later { F.taken files.old ≤ F.taken files.new }
    ensures most { F.taken files.new ≤ F.taken files.old + room_of places.now }
    ensures told { F.told files.new ≡ F.told files.old }
    ensures same_misses { F.misses files.new ≡ F.misses files.old }
    ensures same_write_faults { F.write_faults files.new ≡ F.write_faults files.old }
{
    let blocks = match read_batch(alloc, names, places, files) {
        Ok(blocks) => blocks,
        Err(FilesFault::ReadFault) => return Err(ScanFault::ReadFault),
        Err(_) => return Err(ScanFault::OutOfMemory),
    };
    match scan_batch(
        rt, alloc, gate, workers, query, job, heads, fields, &blocks, lines, ran,
    ) {
        Ok(()) => Ok(()),
        Err(BatchFault::Bad(number)) => Err(name_bad(&blocks, number)),
        Err(BatchFault::OutOfMemory) => Err(ScanFault::OutOfMemory),
    }
}

// Makes the lines of these blocks, and counts what was run.
fn scan_batch<R: Threads + Sync, G: Gate + Sync>(
    rt: &R,
    alloc: Global,
    gate: &G,
    workers: u32,
    query: &Query,
    job: &Job,
    heads: &LineHeads,
    fields: &Words,
    blocks: &[Stored],
    lines: &mut Lines,
    ran: &mut Tally,
) -> Result<(), BatchFault>
    requires workers { (0 < workers) × (workers ≤ 64) }
    requires simulates { Simulates job.now (query_view query.now) }
    requires plain { is_plain (query_view query.now) ≡ true }
    requires heads { AreHeads job.now.ends.outs heads.now }
    ensures scanned { OnOk result (Scans (query_view query.now) (blocks_held fields.now blocks.now)
        lines.new ran.old.chunks ran.new.chunks ran.old.kept ran.new.kept) }
    ensures bad { IfErr result (λ fault. SaysOfBatch (blocks_held fields.now blocks.now) fault) }
{
    lines.clear();
    scan_lines(
        rt, alloc, gate, workers, job, heads, fields, blocks, lines, ran,
    )
}
