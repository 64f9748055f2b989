//! Gathers rows and sorts them.
ghost use Rattle.std.specs.Prelude.{◌≡◌, ◌+◌, ◌^◌, ◌<◌, ◌≤◌, false, Some, List, length, All, IfErr, IfOk, OnOk, IsErrOf};
ghost use Rattle.std.specs.Option.{ForSome};
ghost use Rattle.snel_device.specs.Causes.{HasCause};
ghost use Rattle.query_tree.specs.Queries.{query_view};
ghost use Rattle.check_meaning.specs.Aggregates.{is_grouped};
ghost use Rattle.program_meaning.specs.Simulation.{Simulates};
ghost use Rattle.scan_meaning.specs.Blocks.{Block};
ghost use Rattle.scan_meaning.specs.Batches.{first_bad};
ghost use Rattle.scan_meaning.specs.Answers.{falling};
ghost use Rattle.scan_files.specs.Places.{blocks_at, IsPlaced, room_of};
ghost use Rattle.scan_batches.specs.Scans.{IsReading, NamesBlock};
ghost use Rattle.scan_batches.specs.Gathers.{StopsGathering};
ghost use Rattle.sorted_rows.specs.Holding.{IsEmptyTop};
ghost use Rattle.sorted_rows.specs.Sorted.{AreSorted};

use crate::flags::flags_of;
use crate::holding::empty_top;
use crate::top_sink::TopSink;
use batch_rows::gather_all;
use block_lines::LineHeads;
use lane_ssa::{Job, Tally};
use query_tree::Query;
use scan_batches::ScanFault;
use scan_files::Place;
use snel_device::{Files, Gate};
use snel_values::{MadeRows, OutOfMemory, Words};
use std::alloc::Global;
use std::thread::Threads;

/// The rows of an answer, in their order, and what was run for them.
#[derive(Drop)]
pub struct SortedRows {
    pub rows: MadeRows,
    pub ran: Tally,
}

/// Reads the blocks at these places, 64 after 64, has so many workers, from 1 to 64, scan them, and gives the rows of an answer
/// of the query, which isn't grouped: what it makes of the blocks' rows, sorted by its ORDER BY and cut by its OFFSET and LIMIT.
/// The job simulates the query.
///
/// At `Ok` none of the blocks is bad, and else the first bad one is named, whatever the workers met first. Nothing is put.
pub fn sort_rows<R: Threads + Sync, G: Gate + Sync, F: Files>(
    rt: &R,
    alloc: Global,
    gate: &G,
    workers: u32,
    query: &Query,
    job: &Job,
    names: &Words,
    fields: &Words,
    places: &[Place],
    files: &mut F,
) -> Result<SortedRows, ScanFault>
    requires workers { (0 < workers) × (workers ≤ 64) }
    requires simulates { Simulates job.now (query_view query.now) }
    requires ungrouped { is_grouped (query_view query.now) ≡ false }
    requires few { length places.now ≤ 2 ^ 26 }
    requires named { All (λ p. p.file < length names.now) places.now }
    requires placed { ForSome (F.told files.old)
        (λ told. All (λ p. IsPlaced told names.now p) places.now) }
    ensures sorted { IfOk result (λ s. (bs : List Block)
        × ForSome (F.told files.old)
        (λ told. bs ≡ blocks_at told names.now fields.now places.now)
        × AreSorted (query_view query.now) bs s.rows s.ran.chunks s.ran.kept) }
    ensures bad { IfErr result (λ fault. ForSome (F.told files.old) (λ told. NamesBlock fault
        (λ b. first_bad (blocks_at told names.now fields.now places.now) ≡ Some b))) }
    ensures reading { IfErr result (λ fault. IsReading fault) }
    ensures stopped { IfErr result (λ fault. ForSome (F.told files.old)
        (λ told. StopsGathering fault (blocks_at told names.now fields.now places.now)
        (F.taken files.old) (F.taken files.new))) }
    ensures most { F.taken files.new ≤ F.taken files.old + room_of places.now }
    ensures later { F.taken files.old ≤ F.taken files.new }
    ensures fault { HasCause (F.read_faults files.old) (F.read_faults files.new)
        (IsErrOf result ScanFault.ReadFault) }
    ensures told { F.told files.new ≡ F.told files.old }
    ensures same_misses { F.misses files.new ≡ F.misses files.old }
    ensures same_write_faults { F.write_faults files.new ≡ F.write_faults files.old }
{
    let Ok(mut sink) = empty_sink(alloc, query) else {
        return Err(ScanFault::OutOfMemory);
    };
    let Ok(heads) = LineHeads::of(alloc, job) else {
        return Err(ScanFault::OutOfMemory);
    };
    let mut ran = Tally::none();
    match gather_all(
        rt, alloc, gate, workers, query, job, &heads, names, fields, places, files, &mut sink,
        &mut ran,
    ) {
        Ok(()) => {}
        Err(fault) => return Err(fault),
    }
    match sink.top.finish_cut(alloc, query.skip, query.take) {
        Ok(rows) => Ok(SortedRows { rows, ran }),
        Err(OutOfMemory) => Err(ScanFault::OutOfMemory),
    }
}

/// No rows, with room for as many as the query's OFFSET and LIMIT need.
fn empty_sink(alloc: Global, query: &Query) -> Result<TopSink, OutOfMemory>
    ensures { IfOk result (λ s. IsEmptyTop (falling (query_view query.now)) query.now.skip
        query.now.take s.top) }
{
    let flags = flags_of(alloc, &query.order)?;
    let top = empty_top(alloc, flags.as_slice(), query.skip, query.take)?;
    Ok(TopSink { top })
}
