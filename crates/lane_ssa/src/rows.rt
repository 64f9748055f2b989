ghost use Rattle.std.specs.Prelude.{◌≡◌, ◌<◌, ℕ, List, Some, length, slice_get, nat_lt};
ghost use Rattle.value_meaning.specs.Val.{Val};
ghost use Rattle.block_meaning.specs.Tables.{Table};
ghost use Rattle.block_meaning.specs.Blocks.{AreRows};
ghost use Rattle.block_file.specs.Chunks.{AreCellsOf};
ghost use Rattle.program_meaning.specs.Registers.{lane_of};
ghost use Rattle.lane_base.specs.Bits.{has};
ghost use Rattle.lane_base.specs.Registers.{span_at, AreLegal};
ghost use Rattle.lane_ssa.specs.Making.{lane_at};

use block_file::Chunk;
use lane_base::{LaneMask, Lanes, SpanLanes};

/// The lanes that hold a row.
#[inline(always)]
pub(crate) fn live_of(chunk: &Chunk<'_>) -> LaneMask
    ensures { (i : ℕ) → i < 16 → has result.0 i ≡ nat_lt i (length chunk.now) }
{
    LaneMask(chunk.live())
}

/// The bytes of the row in a lane, which is below 16; none in a dead lane.
#[inline(always)]
fn row_in<'b>(chunk: &Chunk<'b>, live: LaneMask, lane: u32) -> &'b [u8]
    requires live { (i : ℕ) → i < 16 → has live.0 i ≡ nat_lt i (length chunk.now) }
    requires lane { lane < 16 }
    ensures { lane < length chunk.now → slice_get chunk.now lane ≡ Some result.now }
{
    if live.has(lane) { chunk.row(lane) } else { &[] }
}

/// The bytes of the rows in their lanes.
fn spans_of<'b>(chunk: &Chunk<'b>, live: LaneMask) -> SpanLanes<'b>
    requires live { (i : ℕ) → i < 16 → has live.0 i ≡ nat_lt i (length chunk.now) }
    ensures { (i : ℕ) → i < 16 → i < length chunk.now → slice_get chunk.now i ≡ Some (span_at result.lanes i) }
{
    let mut lanes: [&'b [u8]; 16] = [&[]; 16];
    for i in 0..16usize {
        lanes[i] = row_in(chunk, live, i as u32);
    }
    SpanLanes { lanes }
}

/// The rows in their lanes; dead lanes are MISSING.
pub(crate) fn rows16<'b>(chunk: &Chunk<'b>, live: LaneMask) -> Lanes<'b>
    requires live { (i : ℕ) → i < 16 → has live.0 i ≡ nat_lt i (length chunk.now) }
    ensures lanes { (table : Table) (rows : List Val) → AreCellsOf table rows chunk.now → (i : ℕ) → i < 16
        → lane_at table live.0 result i ≡ lane_of (slice_get rows i) }
    ensures legal { (table : Table) (rows : List Val) → AreCellsOf table rows chunk.now → AreRows rows → AreLegal table result }
{
    Lanes::trees(live, spans_of(chunk, live))
}
