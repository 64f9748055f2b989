//! Choices between two registers, lane by lane. Spans are copied, and the bytes that they lie over are not.

ghost use Rattle.std.specs.Prelude.{◌≡◌, ◌<◌, ℕ, cond};
ghost use Rattle.block_meaning.specs.Tables.{Table};
ghost use Rattle.eval_meaning.specs.Logic.{first_of};
ghost use Rattle.lane_base.specs.Bits.{has};
ghost use Rattle.lane_base.specs.Registers.{value_at, under, number_at, span_at, AreLegal, AreLegalIn};

use crate::lanes::{IntLanes, Lanes, SpanLanes};
use crate::mask::LaneMask;

/// `a` in the lanes of `pick` and `b` in the others, in the lanes of `m`.
pub fn merge16<'b>(pick: LaneMask, a: &Lanes<'b>, b: &Lanes<'b>, m: LaneMask) -> Lanes<'b>
    ensures value { (table : Table) (i : ℕ) → i < 16
        → value_at table result i ≡ under (has m.0 i)
        (cond (has pick.0 i) (value_at table a.now i) (value_at table b.now i)) }
    ensures legal { (table : Table) → AreLegalIn table m.0 a.now → AreLegalIn table m.0 b.now
        → AreLegal table result }
{
    let from_a = m.0 & pick.0;
    let from_b = m.0 ^ from_a;
    Lanes {
        null: LaneMask((a.null.0 & from_a) | (b.null.0 & from_b)),
        yes: LaneMask((a.yes.0 & from_a) | (b.yes.0 & from_b)),
        no: LaneMask((a.no.0 & from_a) | (b.no.0 & from_b)),
        int: LaneMask((a.int.0 & from_a) | (b.int.0 & from_b)),
        time: LaneMask((a.time.0 & from_a) | (b.time.0 & from_b)),
        text: LaneMask((a.text.0 & from_a) | (b.text.0 & from_b)),
        tree: LaneMask((a.tree.0 & from_a) | (b.tree.0 & from_b)),
        nums: pick_nums(pick, &a.nums, &b.nums),
        spans: pick_spans(pick, &a.spans, &b.spans),
    }
}

/// `COALESCE(a, b)` in the lanes of `m`: `a` where it is neither NULL nor MISSING, else `b`, but NULL where `b` is MISSING
/// and `a` is NULL.
pub fn first16<'b>(a: &Lanes<'b>, b: &Lanes<'b>, m: LaneMask) -> Lanes<'b>
    ensures value { (table : Table) → AreLegalIn table m.0 a.now → AreLegalIn table m.0 b.now
        → (i : ℕ) → i < 16
        → value_at table result i ≡ under (has m.0 i)
        (first_of (value_at table a.now i) (value_at table b.now i)) }
    ensures legal { (table : Table) → AreLegalIn table m.0 a.now → AreLegalIn table m.0 b.now
        → AreLegal table result }
{
    let solid = a.solid();
    let present = b.present();
    merge16(solid.or(a.null.minus(present)), a, b, m)
}

/// `a` in the lanes of `m`.
pub fn keep16<'b>(a: &Lanes<'b>, m: LaneMask) -> Lanes<'b>
    ensures value { (table : Table) (i : ℕ) → i < 16
        → value_at table result i ≡ under (has m.0 i) (value_at table a.now i) }
    ensures legal { (table : Table) → AreLegalIn table m.0 a.now → AreLegal table result }
{
    Lanes {
        null: LaneMask(a.null.0 & m.0),
        yes: LaneMask(a.yes.0 & m.0),
        no: LaneMask(a.no.0 & m.0),
        int: LaneMask(a.int.0 & m.0),
        time: LaneMask(a.time.0 & m.0),
        text: LaneMask(a.text.0 & m.0),
        tree: LaneMask(a.tree.0 & m.0),
        nums: a.nums,
        spans: a.spans,
    }
}

// The numbers of `a` in the lanes of `pick`, and those of `b` in the others.
fn pick_nums(pick: LaneMask, a: &IntLanes, b: &IntLanes) -> IntLanes
    ensures { (k : ℕ) → k < 16 → number_at result.lanes k
        ≡ cond (has pick.0 k) (number_at a.now.lanes k) (number_at b.now.lanes k) }
{
    let mut lanes = b.lanes;
    for i in 0..16usize {
        let of_a = a.lanes[i];
        let of_b = b.lanes[i];
        lanes[i] = if pick.has(i as u32) { of_a } else { of_b };
    }
    IntLanes { lanes }
}

// The spans of `a` in the lanes of `pick`, and those of `b` in the others.
fn pick_spans<'b>(pick: LaneMask, a: &SpanLanes<'b>, b: &SpanLanes<'b>) -> SpanLanes<'b>
    ensures { (k : ℕ) → k < 16 → span_at result.lanes k
        ≡ cond (has pick.0 k) (span_at a.now.lanes k) (span_at b.now.lanes k) }
{
    let mut lanes = b.lanes;
    for i in 0..16usize {
        let from = if pick.has(i as u32) { a } else { b };
        lanes[i] = from.lanes[i];
    }
    SpanLanes { lanes }
}
