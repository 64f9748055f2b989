ghost use Rattle.std.specs.Prelude.{◌≡◌, ◌<◌, ℕ, ◌&&◌};
ghost use Rattle.std.specs.Ordering.{nat_cmp};
ghost use Rattle.std.specs.Cmp.Lexicographic.{slice_cmp};
ghost use Rattle.eval_meaning.specs.Comparisons.{meets};
ghost use Rattle.lane_base.specs.Bits.{has};
ghost use Rattle.lane_base.specs.Registers.{span_at};

use lane_base::{LaneMask, SpanLanes};
use tree_meaning::BinOp;

/// The lanes of `m` in which `a op b` of the bytes of their spans.
#[inline(always)]
pub(crate) fn texts_meet(op: BinOp, a: &SpanLanes<'_>, b: &SpanLanes<'_>, m: LaneMask) -> LaneMask
    ensures { (k : ℕ) → k < 16 → has result.0 k
        ≡ (has m.0 k && meets op (slice_cmp nat_cmp (span_at a.now.lanes k) (span_at b.now.lanes k))) }
{
    if m.is_none() {
        m
    } else {
        each_text_meets(op, a, b, m)
    }
}

// The same, lane by lane.
fn each_text_meets(op: BinOp, a: &SpanLanes<'_>, b: &SpanLanes<'_>, m: LaneMask) -> LaneMask
    ensures { (k : ℕ) → k < 16 → has result.0 k
        ≡ (has m.0 k && meets op (slice_cmp nat_cmp (span_at a.now.lanes k) (span_at b.now.lanes k))) }
{
    let mut mask = 0u16;
    for i in 0..16usize {
        if m.has(i as u32) && text_meets(op, a.lanes[i], b.lanes[i]) {
            mask |= 1 << i;
        }
    }
    LaneMask(mask)
}

// Whether `a op b` of two texts by bytes. Whether they are the same is told without their order.
#[inline(always)]
#[tactic(auto, using(crate::proofs::Tested::same_bytes))]
fn text_meets(op: BinOp, a: &[u8], b: &[u8]) -> bool
    ensures { result ≡ meets op (slice_cmp nat_cmp a.now b.now) }
{
    match op {
        BinOp::Eq => a == b,
        BinOp::Ne => a != b,
        BinOp::Lt => a.cmp(b).is_lt(),
        BinOp::Le => a.cmp(b).is_le(),
        BinOp::Gt => a.cmp(b).is_gt(),
        BinOp::Ge => a.cmp(b).is_ge(),
        _ => false,
    }
}
