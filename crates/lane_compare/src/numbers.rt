ghost use Rattle.std.specs.Prelude.{◌≡◌, ◌<◌, ℕ};
ghost use Rattle.std.specs.Ordering.{int_cmp, is_eq, is_lt};
ghost use Rattle.eval_meaning.specs.Comparisons.{meets};
ghost use Rattle.lane_base.specs.Bits.{has};
ghost use Rattle.lane_base.specs.Registers.{number_at};

use lane_base::{IntLanes, LaneMask};
use tree_meaning::BinOp;

/// The lanes in which `a op b` of their numbers.
#[inline(always)]
pub(crate) fn numbers_meet(op: BinOp, a: &IntLanes, b: &IntLanes) -> LaneMask
    ensures { (k : ℕ) → k < 16
        → has result.0 k ≡ meets op (int_cmp (number_at a.now.lanes k) (number_at b.now.lanes k)) }
{
    let all = LaneMask::all();
    match op {
        BinOp::Eq => equal(a, b),
        BinOp::Ne => all.minus(equal(a, b)),
        BinOp::Lt => less(a, b),
        BinOp::Le => all.minus(less(b, a)),
        BinOp::Gt => less(b, a),
        BinOp::Ge => all.minus(less(a, b)),
        _ => LaneMask::none(),
    }
}

// The lanes in which the number of `a` is below that of `b`.
fn less(a: &IntLanes, b: &IntLanes) -> LaneMask
    ensures { (k : ℕ) → k < 16
        → has result.0 k ≡ is_lt (int_cmp (number_at a.now.lanes k) (number_at b.now.lanes k)) }
{
    let mut mask = 0u16;
    for i in 0..16usize {
        if a.lanes[i] < b.lanes[i] {
            mask |= 1 << i;
        }
    }
    LaneMask(mask)
}

// The lanes in which the numbers are the same.
fn equal(a: &IntLanes, b: &IntLanes) -> LaneMask
    ensures { (k : ℕ) → k < 16
        → has result.0 k ≡ is_eq (int_cmp (number_at a.now.lanes k) (number_at b.now.lanes k)) }
{
    let mut mask = 0u16;
    for i in 0..16usize {
        if a.lanes[i] == b.lanes[i] {
            mask |= 1 << i;
        }
    }
    LaneMask(mask)
}
