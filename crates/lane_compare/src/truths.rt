ghost use Rattle.std.specs.Prelude.{◌≡◌, ◌<◌, ℕ};
ghost use Rattle.std.specs.Ordering.{bool_cmp};
ghost use Rattle.eval_meaning.specs.Comparisons.{meets};
ghost use Rattle.lane_base.specs.Bits.{has};

use lane_base::LaneMask;
use tree_meaning::BinOp;

/// The lanes in which `a op b`, where a truth value is true in the lanes of its mask, and false is below true.
#[inline(always)]
pub(crate) fn truths_meet(op: BinOp, a: LaneMask, b: LaneMask) -> LaneMask
    ensures { (k : ℕ) → k < 16 → has result.0 k ≡ meets op (bool_cmp (has a.0 k) (has b.0 k)) }
{
    let all = LaneMask::all();
    let below = b.minus(a);
    let above = a.minus(b);
    match op {
        BinOp::Eq => all.minus(below.or(above)),
        BinOp::Ne => below.or(above),
        BinOp::Lt => below,
        BinOp::Le => all.minus(above),
        BinOp::Gt => above,
        BinOp::Ge => all.minus(below),
        _ => LaneMask::none(),
    }
}
