ghost use Rattle.std.specs.Prelude.{◌≡◌, ◌<◌, ℕ, true};
ghost use Rattle.eval_meaning.specs.Numbers as spec;
ghost use Rattle.lane_base.specs.Bits.{has};
ghost use Rattle.lane_base.specs.Registers.{number_at};
ghost use Rattle.lane_cast.specs.Made.{made_at, number_if};

use lane_base::{IntLanes, LaneMask};
use tree_meaning::BinOp;

/// Numbers, and the lanes in which there is one.
#[derive(Clone, Copy)]
pub(crate) struct Made {
    pub(crate) nums: IntLanes,
    pub(crate) ok: LaneMask,
}

/// `a op b` of the numbers in the lanes of `m`, of an operator of arithmetic.
#[inline(always)]
pub(crate) fn computed(op: BinOp, a: &IntLanes, b: &IntLanes, m: LaneMask) -> Made
    ensures { (k : ℕ) → k < 16 → has m.0 k ≡ true
        → made_at result k ≡ spec.computed op (number_at a.now.lanes k) (number_at b.now.lanes k) }
{
    match op {
        BinOp::Add => each_lane(BinOp::Add, a, b),
        BinOp::Sub => each_lane(BinOp::Sub, a, b),
        BinOp::Mul => each_lane(BinOp::Mul, a, b),
        _ => each_lane_of(op, a, b, m),
    }
}

/// `a op b` of the numbers in each lane. It is copied to where it is called, so that an operator that stands there costs
/// nothing in the loop.
#[inline(always)]
pub(crate) fn each_lane(op: BinOp, a: &IntLanes, b: &IntLanes) -> Made
    ensures { (k : ℕ) → k < 16
        → made_at result k ≡ spec.computed op (number_at a.now.lanes k) (number_at b.now.lanes k) }
{
    let mut nums = [0i64; 16];
    let mut ok = 0u16;
    for i in 0..16usize {
        let (number, is_made) = one(op, a.lanes[i], b.lanes[i]);
        nums[i] = number;
        if is_made {
            ok |= 1 << i;
        }
    }
    Made {
        nums: IntLanes { lanes: nums },
        ok: LaneMask(ok),
    }
}

// The same in the lanes of `m` alone, for what is dear, as a quotient.
fn each_lane_of(op: BinOp, a: &IntLanes, b: &IntLanes, m: LaneMask) -> Made
    ensures { (k : ℕ) → k < 16 → has m.0 k ≡ true
        → made_at result k ≡ spec.computed op (number_at a.now.lanes k) (number_at b.now.lanes k) }
{
    let mut nums = [0i64; 16];
    let mut ok = 0u16;
    for i in 0..16usize {
        if m.has(i as u32) {
            let (number, is_made) = one(op, a.lanes[i], b.lanes[i]);
            nums[i] = number;
            if is_made {
                ok |= 1 << i;
            }
        }
    }
    Made {
        nums: IntLanes { lanes: nums },
        ok: LaneMask(ok),
    }
}

// `x op y`, and whether it is a number in range.
#[inline(always)]
fn one(op: BinOp, x: i64, y: i64) -> (i64, bool)
    ensures { number_if result.1 result.0 ≡ spec.computed op x y }
{
    match op {
        BinOp::Add => {
            let (sum, wraps) = x.overflowing_add(y);
            (sum, !wraps)
        }
        BinOp::Sub => {
            let (difference, wraps) = x.overflowing_sub(y);
            (difference, !wraps)
        }
        BinOp::Mul => {
            let (product, wraps) = x.overflowing_mul(y);
            (product, !wraps)
        }
        BinOp::Div => match x.checked_div(y) {
            Some(quotient) => (quotient, true),
            None => (0, false),
        },
        BinOp::Rem => {
            if y == 0 {
                (0, false)
            } else {
                (x.wrapping_rem(y), true)
            }
        }
        _ => (0, false),
    }
}
