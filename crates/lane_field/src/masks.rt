ghost use Rattle.std.specs.Prelude.{◌≡◌, ◌<◌, ◌||◌, ℕ, nat_eq};
ghost use Rattle.lane_base.specs.Bits.{has};

use lane_base::LaneMask;

/// The mask and one lane more, which is below 16.
#[inline(always)]
#[tactic(auto, using(lane_base::proofs::SetBits::set_bit))]
pub(crate) fn and_lane(m: LaneMask, lane: u32) -> LaneMask
    requires { lane < 16 }
    ensures { (i : ℕ) → has result.0 i ≡ (nat_eq i lane || has m.0 i) }
{
    LaneMask(m.0 | 1 << lane)
}
