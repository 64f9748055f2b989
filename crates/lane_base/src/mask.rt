ghost use Rattle.std.specs.Prelude.{◌≡◌, ◌<◌, ◌↔◌, ℕ, true, false, IsTrue, ◌&&◌, ◌||◌, not, nat_eq, count_by};
ghost use Rattle.std.specs.List.{range_with_len};
ghost use Rattle.lane_base.specs.Bits.{has};

/// A set of lanes: bit `i` is lane `i`.
#[derive(Clone, Copy, Debug, PartialEq, Eq)]
pub struct LaneMask(pub u16);

impl LaneMask {
    /// The mask of no lane.
    #[inline(always)]
    #[tactic(auto, using(crate::proofs::BitLemmas::has_rules))]
    pub fn none() -> LaneMask
        ensures { (i : ℕ) → has result.0 i ≡ false }
    {
        LaneMask(0)
    }

    /// The mask of all sixteen lanes.
    #[inline(always)]
    #[tactic(auto, using(crate::proofs::BitLemmas::has_rules))]
    pub fn all() -> LaneMask
        ensures { (i : ℕ) → i < 16 → has result.0 i ≡ true }
    {
        LaneMask(u16::MAX)
    }

    /// Whether the lane, which is below 16, is in the mask.
    #[inline(always)]
    pub fn has(self, lane: u32) -> bool
        requires { lane < 16 }
        ensures { result ≡ has self.0 lane }
    {
        (self.0 >> lane) & 1 == 1
    }

    /// The mask, and the lane, which is below 16, where it is to be in.
    #[inline(always)]
    #[tactic(auto, using(crate::proofs::SetBits::set_bit))]
    pub fn with_lane(self, lane: u32, is_in: bool) -> LaneMask
        requires { lane < 16 }
        ensures { (i : ℕ) → has result.0 i ≡ ((nat_eq i lane && is_in) || has self.0 i) }
    {
        if is_in {
            LaneMask(self.0 | 1 << lane)
        } else {
            self
        }
    }

    /// The lanes of both masks.
    #[inline(always)]
    #[tactic(auto, using(crate::proofs::BitLemmas::has_rules))]
    pub fn and(self, other: LaneMask) -> LaneMask
        ensures { (i : ℕ) → has result.0 i ≡ (has self.0 i && has other.0 i) }
    {
        LaneMask(self.0 & other.0)
    }

    /// The lanes of at least one of two masks.
    #[inline(always)]
    #[tactic(auto, using(crate::proofs::BitLemmas::has_rules))]
    pub fn or(self, other: LaneMask) -> LaneMask
        ensures { (i : ℕ) → has result.0 i ≡ (has self.0 i || has other.0 i) }
    {
        LaneMask(self.0 | other.0)
    }

    /// The lanes of the mask that aren't in the other.
    #[inline(always)]
    #[tactic(auto, using(crate::proofs::BitLemmas::has_rules))]
    pub fn minus(self, other: LaneMask) -> LaneMask
        ensures { (i : ℕ) → has result.0 i ≡ (has self.0 i && not (has other.0 i)) }
    {
        LaneMask(self.0 ^ (self.0 & other.0))
    }

    /// How many lanes are in the mask.
    #[inline(always)]
    pub fn count(self) -> u32
        ensures { result ≡ count_by (has self.0) (range_with_len 0 16) }
    {
        self.0.count_ones()
    }

    /// Whether no lane is in the mask.
    #[inline(always)]
    pub fn is_none(self) -> bool
        ensures { IsTrue result ↔ ((i : ℕ) → i < 16 → has self.0 i ≡ false) }
    {
        self.0 == 0
    }
}
