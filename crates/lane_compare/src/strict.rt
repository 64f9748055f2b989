ghost use Rattle.std.specs.Prelude.{◌≡◌, ◌<◌, ℕ, not, ◌&&◌, ◌||◌};
ghost use Rattle.block_meaning.specs.Tables.{Table};
ghost use Rattle.lane_base.specs.Bits.{has};
ghost use Rattle.lane_base.specs.Registers.{value_at, AreLegalIn};
ghost use Rattle.lane_compare.specs.Operands.{is_null_of_two};

use lane_base::{LaneMask, Lanes};

/// The lanes of `m` in which one operand is NULL and neither is MISSING, so that an operator of two operands is NULL.
#[inline(always)]
pub fn null16(a: &Lanes<'_>, b: &Lanes<'_>, m: LaneMask) -> LaneMask
    ensures value { (table : Table) → AreLegalIn table m.0 a.now → AreLegalIn table m.0 b.now
        → (i : ℕ) → i < 16 → has result.0 i
        ≡ (has m.0 i && is_null_of_two (value_at table a.now i) (value_at table b.now i)) }
{
    let null_a = a.null.and(b.present());
    let null_b = b.null.and(a.present());
    m.and(null_a.or(null_b))
}
