ghost use Rattle.std.specs.Prelude.{◌≡◌, ◌<◌, ℕ, true};
ghost use Rattle.block_meaning.specs.Tables.{Table};
ghost use Rattle.eval_meaning.specs.Numbers.{arithmetic, negative};
ghost use Rattle.lane_base.specs.Bits.{has};
ghost use Rattle.lane_base.specs.Registers.{value_at, under, AreLegal, AreLegalIn};
ghost use Rattle.lane_cast.specs.Arithmetic.{is_arithmetic};

use crate::numbers::{computed, each_lane};
use lane_base::{IntLanes, LaneMask, Lanes};
use lane_compare::null16;
use tree_meaning::BinOp;

/// `a op b` in the lanes of `m`, where `op` is `+`, `-`, `*`, `/` or `%`.
pub fn math16<'b>(op: BinOp, a: &Lanes<'b>, b: &Lanes<'b>, m: LaneMask) -> Lanes<'b>
    requires { is_arithmetic op ≡ true }
    ensures value { (table : Table) → AreLegalIn table m.0 a.now → AreLegalIn table m.0 b.now
        → (i : ℕ) → i < 16 → value_at table result i
        ≡ under (has m.0 i) (arithmetic op (value_at table a.now i) (value_at table b.now i)) }
    ensures legal { (table : Table) → AreLegal table result }
{
    let null = null16(a, b, m);
    let both = a.int.and(b.int).and(m.minus(null));
    let made = computed(op, &a.nums, &b.nums, both);
    Lanes::ints(null, both.and(made.ok), made.nums)
}

/// `-a` in the lanes of `m`.
pub fn neg16<'b>(a: &Lanes<'b>, m: LaneMask) -> Lanes<'b>
    ensures value { (table : Table) → AreLegalIn table m.0 a.now → (i : ℕ) → i < 16
        → value_at table result i ≡ under (has m.0 i) (negative (value_at table a.now i)) }
    ensures legal { (table : Table) → AreLegal table result }
{
    let zeros = IntLanes { lanes: [0; 16] };
    let made = each_lane(BinOp::Sub, &zeros, &a.nums);
    let number = a.int.minus(a.null).and(m);
    Lanes::ints(m.and(a.null), number.and(made.ok), made.nums)
}
