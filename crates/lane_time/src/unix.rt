//! TO_UNIX_EPOCH and TO_UNIX_MICRO.

ghost use Rattle.std.specs.Prelude.{◌≡◌, ◌<◌, ℕ, true, pos, [], ◌∷◌};
ghost use Rattle.std.specs.Int.{int_div_euclid};
ghost use Rattle.value_meaning.specs.Val.{int, time};
ghost use Rattle.time_meaning.specs.Moments.{IsTime};
ghost use Rattle.block_meaning.specs.Tables.{Table};
ghost use Rattle.eval_meaning.specs.Evaluation.{call_of};
ghost use Rattle.program_meaning.specs.Programs.{is_unix};
ghost use Rattle.lane_base.specs.Bits.{has};
ghost use Rattle.lane_base.specs.Registers.{value_at, under, number_at, AreLegal, AreLegalIn};

use crate::each::at_times;
use lane_base::{IntLanes, LaneMask, Lanes};
use tree_meaning::Func;

/// `TO_UNIX_EPOCH(a)` or `TO_UNIX_MICRO(a)` in the lanes of `m`: whole seconds, cut down, or microseconds from
/// 1970-01-01T00:00:00Z on.
pub fn unix16<'b>(name: Func, a: &Lanes<'b>, m: LaneMask) -> Lanes<'b>
    requires { is_unix name ≡ true }
    ensures value { (table : Table) → AreLegalIn table m.0 a.now → (i : ℕ) → i < 16
        → value_at table result i ≡ under (has m.0 i) (call_of name (value_at table a.now i ∷ [])) }
    ensures legal { (table : Table) → AreLegal table result }
{
    let null = m.and(a.null);
    let number = m.and(a.time);
    Lanes::ints(null, number, unix_nums(name, &a.nums))
}

// What the function gives of each lane whose number is a time.
fn unix_nums(name: Func, nums: &IntLanes) -> IntLanes
    requires { is_unix name ≡ true }
    ensures { (k : ℕ) → k < 16 → IsTime (number_at nums.now.lanes k)
        → int (number_at result.lanes k) ≡ call_of name (time (number_at nums.now.lanes k) ∷ []) }
{
    match name {
        Func::UnixEpoch => at_times(nums, epoch_second),
        Func::UnixMicro => *nums,
        _ => unreachable!(),
    }
}

// The whole seconds of the time, cut down.
#[inline(always)]
fn epoch_second(time: i64) -> i64
    ensures { result ≡ int_div_euclid time (pos 1_000_000) }
{
    time.div_euclid(1_000_000)
}
