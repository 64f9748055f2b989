//! DATE_TRUNC.

ghost use Rattle.std.specs.Prelude.{◌≡◌, ◌<◌, ℕ};
ghost use Rattle.time_meaning.specs.Moments.{IsTime};
ghost use Rattle.block_meaning.specs.Tables.{Table};
ghost use Rattle.tree_meaning.specs.declared.Part.TheVariants as part;
ghost use Rattle.eval_meaning.specs.Times.{trunc, trunc_of};
ghost use Rattle.lane_base.specs.Bits.{has};
ghost use Rattle.lane_base.specs.Registers.{value_at, under, number_at, AreLegal, AreLegalIn};

use crate::dates::{first_day, midnight};
use crate::each::at_times;
use lane_base::{IntLanes, LaneMask, Lanes};
use time_print::clock_at;
use tree_meaning::Part;

/// `DATE_TRUNC(part, a)` in the lanes of `m`: the greatest start of such a part that isn't after the time. Weeks begin on
/// Monday.
pub fn trunc16<'b>(part: Part, a: &Lanes<'b>, m: LaneMask) -> Lanes<'b>
    ensures value { (table : Table) → AreLegalIn table m.0 a.now → (i : ℕ) → i < 16
        → value_at table result i ≡ under (has m.0 i) (trunc_of part (value_at table a.now i)) }
    ensures legal { (table : Table) → AreLegalIn table m.0 a.now → AreLegal table result }
{
    let null = m.and(a.null);
    let moment = m.and(a.time);
    Lanes::times(null, moment, trunc_nums(part, &a.nums))
}

// The start of each lane whose number is a time.
fn trunc_nums(part: Part, nums: &IntLanes) -> IntLanes
    ensures { (k : ℕ) → k < 16 → IsTime (number_at nums.now.lanes k)
        → number_at result.lanes k ≡ trunc part (number_at nums.now.lanes k) }
{
    match part {
        Part::Microsecond => *nums,
        Part::Second => at_times(nums, second_start),
        Part::Minute => at_times(nums, minute_start),
        Part::Hour => at_times(nums, hour_start),
        Part::Day => at_times(nums, day_start),
        Part::Week => at_times(nums, week_start),
        Part::Month => at_times(nums, month_start),
        Part::Quarter => at_times(nums, quarter_start),
        Part::Year => at_times(nums, year_start),
    }
}

// The start of the time's second.
#[inline(always)]
#[tactic(auto, unfolding(eval_meaning::specs::Times::trunc))]
fn second_start(time: i64) -> i64
    requires { IsTime time }
    ensures { result ≡ trunc part.Second time }
{
    time.div_euclid(1_000_000) * 1_000_000
}

// The start of the time's minute.
#[inline(always)]
#[tactic(auto, unfolding(eval_meaning::specs::Times::trunc))]
fn minute_start(time: i64) -> i64
    requires { IsTime time }
    ensures { result ≡ trunc part.Minute time }
{
    time.div_euclid(60_000_000) * 60_000_000
}

// The start of the time's hour.
#[inline(always)]
#[tactic(auto, unfolding(eval_meaning::specs::Times::trunc))]
fn hour_start(time: i64) -> i64
    requires { IsTime time }
    ensures { result ≡ trunc part.Hour time }
{
    time.div_euclid(3_600_000_000) * 3_600_000_000
}

// The start of the time's day.
#[inline(always)]
#[tactic(auto, unfolding(eval_meaning::specs::Times::trunc))]
fn day_start(time: i64) -> i64
    requires { IsTime time }
    ensures { result ≡ trunc part.Day time }
{
    time.div_euclid(86_400_000_000) * 86_400_000_000
}

// The start of the time's week. The Monday before 1970-01-01 is three days back.
#[inline(always)]
#[tactic(auto, using(crate::proofs::Weeks::week_start_is))]
fn week_start(time: i64) -> i64
    requires { IsTime time }
    ensures { result ≡ trunc part.Week time }
{
    (time + 259_200_000_000).div_euclid(604_800_000_000) * 604_800_000_000 - 259_200_000_000
}

// The start of the time's month.
#[inline(always)]
#[tactic(auto, unfolding(eval_meaning::specs::Times::trunc))]
fn month_start(time: i64) -> i64
    requires { IsTime time }
    ensures { result ≡ trunc part.Month time }
{
    let clock = clock_at(time);
    midnight(first_day(clock.year, clock.month))
}

// The start of the time's quarter.
#[inline(always)]
#[tactic(auto, unfolding(eval_meaning::specs::Times::trunc))]
fn quarter_start(time: i64) -> i64
    requires { IsTime time }
    ensures { result ≡ trunc part.Quarter time }
{
    let clock = clock_at(time);
    midnight(first_day(clock.year, (clock.month - 1) / 3 * 3 + 1))
}

// The start of the time's year.
#[inline(always)]
#[tactic(auto, unfolding(eval_meaning::specs::Times::trunc))]
fn year_start(time: i64) -> i64
    requires { IsTime time }
    ensures { result ≡ trunc part.Year time }
{
    midnight(first_day(clock_at(time).year, 1))
}
