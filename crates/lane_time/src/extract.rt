//! EXTRACT.

ghost use Rattle.std.specs.Prelude.{◌≡◌, ◌<◌, ℕ, true};
ghost use Rattle.value_meaning.specs.Val.{int};
ghost use Rattle.time_meaning.specs.Moments.{IsTime};
ghost use Rattle.block_meaning.specs.Tables.{Table};
ghost use Rattle.tree_meaning.specs.declared.Part.TheVariants as part;
ghost use Rattle.tree_meaning.specs.Parts.{is_extracted};
ghost use Rattle.eval_meaning.specs.Times.{extract, extract_of, counted};
ghost use Rattle.lane_base.specs.Bits.{has};
ghost use Rattle.lane_base.specs.Registers.{value_at, under, number_at, AreLegal, AreLegalIn};

use crate::each::at_times;
use lane_base::{IntLanes, LaneMask, Lanes};
use time_print::clock_at;
use tree_meaning::Part;

/// `EXTRACT(part FROM a)` in the lanes of `m`: what a calendar and a clock in UTC show of the part. Microseconds are those
/// within the second.
pub fn extract16<'b>(part: Part, a: &Lanes<'b>, m: LaneMask) -> Lanes<'b>
    requires { is_extracted part ≡ true }
    ensures value { (table : Table) → AreLegalIn table m.0 a.now → (i : ℕ) → i < 16
        → value_at table result i ≡ under (has m.0 i) (extract_of part (value_at table a.now i)) }
    ensures legal { (table : Table) → AreLegal table result }
{
    let null = m.and(a.null);
    let number = m.and(a.time);
    Lanes::ints(null, number, extract_nums(part, &a.nums))
}

// What is shown of each lane whose number is a time.
fn extract_nums(part: Part, nums: &IntLanes) -> IntLanes
    requires { is_extracted part ≡ true }
    ensures { (k : ℕ) → k < 16 → IsTime (number_at nums.now.lanes k)
        → int (number_at result.lanes k) ≡ counted (extract part (number_at nums.now.lanes k)) }
{
    match part {
        Part::Microsecond => at_times(nums, microsecond_at),
        Part::Second => at_times(nums, second_at),
        Part::Minute => at_times(nums, minute_at),
        Part::Hour => at_times(nums, hour_at),
        Part::Day => at_times(nums, day_at),
        Part::Week => unreachable!(),
        Part::Month => at_times(nums, month_at),
        Part::Quarter => at_times(nums, quarter_at),
        Part::Year => at_times(nums, year_at),
    }
}

// The microseconds within the second.
#[inline(always)]
#[tactic(auto, unfolding(eval_meaning::specs::Times::extract))]
fn microsecond_at(time: i64) -> i64
    ensures { int result ≡ counted (extract part.Microsecond time) }
{
    time.rem_euclid(1_000_000)
}

// The seconds within the minute.
#[inline(always)]
#[tactic(auto, unfolding(eval_meaning::specs::Times::extract))]
fn second_at(time: i64) -> i64
    ensures { int result ≡ counted (extract part.Second time) }
{
    time.rem_euclid(60_000_000) / 1_000_000
}

// The minutes within the hour.
#[inline(always)]
#[tactic(auto, unfolding(eval_meaning::specs::Times::extract))]
fn minute_at(time: i64) -> i64
    ensures { int result ≡ counted (extract part.Minute time) }
{
    time.rem_euclid(3_600_000_000) / 60_000_000
}

// The hours within the day.
#[inline(always)]
#[tactic(auto, unfolding(eval_meaning::specs::Times::extract))]
fn hour_at(time: i64) -> i64
    ensures { int result ≡ counted (extract part.Hour time) }
{
    time.rem_euclid(86_400_000_000) / 3_600_000_000
}

// The place of the day in its month, from 1.
#[inline(always)]
#[tactic(auto, unfolding(eval_meaning::specs::Times::extract))]
fn day_at(time: i64) -> i64
    requires { IsTime time }
    ensures { int result ≡ counted (extract part.Day time) }
{
    i64::from(clock_at(time).day)
}

// The month, from 1.
#[inline(always)]
#[tactic(auto, unfolding(eval_meaning::specs::Times::extract))]
fn month_at(time: i64) -> i64
    requires { IsTime time }
    ensures { int result ≡ counted (extract part.Month time) }
{
    i64::from(clock_at(time).month)
}

// The quarter, from 1.
#[inline(always)]
#[tactic(auto, unfolding(eval_meaning::specs::Times::extract))]
fn quarter_at(time: i64) -> i64
    requires { IsTime time }
    ensures { int result ≡ counted (extract part.Quarter time) }
{
    i64::from((clock_at(time).month - 1) / 3 + 1)
}

// The year.
#[inline(always)]
#[tactic(auto, unfolding(eval_meaning::specs::Times::extract))]
fn year_at(time: i64) -> i64
    requires { IsTime time }
    ensures { int result ≡ counted (extract part.Year time) }
{
    i64::from(clock_at(time).year)
}
