//! DATE_ADD.

ghost use Rattle.std.specs.Prelude.{◌≡◌, ◌<◌, ◌≤◌, ℕ, ℤ, pos, true, IsTrue, Some, ◌+ℤ◌, ◌*ℤ◌};
ghost use Rattle.time_meaning.specs.Moments.{is_time, IsTime};
ghost use Rattle.block_meaning.specs.Tables.{Table};
ghost use Rattle.tree_meaning.specs.Parts.{is_added};
ghost use Rattle.eval_meaning.specs.Times as spec;
ghost use Rattle.eval_meaning.specs.Times.{shift_of};
ghost use Rattle.lane_base.specs.Bits.{has};
ghost use Rattle.lane_base.specs.Registers.{value_at, under, number_at, AreLegal, AreLegalIn};
ghost use Rattle.lane_time.specs.Moving.{moved_at};

use crate::each::{FIRST_TIME, LAST_TIME};
use lane_base::{IntLanes, LaneMask, Lanes};
use tree_meaning::Part;

/// The sums of times and distances, and the lanes in which the calendar's range has the sum.
#[derive(Clone, Copy)]
struct MovedLanes {
    nums: IntLanes,
    within: LaneMask,
}

/// A sum of a time and a distance, and whether the calendar's range has it.
#[derive(Clone, Copy)]
struct Moved {
    time: i64,
    within: bool,
}

/// `DATE_ADD(part, n, a)` in the lanes of `m`: the time plus the number times the part, MISSING out of range.
pub fn shift16<'b>(part: Part, n: &Lanes<'b>, a: &Lanes<'b>, m: LaneMask) -> Lanes<'b>
    requires { is_added part ≡ true }
    ensures value { (table : Table) → AreLegalIn table m.0 n.now → AreLegalIn table m.0 a.now
        → (i : ℕ) → i < 16 → value_at table result i
        ≡ under (has m.0 i) (shift_of part (value_at table n.now i) (value_at table a.now i)) }
    ensures legal { (table : Table) → AreLegalIn table m.0 n.now → AreLegalIn table m.0 a.now
        → AreLegal table result }
{
    let null = m.and(n.null.and(a.present()).or(n.present().and(a.null)));
    let moved = moved_nums(length_of(part), &n.nums, &a.nums);
    let moment = m.and(n.int.and(a.time).and(moved.within));
    Lanes::times(null, moment, moved.nums)
}

// The time of each lane plus the number of the lane times the length, in microseconds.
fn moved_nums(length: u64, counts: &IntLanes, times: &IntLanes) -> MovedLanes
    requires { length ≤ 604_800_000_000 }
    ensures within { (k : ℕ) → k < 16
        → has result.within.0 k ≡ is_time (moved_at length counts.now.lanes times.now.lanes k) }
    ensures nums { (k : ℕ) → k < 16 → has result.within.0 k ≡ true
        → number_at result.nums.lanes k ≡ moved_at length counts.now.lanes times.now.lanes k }
{
    let mut lanes = [0i64; 16];
    let mut within = LaneMask::none();
    for i in 0..16usize {
        let moved = moved_by(length, counts.lanes[i], times.lanes[i]);
        lanes[i] = moved.time;
        within = within.with_lane(i as u32, moved.within);
    }
    MovedLanes {
        nums: IntLanes { lanes },
        within,
    }
}

// The time plus so many of a length in microseconds. Out of range the first time stands in its place.
#[inline(always)]
fn moved_by(length: u64, count: i64, time: i64) -> Moved
    requires { length ≤ 604_800_000_000 }
    ensures within { result.within ≡ is_time (time +ℤ count *ℤ pos length) }
    ensures time { IsTrue result.within → result.time ≡ time +ℤ count *ℤ pos length }
{
    let moment = sum_of(length, count, time);
    if is_in_range(moment) {
        Moved {
            time: moment as i64,
            within: true,
        }
    } else {
        Moved {
            time: FIRST_TIME,
            within: false,
        }
    }
}

// The time plus so many of a length in microseconds.
#[inline(always)]
fn sum_of(length: u64, count: i64, time: i64) -> i128
    requires { length ≤ 604_800_000_000 }
    ensures { result ≡ time +ℤ count *ℤ pos length }
{
    let distance = i128::from(count) * i128::from(length);
    i128::from(time) + distance
}

// Whether the calendar's range has the time.
#[inline(always)]
fn is_in_range(time: i128) -> bool
    ensures { result ≡ is_time time }
{
    time >= i128::from(FIRST_TIME) && time <= i128::from(LAST_TIME)
}

// The microseconds of a part that has one length.
fn length_of(part: Part) -> u64
    requires { is_added part ≡ true }
    ensures value { spec.length_of part ≡ Some result }
    ensures bound { result ≤ 604_800_000_000 }
{
    match part {
        Part::Microsecond => 1,
        Part::Second => 1_000_000,
        Part::Minute => 60_000_000,
        Part::Hour => 3_600_000_000,
        Part::Day => 86_400_000_000,
        Part::Week => 604_800_000_000,
        _ => unreachable!(),
    }
}
