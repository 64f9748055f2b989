ghost use Rattle.std.specs.Prelude.{◌≡◌, ◌≤◌, ◌+◌, ◌-◌, ◌*◌, ◌/◌, pos, neg_ℤ};
ghost use Rattle.std.specs.Int.{IsInRange};
ghost use Rattle.jiff_core.specs.Calendar.{days_from_civil, IsBetween, IsEpochDay};
ghost use Rattle.time_meaning.specs.Moments.{IsTime};
ghost use Rattle.time_meaning.specs.Printed as printed;
ghost use Rattle.eval_meaning.specs.Times as spec;

use jiff_core::civil::Date;
use time_print::{Clock, clock_at};
use tree_meaning::Part;

/// The greatest start of such a part that isn't after the time.
#[tactic(auto, unfolding(eval_meaning::specs::Times::trunc))]
pub(crate) fn trunc(part: Part, time: i64) -> i64
    requires { IsTime time }
    ensures { result ≡ spec.trunc part time }
{
    match part {
        Part::Microsecond => time,
        Part::Second => second_start(time),
        Part::Minute => minute_start(time),
        Part::Hour => hour_start(time),
        Part::Day => midnight(day_at(time)),
        Part::Week => midnight(monday_of(day_at(time))),
        Part::Month => {
            let date = clock_at(time);
            midnight(first_day(date.year, date.month))
        }
        Part::Quarter => midnight(quarter_start(clock_at(time))),
        Part::Year => midnight(first_day(clock_at(time).year, 1)),
    }
}

/// What a calendar and a clock in UTC show of such a part at the time.
#[tactic(auto, unfolding(eval_meaning::specs::Times::extract))]
pub(crate) fn extract(part: Part, time: i64) -> Option<u64>
    requires { IsTime time }
    ensures { result ≡ spec.extract part time }
{
    match part {
        Part::Microsecond => Some(micros_at(time) % 1_000_000),
        Part::Second => Some(micros_at(time) / 1_000_000 % 60),
        Part::Minute => Some(micros_at(time) / 60_000_000 % 60),
        Part::Hour => Some(micros_at(time) / 3_600_000_000),
        Part::Day => Some(u64::from(clock_at(time).day)),
        Part::Week => None,
        Part::Month => Some(u64::from(clock_at(time).month)),
        Part::Quarter => Some((u64::from(clock_at(time).month) - 1) / 3 + 1),
        Part::Year => Some(u64::from(clock_at(time).year)),
    }
}

/// The number of the day on which the time lies, where 1970-01-01 is 0.
fn day_at(time: i64) -> i64
    requires { IsTime time }
    ensures value { result ≡ printed.day_at time }
    ensures in_range { IsBetween (neg_ℤ (pos 719_162)) (pos 2_932_896) result }
{
    time.div_euclid(86_400_000_000)
}

/// The microseconds from the start of the day on.
fn micros_at(time: i64) -> u64
    ensures value { result ≡ printed.micros_at time }
    ensures bound { result ≤ 86_399_999_999 }
{
    time.rem_euclid(86_400_000_000) as u64
}

/// The first moment of a day.
fn midnight(day: i64) -> i64
    requires { IsEpochDay day }
    ensures { result ≡ spec.midnight day }
{
    day * 86_400_000_000
}

/// The Monday that isn't after the day.
#[tactic(auto, unfolding(jiff_core::specs::Calendar::weekday_number))]
fn monday_of(day: i64) -> i64
    requires { IsBetween (neg_ℤ (pos 719_162)) (pos 2_932_896) day }
    ensures value { result ≡ spec.monday_of day }
    ensures bound { IsEpochDay result }
{
    day - (day + 3).rem_euclid(7)
}

/// The first day of a month.
fn first_day(year: u16, month: u8) -> i64
    requires year_in { IsInRange 1 9999 year }
    requires month_in { IsInRange 1 12 month }
    ensures value { result ≡ days_from_civil (pos year) month 1 }
    ensures bound { IsEpochDay result }
{
    match Date::new(year as i16, month as i8, 1) {
        Ok(date) => i64::from(date.to_unix_epoch_day()),
        Err(_) => unreachable!(),
    }
}

/// The start of the time's second.
fn second_start(time: i64) -> i64
    requires { IsTime time }
    ensures { result ≡ spec.last_multiple 1_000_000 time }
{
    time.div_euclid(1_000_000) * 1_000_000
}

/// The start of the time's minute.
fn minute_start(time: i64) -> i64
    requires { IsTime time }
    ensures { result ≡ spec.last_multiple 60_000_000 time }
{
    time.div_euclid(60_000_000) * 60_000_000
}

/// The start of the time's hour.
fn hour_start(time: i64) -> i64
    requires { IsTime time }
    ensures { result ≡ spec.last_multiple 3_600_000_000 time }
{
    time.div_euclid(3_600_000_000) * 3_600_000_000
}

/// The first day of the quarter in which the date lies.
fn quarter_start(date: Clock) -> i64
    requires year_in { IsInRange 1 9999 date.year }
    requires month_in { IsInRange 1 12 date.month }
    ensures value { result ≡ days_from_civil (pos date.year) ((date.month - 1) / 3 * 3 + 1) 1 }
    ensures bound { IsEpochDay result }
{
    first_day(date.year, (date.month - 1) / 3 * 3 + 1)
}
