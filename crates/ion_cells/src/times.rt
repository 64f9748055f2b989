ghost use Rattle.std.specs.Prelude.{◌≡◌, ◌+◌, ◌-◌, ◌*◌, ◌<◌, ◌≤◌, ◌^◌, pos, length, is_some, IfSome};
ghost use Rattle.std.specs.Option.{option_map};
ghost use Rattle.block_meaning.specs.Timestamps as spec;

use crate::numbers::{magnitude, next_int, next_uint};
use jiff_core::civil::Date;

/// The number at the front, or the least of its field where nothing is left.
#[tactic(auto, unfolding(block_meaning::specs::Timestamps::or_least))]
fn or_least(bytes: &[u8], least: u32) -> Option<(u32, &[u8])>
    requires { least < 2 ^ 28 }
    ensures number { option_map (λ x. (x.0, x.1.now)) result ≡ spec.or_least least bytes.now }
    ensures small { IfSome result (λ x. x.0 < 2 ^ 28) }
{
    if bytes.is_empty() {
        Some((least, bytes))
    } else {
        next_uint(bytes)
    }
}

/// The hour and the minute, 0 and 0 where nothing is left.
#[tactic(auto, unfolding(block_meaning::specs::Timestamps::clock))]
fn clock(bytes: &[u8]) -> Option<(u32, u32, &[u8])>
    ensures number { option_map (λ x. (x.0, x.1, x.2.now)) result ≡ spec.clock bytes.now }
{
    if bytes.is_empty() {
        return Some((0, 0, bytes));
    }
    let (hour, rest) = next_uint(bytes)?;
    let (minute, rest) = next_uint(rest)?;
    Some((hour, minute, rest))
}

/// The whole microseconds of a coefficient whose last digit stands at the decimal place `places`.
#[tactic(auto, unfolding(block_meaning::specs::Timestamps::cut))]
fn cut(places: u32, bytes: &[u8]) -> Option<u32>
    requires { places ≤ 18 }
    ensures value { result ≡ spec.cut places bytes.now }
    ensures small { IfSome result (λ x. x < 1_000_000) }
{
    if bytes.len() > 8 || (!bytes.is_empty() && bytes[0] >= 128) {
        return None;
    }
    let coefficient = magnitude(bytes);
    let scale = 10u64.pow(places);
    if coefficient >= scale {
        return None;
    }
    if places == 6 {
        return Some(coefficient as u32);
    }
    Some((u128::from(coefficient) * 1_000_000 / u128::from(scale)) as u32)
}

/// The whole microseconds of the fraction of a second, 0 where nothing is left.
#[tactic(auto, unfolding(block_meaning::specs::Timestamps::fraction))]
fn fraction(bytes: &[u8]) -> Option<u32>
    ensures value { result ≡ spec.fraction bytes.now }
    ensures small { IfSome result (λ x. x < 1_000_000) }
{
    if bytes.is_empty() {
        return Some(0);
    }
    let (below_zero, places, coefficient) = next_int(bytes)?;
    if places > 18 || (!below_zero && places > 0) {
        return None;
    }
    cut(places, coefficient)
}

/// The microseconds from 1970 on of a date, a clock time and microseconds, where the calendar has the date and the
/// clock the time.
#[tactic(auto, unfolding(block_meaning::specs::Timestamps::moment_of, time_meaning::specs::Moments::is_real, time_meaning::specs::Moments::moment))]
fn moment_of(
    year: u32,
    month: u32,
    day: u32,
    hour: u32,
    minute: u32,
    second: u32,
    micros: u32,
) -> Option<i64>
    requires { micros < 1_000_000 }
    ensures { result ≡ spec.moment_of year month day hour minute second micros }
{
    if year < 1
        || year > 9999
        || month > 12
        || day > 31
        || hour > 23
        || minute > 59
        || second > 59
    {
        return None;
    }
    let Ok(date) = Date::new(year as i16, month as i8, day as i8) else {
        return None
    };
    let seconds = (hour * 60 + minute) * 60 + second;
    Some(
        i64::from(date.to_unix_epoch_day()) * 86_400_000_000
            + i64::from(seconds) * 1_000_000
            + i64::from(micros),
    )
}

/// The microseconds from 1970-01-01T00:00:00Z on of the time that the payload of a timestamp denotes.
#[inline(never)]
pub(crate) fn micros_of(payload: &[u8]) -> Option<i64>
    ensures { result ≡ spec.timestamp payload.now }
{
    if payload.len() == 8 && payload[0] == 0x80 {
        let century = payload[1];
        let year = payload[2];
        let month = payload[3];
        let day = payload[4];
        let hour = payload[5];
        let minute = payload[6];
        let second = payload[7];
        if century < 128
            && year >= 128
            && month >= 128
            && day >= 128
            && hour >= 128
            && minute >= 128
            && second >= 128
        {
            return moment_of(
                u32::from(century) * 128 + u32::from(year - 128),
                u32::from(month - 128),
                u32::from(day - 128),
                u32::from(hour - 128),
                u32::from(minute - 128),
                u32::from(second - 128),
                0,
            );
        }
    }
    micros_by_parts(payload)
}

/// Whether the payload is that of a timestamp. The calendar isn't asked for the first 28 days of a month.
#[inline(never)]
pub(crate) fn is_timestamp(payload: &[u8]) -> bool
    ensures { result ≡ is_some (spec.timestamp payload.now) }
{
    if payload.len() == 8 && payload[0] == 0x80 {
        let century = payload[1];
        let year = payload[2];
        let month = payload[3];
        let day = payload[4];
        let hour = payload[5];
        let minute = payload[6];
        let second = payload[7];
        if 1 <= century
            && century <= 77
            && year >= 128
            && 129 <= month
            && month <= 140
            && 129 <= day
            && day <= 156
            && 128 <= hour
            && hour <= 151
            && 128 <= minute
            && minute <= 187
            && 128 <= second
            && second <= 187
        {
            return true;
        }
    }
    micros_of(payload).is_some()
}

/// The same, field by field.
#[inline(never)]
#[tactic(auto, unfolding(block_meaning::specs::Timestamps::timestamp))]
fn micros_by_parts(payload: &[u8]) -> Option<i64>
    ensures { result ≡ spec.timestamp payload.now }
{
    let (_, minutes, rest) = next_int(payload)?;
    if minutes > 1439 {
        return None;
    }
    let (year, rest) = next_uint(rest)?;
    let (month, rest) = or_least(rest, 1)?;
    let (day, rest) = or_least(rest, 1)?;
    let (hour, minute, rest) = clock(rest)?;
    let (second, rest) = or_least(rest, 0)?;
    let micros = fraction(rest)?;
    moment_of(year, month, day, hour, minute, second, micros)
}
