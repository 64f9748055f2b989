//! Texts of times.
#![tactic(auto)]

ghost use Rattle.std.specs.Prelude.{◌≡◌, ◌+◌, ◌*◌, ◌≤◌, ◌<◌, ◌^◌, pos, neg_ℤ, ◌+ℤ◌, ◌-ℤ◌, ◌*ℤ◌, ◌≤ℤ◌, IfSome};
ghost use Rattle.jiff_core.specs.Calendar.{IsEpochDay, IsWithin};
ghost use Rattle.std.specs.Option.{option_map};
ghost use Rattle.time_meaning.specs.Texts as spec;
ghost use Rattle.time_text.specs.Few.{if_few};

use jiff_core::civil::Date;

/// The digit at the front, and what follows it.
#[tactic(auto, unfolding(time_meaning::specs::Texts::one_at))]
fn one_at(bytes: &[u8]) -> Option<(u32, &[u8])>
    ensures value { option_map (λ x. (x.0, x.1.now)) result ≡ spec.one_at bytes.now }
    ensures small { IfSome result (λ x. x.0 ≤ 9) }
{
    if bytes.is_empty() {
        return None;
    }
    let byte = bytes[0];
    if byte < b'0' || byte > b'9' {
        return None;
    }
    Some((u32::from(byte - b'0'), &bytes[1..]))
}

/// The number that two digits spell.
#[tactic(auto, unfolding(time_meaning::specs::Texts::two_at))]
fn two_at(bytes: &[u8]) -> Option<(u32, &[u8])>
    ensures value { option_map (λ x. (x.0, x.1.now)) result ≡ spec.two_at bytes.now }
    ensures small { IfSome result (λ x. x.0 ≤ 99) }
{
    let (tens, rest) = one_at(bytes)?;
    let (ones, rest) = one_at(rest)?;
    Some((tens * 10 + ones, rest))
}

/// The number that four digits spell.
#[tactic(auto, unfolding(time_meaning::specs::Texts::four_at))]
fn four_at(bytes: &[u8]) -> Option<(u32, &[u8])>
    ensures value { option_map (λ x. (x.0, x.1.now)) result ≡ spec.four_at bytes.now }
    ensures small { IfSome result (λ x. x.0 ≤ 9999) }
{
    let (high, rest) = two_at(bytes)?;
    let (low, rest) = two_at(rest)?;
    Some((high * 100 + low, rest))
}

/// What follows this byte, if it stands at the front.
#[tactic(auto, unfolding(time_meaning::specs::Texts::behind))]
fn behind(bytes: &[u8], byte: u8) -> Option<&[u8]>
    ensures { option_map (λ x. x.now) result ≡ spec.behind byte bytes.now }
{
    if bytes.is_empty() || bytes[0] != byte {
        return None;
    }
    Some(&bytes[1..])
}

/// A sign, and the number that the two digits behind it spell.
#[tactic(auto, unfolding(time_meaning::specs::Texts::next_two))]
fn next_two(bytes: &[u8], sign: u8) -> Option<(u32, &[u8])>
    ensures value { option_map (λ x. (x.0, x.1.now)) result ≡ spec.next_two sign bytes.now }
    ensures small { IfSome result (λ x. x.0 ≤ 99) }
{
    two_at(behind(bytes, sign)?)
}

/// Year, month and day.
#[tactic(auto, unfolding(time_meaning::specs::Texts::date_at))]
fn date_at(bytes: &[u8]) -> Option<(u32, u32, u32, &[u8])>
    ensures value { option_map (λ x. (x.0, x.1, x.2, x.3.now)) result ≡ spec.date_at bytes.now }
    ensures year { IfSome result (λ x. x.0 ≤ 9999) }
    ensures month { IfSome result (λ x. x.1 ≤ 99) }
    ensures day { IfSome result (λ x. x.2 ≤ 99) }
{
    let (year, rest) = four_at(bytes)?;
    let (month, rest) = next_two(rest, b'-')?;
    let (day, rest) = next_two(rest, b'-')?;
    Some((year, month, day, rest))
}

/// Hour, minute and second.
#[tactic(auto, unfolding(time_meaning::specs::Texts::clock_at))]
fn clock_at(bytes: &[u8]) -> Option<(u32, u32, u32, &[u8])>
    ensures value { option_map (λ x. (x.0, x.1, x.2, x.3.now)) result ≡ spec.clock_at bytes.now }
    ensures hour { IfSome result (λ x. x.0 ≤ 99) }
    ensures minute { IfSome result (λ x. x.1 ≤ 99) }
    ensures second { IfSome result (λ x. x.2 ≤ 99) }
{
    let (hour, rest) = two_at(bytes)?;
    let (minute, rest) = next_two(rest, b':')?;
    let (second, rest) = next_two(rest, b':')?;
    Some((hour, minute, second, rest))
}

/// What follows the sign between a date and a clock time.
#[tactic(auto, unfolding(time_meaning::specs::Texts::behind_date))]
fn behind_date(bytes: &[u8]) -> Option<&[u8]>
    ensures { option_map (λ x. x.now) result ≡ spec.behind_date bytes.now }
{
    if bytes.is_empty() {
        return None;
    }
    let byte = bytes[0];
    if byte == b'T' || byte == b't' || byte == b' ' {
        return Some(&bytes[1..]);
    }
    None
}

/// The digits at the front behind so many others, of which there are at most 9 in all: how many, what they spell,
/// and what follows them.
fn digits_at(bytes: &[u8], count: u32, so_far: u64) -> Option<(u32, u64, &[u8])>
    requires few { count ≤ 9 }
    requires small { so_far < 10 ^ count }
    ensures value { option_map (λ x. (x.0, x.1, x.2.now)) result
        ≡ if_few (spec.digits_at bytes.now count so_far) }
    ensures few { IfSome result (λ x. x.0 ≤ 9) }
    ensures small { IfSome result (λ x. x.1 < 10 ^ x.0) }
{
    if bytes.is_empty() {
        return Some((count, so_far, bytes));
    }
    let byte = bytes[0];
    if byte < b'0' || byte > b'9' {
        return Some((count, so_far, bytes));
    }
    if count == 9 {
        return None;
    }
    digits_at(&bytes[1..], count + 1, so_far * 10 + u64::from(byte - b'0'))
}

/// The microseconds of the fraction of a second that may stand here, and what follows it.
#[tactic(auto, unfolding(time_meaning::specs::Texts::fraction_at))]
fn fraction_at(bytes: &[u8]) -> Option<(u64, &[u8])>
    ensures value { option_map (λ x. (x.0, x.1.now)) result ≡ spec.fraction_at bytes.now }
    ensures small { IfSome result (λ x. x.0 < 1_000_000) }
{
    if bytes.is_empty() {
        return Some((0, bytes));
    }
    if bytes[0] != b'.' {
        return Some((0, bytes));
    }
    let (count, number, rest) = digits_at(&bytes[1..], 0, 0)?;
    if count == 0 {
        return None;
    }
    Some((number * 1_000_000 / 10u64.pow(count), rest))
}

/// Hours and minutes, in minutes, and what follows them.
#[tactic(auto, unfolding(time_meaning::specs::Texts::shift_at))]
fn shift_at(bytes: &[u8]) -> Option<(u32, &[u8])>
    ensures value { option_map (λ x. (x.0, x.1.now)) result ≡ spec.shift_at bytes.now }
    ensures small { IfSome result (λ x. x.0 ≤ 1439) }
{
    let (hours, rest) = two_at(bytes)?;
    let (minutes, rest) = next_two(rest, b':')?;
    if hours > 23 || minutes > 59 {
        return None;
    }
    Some((hours * 60 + minutes, rest))
}

/// The minutes by which the local clock is ahead of UTC, where the text ends with them.
#[tactic(auto, unfolding(time_meaning::specs::Texts::zone_at))]
fn zone_at(bytes: &[u8]) -> Option<i64>
    ensures value { result ≡ spec.zone_at bytes.now }
    ensures low { IfSome result (λ x. neg_ℤ (pos 1439) ≤ℤ x) }
    ensures high { IfSome result (λ x. x ≤ℤ pos 1439) }
{
    if bytes.is_empty() {
        return None;
    }
    let byte = bytes[0];
    let rest = &bytes[1..];
    if byte == b'Z' || byte == b'z' {
        return if rest.is_empty() { Some(0) } else { None };
    }
    if byte != b'+' && byte != b'-' {
        return None;
    }
    let (minutes, rest) = shift_at(rest)?;
    if !rest.is_empty() {
        return None;
    }
    let minutes = i64::from(minutes);
    Some(if byte == b'+' { minutes } else { -minutes })
}

/// The moment that a local clock shows which is so many minutes ahead of UTC, if the calendar has the date, the clock
/// the time, and the moment is in range.
#[tactic(auto, unfolding(time_meaning::specs::Texts::local_time, time_meaning::specs::Moments::is_real, time_meaning::specs::Moments::moment))]
fn local_time(
    year: u32,
    month: u32,
    day: u32,
    hour: u32,
    minute: u32,
    second: u32,
    micros: u64,
    ahead: i64,
) -> Option<i64>
    requires micros_in { micros < 1_000_000 }
    requires low { neg_ℤ (pos 1439) ≤ℤ ahead }
    requires high { ahead ≤ℤ pos 1439 }
    ensures { result ≡ spec.local_time year month day hour minute second micros ahead }
{
    if year > 9999 || month > 12 || day > 31 || hour > 23 || minute > 59 || second > 59 {
        return None;
    }
    let Ok(date) = Date::new(year as i16, month as i8, day as i8) else {
        return None
    };
    let seconds = (hour * 60 + minute) * 60 + second;
    let day = i64::from(date.to_unix_epoch_day());
    in_range(in_utc(at_clock(day, seconds, micros), ahead))
}

/// The moment at which a clock in UTC shows these seconds and microseconds of a day.
fn at_clock(day: i64, seconds: u32, micros: u64) -> i64
    requires day_in { IsEpochDay day }
    requires seconds_in { seconds < 86_400 }
    requires micros_in { micros < 1_000_000 }
    ensures { result ≡ day *ℤ pos 86_400_000_000 +ℤ pos (seconds * 1_000_000 + micros) }
{
    day * 86_400_000_000 + (u64::from(seconds) * 1_000_000 + micros) as i64
}

/// The moment at which a clock that is so many minutes ahead shows what one in UTC shows at the local moment.
fn in_utc(local: i64, ahead: i64) -> i64
    requires local_in { IsWithin 500_000_000_000_000_000 local }
    requires ahead_in { IsWithin 1439 ahead }
    ensures { result ≡ local -ℤ ahead *ℤ pos 60_000_000 }
{
    local - ahead * 60_000_000
}

/// The moment, if it is in range.
fn in_range(time: i64) -> Option<i64>
    ensures { result ≡ spec.in_range time }
{
    if time < -62_135_596_800_000_000 || time > 253_402_300_799_999_999 {
        return None;
    }
    Some(time)
}

/// The time that the text spells, in microseconds from 1970-01-01T00:00:00Z on: `YYYY-MM-DD`, then `T`, `t` or a space,
/// `HH:MM:SS`, maybe `.` and 1 to 9 digits, of which those past the sixth are cut off, and `Z`, `z`, `+HH:MM` or
/// `-HH:MM`. The date is one of the calendar, and the moment lies from 0001-01-01T00:00:00Z to
/// 9999-12-31T23:59:59.999999Z.
#[tactic(auto, unfolding(time_meaning::specs::Texts::time_of))]
pub fn read_time(text: &[u8]) -> Option<i64>
    ensures { result ≡ spec.time_of text.now }
{
    let (year, month, day, rest) = date_at(text)?;
    let rest = behind_date(rest)?;
    let (hour, minute, second, rest) = clock_at(rest)?;
    let (micros, rest) = fraction_at(rest)?;
    let ahead = zone_at(rest)?;
    local_time(year, month, day, hour, minute, second, micros, ahead)
}
