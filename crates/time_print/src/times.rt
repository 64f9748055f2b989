ghost use Rattle.std.specs.Prelude.{◌≡◌, ◌++◌, ◌∷◌, [], ◌/◌, ◌%◌, OnOk};
ghost use Rattle.time_meaning.specs.Moments.{IsTime};
ghost use Rattle.time_meaning.specs.Printed as printed;
ghost use Rattle.time_meaning.specs.Printed.{to_second, six, time_text};

use crate::clock::{Clock, clock_at};
use snel_values::{Bytes, OutOfMemory};

/// The last decimal digit.
fn digit(number: u32) -> u8
    ensures { result ≡ printed.digit number }
{
    (number % 10) as u8 + 48
}

/// The date and the clock time to the second.
fn date_and_second(clock: Clock) -> [u8; 19]
    ensures { result ≡ to_second clock.year clock.month clock.day (clock.second / 3600)
        (clock.second / 60 % 60) (clock.second % 60) }
{
    let year = u32::from(clock.year);
    let month = u32::from(clock.month);
    let day = u32::from(clock.day);
    let hour = clock.second / 3600;
    let minute = clock.second / 60 % 60;
    let second = clock.second % 60;
    [
        digit(year / 100 / 10),
        digit(year / 100),
        digit(year / 10),
        digit(year),
        b'-',
        digit(month / 10),
        digit(month),
        b'-',
        digit(day / 10),
        digit(day),
        b'T',
        digit(hour / 10),
        digit(hour),
        b':',
        digit(minute / 10),
        digit(minute),
        b':',
        digit(second / 10),
        digit(second),
    ]
}

/// A point, the microseconds and `Z`.
fn fraction(micros: u32) -> [u8; 8]
    ensures { result ≡ 46 ∷ (six micros ++ 90 ∷ []) }
{
    [
        b'.',
        digit(micros / 10_000 / 10),
        digit(micros / 10_000),
        digit(micros / 100 / 10),
        digit(micros / 100),
        digit(micros / 10),
        digit(micros),
        b'Z',
    ]
}

/// Adds the text of the time, in microseconds from 1970-01-01T00:00:00Z on: `YYYY-MM-DDTHH:MM:SSZ`, with `.` and six
/// digits before `Z` where microseconds are left. For want of memory some of it may stand behind the bytes.
#[tactic(auto, unfolding(time_meaning::specs::Printed::time_text))]
pub fn put_time(text: &mut Bytes, micros: i64) -> Result<(), OutOfMemory>
    requires { IsTime micros }
    ensures { OnOk result (text.new ≡ text.old ++ time_text micros) }
{
    let clock = clock_at(micros);
    text.push_all(&date_and_second(clock))?;
    if clock.micros == 0 {
        text.push_all(b"Z")
    } else {
        text.push_all(&fraction(clock.micros))
    }
}
