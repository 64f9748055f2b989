//! First days of months.

ghost use Rattle.std.specs.Prelude.{◌≡◌, pos};
ghost use Rattle.std.specs.Int.{IsInRange};
ghost use Rattle.jiff_core.specs.Calendar.{days_from_civil, IsEpochDay};
ghost use Rattle.eval_meaning.specs.Times as spec;

use jiff_core::civil::Date;

/// The first moment of a day.
#[inline(always)]
pub(crate) fn midnight(day: i64) -> i64
    requires { IsEpochDay day }
    ensures { result ≡ spec.midnight day }
{
    day * 86_400_000_000
}

/// The number of the first day of a month, where 1970-01-01 is 0.
pub(crate) fn first_day(year: u16, month: u8) -> i64
    requires year_in { IsInRange 1 9999 year }
    requires month_in { IsInRange 1 12 month }
    ensures value { result ≡ days_from_civil (pos year) month 1 }
    ensures bound { IsEpochDay result }
{
    match Date::new(year as i16, month as i8, 1) {
        Ok(date) => i64::from(date.to_unix_epoch_day()),
        Err(_) => unreachable!(),
    }
}
