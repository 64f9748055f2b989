ghost use Rattle.std.specs.Prelude.{◌≡◌, pos, Some, ◌*ℤ◌};
ghost use Rattle.std.specs.Int.{int_div_euclid};
ghost use Rattle.snel_values.specs.View.{view};
ghost use Rattle.time_meaning.specs.Moments.{IsTime, is_time as spec_is_time};
ghost use Rattle.eval_meaning.specs.Times as spec;

use crate::calendar::{extract, trunc};
use crate::logic::{is_missing, is_null};
use snel_values::Value;
use tree_meaning::Part;

/// `DATE_TRUNC(part, value)`
pub fn trunc_of(part: Part, value: &Value) -> Value
    ensures { view result ≡ spec.trunc_of part (view value.now) }
{
    match value {
        Value::Null => Value::Null,
        Value::Time(time) => {
            if is_time(i128::from(*time)) {
                Value::Time(trunc(part, *time))
            } else {
                Value::Missing
            }
        }
        _ => Value::Missing,
    }
}

/// `EXTRACT(part FROM value)`
pub fn extract_of(part: Part, value: &Value) -> Value
    ensures { view result ≡ spec.extract_of part (view value.now) }
{
    match value {
        Value::Null => Value::Null,
        Value::Time(time) => {
            if is_time(i128::from(*time)) {
                match extract(part, *time) {
                    Some(number) => Value::Int(i128::from(number)),
                    None => Value::Missing,
                }
            } else {
                Value::Missing
            }
        }
        _ => Value::Missing,
    }
}

/// `DATE_ADD(part, count, value)`
pub fn shift_of(part: Part, count: &Value, value: &Value) -> Value
    ensures { view result ≡ spec.shift_of part (view count.now) (view value.now) }
{
    if is_missing(count) || is_missing(value) {
        return Value::Missing;
    }
    if is_null(count) || is_null(value) {
        return Value::Null;
    }
    match (count, value) {
        (Value::Int(number), Value::Time(time)) => moved(part, *number, *time),
        _ => Value::Missing,
    }
}

/// `TO_UNIX_EPOCH(value)`
pub(crate) fn unix_epoch(value: &Value) -> Value
    ensures { view result ≡ spec.unix_epoch (view value.now) }
{
    match value {
        Value::Null => Value::Null,
        Value::Time(time) => Value::Int(i128::from(time.div_euclid(1_000_000))),
        _ => Value::Missing,
    }
}

/// `TO_UNIX_MICRO(value)`
pub(crate) fn unix_micro(value: &Value) -> Value
    ensures { view result ≡ spec.unix_micro (view value.now) }
{
    match value {
        Value::Null => Value::Null,
        Value::Time(time) => Value::Int(i128::from(*time)),
        _ => Value::Missing,
    }
}

/// Whether the calendar's range has the time.
pub(crate) fn is_time(time: i128) -> bool
    ensures { result ≡ spec_is_time time }
{
    time >= -62_135_596_800_000_000 && time <= 253_402_300_799_999_999
}

/// The time, if the calendar's range has it.
fn timed(time: i128) -> Value
    ensures { view result ≡ spec.timed time }
{
    if is_time(time) {
        Value::Time(time as i64)
    } else {
        Value::Missing
    }
}

/// The microseconds of a part, if it has one length.
fn length_of(part: Part) -> Option<u64>
    ensures { result ≡ spec.length_of part }
{
    match part {
        Part::Microsecond => Some(1),
        Part::Second => Some(1_000_000),
        Part::Minute => Some(60_000_000),
        Part::Hour => Some(3_600_000_000),
        Part::Day => Some(86_400_000_000),
        Part::Week => Some(604_800_000_000),
        _ => None,
    }
}

/// The time plus so many of a part, MISSING out of range.
fn moved(part: Part, count: i128, time: i64) -> Value
    ensures { view result ≡ spec.moved (spec.length_of part) count time }
{
    match length_of(part) {
        Some(length) => moved_by(length, count, time),
        None => Value::Missing,
    }
}

/// The time plus so many of a length in microseconds, MISSING out of range.
fn moved_by(length: u64, count: i128, time: i64) -> Value
    ensures { view result ≡ spec.moved (Some length) count time }
{
    match count.checked_mul(i128::from(length)) {
        Some(distance) => match i128::from(time).checked_add(distance) {
            Some(moment) => timed(moment),
            None => Value::Missing,
        },
        None => Value::Missing,
    }
}
