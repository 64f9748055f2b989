ghost use Rattle.std.specs.Prelude.{◌≡◌};
ghost use Rattle.std.specs.Str.{all_ascii_digits};
ghost use Rattle.snel_values.specs.View.{view};
ghost use Rattle.tree_meaning.specs.Decimals.{decimal_on};
ghost use Rattle.eval_meaning.specs.Casts as spec;
ghost use Rattle.tree_meaning.specs.declared.CastTo.TheVariants as target;
ghost use Rattle.eval_values.specs.Magnitude.{up_to_limit};

use crate::numbers::fitted;
use snel_values::Value;
use tree_meaning::CastTo;

/// `CAST(value AS to)`
pub fn cast_of(to: CastTo, value: &Value) -> Value
    ensures { view result ≡ spec.cast_of to (view value.now) }
{
    match to {
        CastTo::Integer => to_integer(value),
        CastTo::Boolean => to_boolean(value),
    }
}

/// `CAST(value AS INTEGER)`
fn to_integer(value: &Value) -> Value
    ensures { view result ≡ spec.cast_of target.Integer (view value.now) }
{
    match value {
        Value::Null => Value::Null,
        Value::Int(number) => Value::Int(*number),
        Value::Bool(true) => Value::Int(1),
        Value::Bool(false) => Value::Int(0),
        Value::Text(text) => spelled_number(text.as_str().as_bytes()),
        _ => Value::Missing,
    }
}

/// `CAST(value AS BOOLEAN)`
fn to_boolean(value: &Value) -> Value
    ensures { view result ≡ spec.cast_of target.Boolean (view value.now) }
{
    match value {
        Value::Null => Value::Null,
        Value::Int(number) => Value::Bool(*number != 0),
        Value::Bool(truth) => Value::Bool(*truth),
        Value::Text(text) => spelled_truth(text.as_str()),
        _ => Value::Missing,
    }
}

/// The truth value that a text spells.
#[tactic(auto, unfolding(eval_meaning::specs::Casts::spelled_truth))]
fn spelled_truth(text: &str) -> Value
    ensures { view result ≡ spec.spelled_truth text.now }
{
    if text == "true" {
        Value::Bool(true)
    } else if text == "false" {
        Value::Bool(false)
    } else {
        Value::Missing
    }
}

/// The number that a text spells.
#[tactic(auto, unfolding(eval_meaning::specs::Casts::spelled_number))]
fn spelled_number(bytes: &[u8]) -> Value
    ensures { view result ≡ spec.spelled_number bytes.now }
{
    match bytes {
        [] => Value::Missing,
        [first, rest @ ..] => {
            if *first == b'-' {
                negative_number(rest)
            } else {
                unsigned_number(bytes)
            }
        }
    }
}

/// The number that 1 to 19 digits spell.
#[tactic(auto, unfolding(eval_meaning::specs::Casts::unsigned_number))]
fn unsigned_number(bytes: &[u8]) -> Value
    ensures { view result ≡ spec.unsigned_number bytes.now }
{
    if !are_digits(bytes) {
        return Value::Missing;
    }
    match magnitude(bytes) {
        Some(number) => fitted(i128::from(number)),
        None => Value::Missing,
    }
}

/// The negative of the number that 1 to 19 digits spell.
#[tactic(auto, unfolding(eval_meaning::specs::Casts::negative_number))]
fn negative_number(bytes: &[u8]) -> Value
    ensures { view result ≡ spec.negative_number bytes.now }
{
    if !are_digits(bytes) {
        return Value::Missing;
    }
    match magnitude(bytes) {
        Some(number) => fitted(-i128::from(number)),
        None => Value::Missing,
    }
}

/// The number that digits spell, if it is at most 2^63.
fn magnitude(digits: &[u8]) -> Option<u64>
    ensures { result ≡ up_to_limit (decimal_on 0 digits.now) }
{
    let mut number: u64 = 0;
    for digit in digits {
        let ones = u64::from(digit.saturating_sub(b'0'));
        if number > 922_337_203_685_477_580 {
            return None;
        }
        number = number * 10 + ones;
        if number > 9_223_372_036_854_775_808 {
            return None;
        }
    }
    Some(number)
}

/// Whether these are 1 to 19 digits.
fn are_digits(bytes: &[u8]) -> bool
    ensures { result ≡ spec.are_digits bytes.now }
{
    !bytes.is_empty() && bytes.len() <= 19 && all_digits(bytes)
}

/// Whether each byte is a digit.
fn all_digits(bytes: &[u8]) -> bool
    ensures { result ≡ all_ascii_digits bytes.now }
{
    match bytes {
        [] => true,
        [first, rest @ ..] => first.is_ascii_digit() && all_digits(rest),
    }
}
