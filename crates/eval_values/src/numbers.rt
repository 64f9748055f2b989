ghost use Rattle.std.specs.Prelude.{◌≡◌, ◌+ℤ◌, ◌-ℤ◌, ◌*ℤ◌, int_div, int_rem};
ghost use Rattle.snel_values.specs.View.{view};
ghost use Rattle.eval_meaning.specs.Numbers as spec;

use crate::logic::{is_missing, is_null};
use snel_values::Value;
use tree_meaning::BinOp;

/// `-a`
pub fn negative(a: &Value) -> Value
    ensures { view result ≡ spec.negative (view a.now) }
{
    match a {
        Value::Missing => Value::Missing,
        Value::Null => Value::Null,
        Value::Int(number) => match number.checked_neg() {
            Some(negated) => fitted(negated),
            None => Value::Missing,
        },
        _ => Value::Missing,
    }
}

/// `a op b` of an operator of arithmetic.
pub(crate) fn arithmetic(op: BinOp, a: &Value, b: &Value) -> Value
    ensures { view result ≡ spec.arithmetic op (view a.now) (view b.now) }
{
    if is_missing(a) || is_missing(b) {
        return Value::Missing;
    }
    if is_null(a) || is_null(b) {
        return Value::Null;
    }
    match (a, b) {
        (Value::Int(x), Value::Int(y)) => computed(op, *x, *y),
        _ => Value::Missing,
    }
}

/// `x op y` of an operator of arithmetic.
fn computed(op: BinOp, x: i128, y: i128) -> Value
    ensures { view result ≡ spec.computed op x y }
{
    match op {
        BinOp::Add => sum_of(x, y),
        BinOp::Sub => difference_of(x, y),
        BinOp::Mul => product_of(x, y),
        BinOp::Div => quotient_of(x, y),
        BinOp::Rem => rest_of(x, y),
        _ => Value::Missing,
    }
}

/// The number, if it is in the range of a row's numbers.
pub(crate) fn fitted(number: i128) -> Value
    ensures { view result ≡ spec.fitted number }
{
    if number < -9_223_372_036_854_775_808 || number > 9_223_372_036_854_775_807 {
        Value::Missing
    } else {
        Value::Int(number)
    }
}

/// `x + y`
fn sum_of(x: i128, y: i128) -> Value
    ensures { view result ≡ spec.fitted (x +ℤ y) }
{
    match x.checked_add(y) {
        Some(sum) => fitted(sum),
        None => Value::Missing,
    }
}

/// `x - y`
fn difference_of(x: i128, y: i128) -> Value
    ensures { view result ≡ spec.fitted (x -ℤ y) }
{
    match x.checked_sub(y) {
        Some(difference) => fitted(difference),
        None => Value::Missing,
    }
}

/// `x * y`
fn product_of(x: i128, y: i128) -> Value
    ensures { view result ≡ spec.fitted (x *ℤ y) }
{
    match x.checked_mul(y) {
        Some(product) => fitted(product),
        None => Value::Missing,
    }
}

/// `x / y`
fn quotient_of(x: i128, y: i128) -> Value
    ensures { view result ≡ spec.unless_by_zero y (spec.fitted (int_div x y)) }
{
    match x.checked_div(y) {
        Some(quotient) => fitted(quotient),
        None => Value::Missing,
    }
}

/// `x % y`
fn rest_of(x: i128, y: i128) -> Value
    ensures { view result ≡ spec.unless_by_zero y (spec.fitted (int_rem x y)) }
{
    match x.checked_rem(y) {
        Some(rest) => fitted(rest),
        None => {
            if y == 0 {
                Value::Missing
            } else {
                Value::Int(0)
            }
        }
    }
}
