ghost use Rattle.std.specs.Prelude.{◌≡◌};
ghost use Rattle.snel_values.specs.View.{view, views};
ghost use Rattle.eval_meaning.specs.Comparisons as spec;

use crate::logic::{and_of, is_missing, is_null, is_true, or_of};
use snel_values::Value;
use std::cmp::Ordering;
use tree_meaning::BinOp;

/// `value IN (members)`
pub fn member_of(value: &Value, members: &[Value]) -> Value
    ensures { view result ≡ spec.member_of (view value.now) (views members.now) }
{
    match members {
        [] => Value::Bool(false),
        [first, rest @ ..] => {
            let here = compare(BinOp::Eq, value, first);
            let later = member_of(value, rest);
            or_of(&here, &later)
        }
    }
}

/// `value BETWEEN low AND high`
pub fn between_of(value: &Value, low: &Value, high: &Value) -> Value
    ensures { view result ≡ spec.between_of (view value.now) (view low.now) (view high.now) }
{
    let above = compare(BinOp::Ge, value, low);
    let below = compare(BinOp::Le, value, high);
    and_of(&above, &below)
}

/// `NULLIF(a, b)`
pub(crate) fn null_if(a: Value, b: &Value) -> Value
    ensures { view result ≡ spec.null_if (view a) (view b.now) }
{
    let same = compare(BinOp::Eq, &a, b);
    if is_true(&same) { Value::Null } else { a }
}

/// `a op b` of an operator that compares.
pub(crate) fn compare(op: BinOp, a: &Value, b: &Value) -> Value
    ensures { view result ≡ spec.compare op (view a.now) (view b.now) }
{
    if is_missing(a) || is_missing(b) {
        return Value::Missing;
    }
    if is_null(a) || is_null(b) {
        return Value::Null;
    }
    match order_of(a, b) {
        Some(order) => Value::Bool(meets(op, order)),
        None => Value::Missing,
    }
}

/// How two values stand to each other, if they can be compared.
fn order_of(a: &Value, b: &Value) -> Option<Ordering>
    ensures { result ≡ spec.order_of (view a.now) (view b.now) }
{
    match (a, b) {
        (Value::Bool(x), Value::Bool(y)) => Some(x.cmp(y)),
        (Value::Int(x), Value::Int(y)) => Some(x.cmp(y)),
        (Value::Time(x), Value::Time(y)) => Some(x.cmp(y)),
        (Value::Text(x), Value::Text(y)) => Some(x.as_str().cmp(y.as_str())),
        _ => None,
    }
}

/// Whether an operator holds of values that stand so to each other.
fn meets(op: BinOp, order: Ordering) -> bool
    ensures { result ≡ spec.meets op order }
{
    match op {
        BinOp::Eq => order == Ordering::Equal,
        BinOp::Ne => order != Ordering::Equal,
        BinOp::Lt => order == Ordering::Less,
        BinOp::Le => order != Ordering::Greater,
        BinOp::Gt => order == Ordering::Greater,
        BinOp::Ge => order != Ordering::Less,
        _ => false,
    }
}
