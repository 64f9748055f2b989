ghost use Rattle.std.specs.Prelude.{◌≡◌, ◌↔◌, IsTrue};
ghost use Rattle.value_meaning.specs.Order.{class, val_cmp};
ghost use Rattle.snel_values.specs.View.{view};

use crate::value::Value;
use std::cmp::Ordering;

/// Where a kind of value stands among the kinds.
fn class(value: &Value) -> u8
    ensures { result ≡ class (view value.now) }
{
    match value {
        Value::Missing => 0,
        Value::Null => 1,
        Value::Bool(_) => 2,
        Value::Int(_) => 3,
        Value::Time(_) => 4,
        Value::Text(_) => 5,
        Value::List(_) => 6,
        Value::Struct(_) => 7,
    }
}

/// How a stands to b: MISSING, NULL, false, true, numbers, times, texts by bytes, lists and structs, each below the next.
#[cycle(order)]
pub fn order(a: &Value, b: &Value) -> Ordering
    ensures { result ≡ val_cmp (view a.now) (view b.now) }
{
    match (a, b) {
        (Value::Bool(x), Value::Bool(y)) => x.cmp(y),
        (Value::Int(x), Value::Int(y)) => x.cmp(y),
        (Value::Time(x), Value::Time(y)) => x.cmp(y),
        (Value::Text(x), Value::Text(y)) => x.as_str().cmp(y.as_str()),
        (Value::List(x), Value::List(y)) => x.order(y),
        (Value::Struct(x), Value::Struct(y)) => x.order(y),
        _ => class(a).cmp(&class(b)),
    }
}

/// Whether a and b are one value, which is so exactly where `order` answers `Equal`.
pub fn same(a: &Value, b: &Value) -> bool
    ensures { IsTrue result ↔ (view a.now ≡ view b.now) }
{
    order(a, b) == Ordering::Equal
}
