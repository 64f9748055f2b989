//! How much of a block a row may take.
ghost use Rattle.std.specs.Prelude.{◌≡◌, min};
ghost use Rattle.snel_values.specs.View.{view};
ghost use Rattle.value_meaning.specs.Val.{vals, fields};
ghost use Rattle.write_meaning.specs.Weights as meant;
ghost use Rattle.ion_write.specs.Counts.{raised};

use crate::place::pair_at;
use snel_values::{Items, Pairs, Value};

/// How much of a block the value may take, at least as many bytes as its cell has: 1 for NULL and a truth value, 9 for a
/// number, 13 for a time, 5 and its bytes for a text, 5 and its items' weights for a list, and for a struct 5 and, for each
/// pair, 9, the name's bytes and the value's weight. It stands still at `u64::MAX`.
pub fn weight(value: &Value) -> u64
    ensures { result ≡ min (meant.weight (view value.now)) u64.MAX }
{
    weigh(value)
}

#[cycle(weight)]
fn weigh(value: &Value) -> u64
    ensures { result ≡ raised 0 (meant.weight (view value.now)) }
{
    match value {
        Value::Missing => 0,
        Value::Null | Value::Bool(_) => 1,
        Value::Int(_) => 9,
        Value::Time(_) => 13,
        Value::Text(text) => (text.as_str().len() as u64).saturating_add(5),
        Value::List(items) => weigh_items(items).saturating_add(5),
        Value::Struct(pairs) => weigh_pairs(pairs).saturating_add(5),
    }
}

#[cycle(weight)]
fn weigh_items(items: &Items) -> u64
    ensures { result ≡ raised 0 (meant.weights (vals items.now)) }
{
    let mut total = 0u64;
    for item in items.as_slice() {
        total = total.saturating_add(weigh(item));
    }
    total
}

#[cycle(weight)]
fn weigh_pairs(pairs: &Pairs) -> u64
    ensures { result ≡ raised 0 (meant.pair_weights (fields pairs.now)) }
{
    let mut total = 0u64;
    for at in 0..pairs.len() {
        let (name, value) = pair_at(pairs, at);
        let named = (name.len() as u64).saturating_add(9);
        total = total.saturating_add(named).saturating_add(weigh(value));
    }
    total
}
