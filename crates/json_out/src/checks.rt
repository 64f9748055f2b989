ghost use Rattle.std.specs.Prelude.{◌↔◌, IsTrue};
ghost use Rattle.value_meaning.specs.Val.{vals, fields};
ghost use Rattle.time_meaning.specs.Moments as moments;
ghost use Rattle.block_meaning.specs.Stored.{HasTimesInRange, HaveTimesInRange, PairsHaveTimesInRange};
ghost use Rattle.snel_values.specs.View.{view};
ghost use Rattle.json_out.specs.NoMissing.{HasNoMissing, HaveNoMissing, PairsHaveNoMissing};

use crate::owned::pair_at;
use snel_values::{Items, Pairs, Value};

/// Whether the time, in microseconds from 1970-01-01T00:00:00Z, lies from the year 1 to the year 9999.
fn is_time(time: i64) -> bool
    ensures { IsTrue result ↔ IsTrue (moments.is_time time) }
{
    -62_135_596_800_000_000 <= time && time <= 253_402_300_799_999_999
}

/// Whether each time in the value lies in range, and no MISSING stands in it, at any depth.
#[cycle(has_text)]
pub(crate) fn has_text(value: &Value) -> bool
    ensures { IsTrue result ↔ HasTimesInRange (view value.now) × HasNoMissing (view value.now) }
{
    match value {
        Value::Missing => false,
        Value::Time(time) => is_time(*time),
        Value::List(items) => all_have_texts(items),
        Value::Struct(pairs) => all_pairs_have_texts(pairs),
        _ => true,
    }
}

/// The same of all items.
#[cycle(has_text)]
fn all_have_texts(items: &Items) -> bool
    ensures { IsTrue result ↔ HaveTimesInRange (vals items.now) × HaveNoMissing (vals items.now) }
{
    for item in items.as_slice() {
        if !has_text(item) {
            return false;
        }
    }
    true
}

/// The same of the values of all pairs.
#[cycle(has_text)]
fn all_pairs_have_texts(pairs: &Pairs) -> bool
    ensures { IsTrue result ↔ PairsHaveTimesInRange (fields pairs.now)
        × PairsHaveNoMissing (fields pairs.now) }
{
    for at in 0..pairs.len() {
        let (_, value) = pair_at(pairs, at);
        if !has_text(value) {
            return false;
        }
    }
    true
}
