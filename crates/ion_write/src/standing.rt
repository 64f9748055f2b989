//! Which values may be written.
ghost use Rattle.std.specs.Prelude.{◌↔◌, IsTrue};
ghost use Rattle.snel_values.specs.View.{view};
ghost use Rattle.value_meaning.specs.Val.{int, time as time_val, vals, fields};
ghost use Rattle.write_meaning.specs.Standing as meant;

use crate::place::pair_at;
use snel_values::{Items, Pairs, Value};

/// Whether the value may stand in a block as a row: a struct without MISSING whose numbers and times are in range, and
/// in which lists and structs nest at most 128 deep.
#[tactic(auto, unfolding(write_meaning::specs::Standing::IsWritableRow))]
pub fn writable(row: &Value) -> bool
    ensures { IsTrue result ↔ meant.IsWritableRow (view row.now) }
{
    match row {
        Value::Struct(_) => may_stand(row, 0),
        _ => false,
    }
}

/// Whether the number is from -2^63 to 2^63 - 1.
fn is_number(number: i128) -> bool
    ensures { IsTrue result ↔ meant.IsWritable 0 (int number) }
{
    i64::try_from(number).is_ok()
}

/// Whether the time is from 0001-01-01T00:00:00Z to 9999-12-31T23:59:59.999999Z.
fn is_moment(time: i64) -> bool
    ensures { IsTrue result ↔ meant.IsWritable 0 (time_val time) }
{
    -62_135_596_800_000_000 <= time && time <= 253_402_300_799_999_999
}

/// Whether the value may stand within so many lists and structs.
#[cycle(stand)]
fn may_stand(value: &Value, depth: u8) -> bool
    ensures { IsTrue result ↔ meant.IsWritable depth (view value.now) }
{
    match value {
        Value::Missing => false,
        Value::Null | Value::Bool(_) | Value::Text(_) => true,
        Value::Int(number) => is_number(*number),
        Value::Time(time) => is_moment(*time),
        Value::List(items) => depth < 128 && items_may_stand(items, depth + 1),
        Value::Struct(pairs) => depth < 128 && pairs_may_stand(pairs, depth + 1),
    }
}

#[cycle(stand)]
fn items_may_stand(items: &Items, depth: u8) -> bool
    ensures { IsTrue result ↔ meant.AreWritable depth (vals items.now) }
{
    for item in items.as_slice() {
        if !may_stand(item, depth) {
            return false;
        }
    }
    true
}

#[cycle(stand)]
fn pairs_may_stand(pairs: &Pairs, depth: u8) -> bool
    ensures { IsTrue result ↔ meant.PairsAreWritable depth (fields pairs.now) }
{
    for at in 0..pairs.len() {
        let (_, value) = pair_at(pairs, at);
        if !may_stand(value, depth) {
            return false;
        }
    }
    true
}
