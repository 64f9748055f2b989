//! What lanes show, hashed and compared without a value being built of it.

ghost use Rattle.std.specs.Prelude.{◌≡◌, ◌↔◌, IsTrue, false};
ghost use Rattle.block_meaning.specs.Tables.{Table};
ghost use Rattle.lane_base.specs.Shown.{value_under, is_nested, IsLegal};
ghost use Rattle.lane_base.specs.Registers.{seen};
ghost use Rattle.key_places.specs.Hashes.{fed_value};
ghost use Rattle.snel_values.specs.View.{view};
ghost use Rattle.value_meaning.specs.Val.{truth, int, time, text};

use key_places::{feed_number, feed_text, feed_word};
use lane_base::Look;
use snel_values::Value;
use std::hash::DefaultHasher;

/// Whether a list or a struct is shown.
pub(crate) fn is_tree(look: Look<'_>) -> bool
    ensures { (table : Table) → IsLegal table (seen look.entry)
        → result ≡ is_nested (value_under table (seen look.entry)) }
{
    matches!(look, Look::Tree(_))
}

/// Feeds the value that is shown, which is no list or struct.
pub(crate) fn feed_look(state: &mut DefaultHasher, look: Look<'_>)
    requires { (table : Table) × IsLegal table (seen look)
        × (is_nested (value_under table (seen look)) ≡ false) }
    ensures { (table : Table)
        → state.new ≡ fed_value (value_under table (seen look.entry)) state.old }
{
    match look {
        Look::Missing => feed_word(state, 0),
        Look::Null => feed_word(state, 1),
        Look::Bool(false) => feed_word(state, 2),
        Look::Bool(true) => feed_word(state, 3),
        Look::Int(number) => feed_number(state, 4, i128::from(number)),
        Look::Time(time) => feed_number(state, 5, i128::from(time)),
        Look::Text(bytes) => feed_text(state, 6, bytes),
        Look::Tree(_) => unreachable!(),
    }
}

/// Whether the value that is shown, which is no list or struct, is this one.
pub(crate) fn same_look(look: Look<'_>, value: &Value) -> bool
    requires { (table : Table) × IsLegal table (seen look)
        × (is_nested (value_under table (seen look)) ≡ false) }
    ensures { (table : Table)
        → IsTrue result ↔ (value_under table (seen look.entry) ≡ view value.now) }
{
    match look {
        Look::Missing => matches!(value, Value::Missing),
        Look::Null => matches!(value, Value::Null),
        Look::Bool(truth) => is_truth(value, truth),
        Look::Int(number) => is_int(value, number),
        Look::Time(time) => is_time(value, time),
        Look::Text(bytes) => is_text(value, bytes),
        Look::Tree(_) => unreachable!(),
    }
}

/// Whether the value is this truth value.
fn is_truth(value: &Value, is: bool) -> bool
    ensures { IsTrue result ↔ (truth is ≡ view value.now) }
{
    match value {
        Value::Bool(own) => *own == is,
        _ => false,
    }
}

/// Whether the value is this number.
fn is_int(value: &Value, number: i64) -> bool
    ensures { IsTrue result ↔ (int number ≡ view value.now) }
{
    match value {
        Value::Int(own) => *own == i128::from(number),
        _ => false,
    }
}

/// Whether the value is this time.
fn is_time(value: &Value, moment: i64) -> bool
    ensures { IsTrue result ↔ (time moment ≡ view value.now) }
{
    match value {
        Value::Time(own) => *own == moment,
        _ => false,
    }
}

/// Whether the value is the text of these bytes.
fn is_text(value: &Value, bytes: &[u8]) -> bool
    ensures { IsTrue result ↔ (text bytes.now ≡ view value.now) }
{
    match value {
        Value::Text(own) => own.as_str().as_bytes() == bytes,
        _ => false,
    }
}
