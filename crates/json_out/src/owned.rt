ghost use Rattle.std.specs.Prelude.{◌≡◌, ◌∷◌, ◌++◌, ◌+◌, ◌<◌, drop, length, OnOk};
ghost use Rattle.value_meaning.specs.Val.{list, struct, vals, fields};
ghost use Rattle.block_meaning.specs.Stored.{HasTimesInRange, HaveTimesInRange, PairsHaveTimesInRange};
ghost use Rattle.answer_meaning.specs.Lines.{comma_if, value_text};
ghost use Rattle.snel_values.specs.View.{view};
ghost use Rattle.json_out.specs.NoMissing.{HasNoMissing, HaveNoMissing, PairsHaveNoMissing};

use crate::numbers::put_number;
use crate::texts::put_quoted;
use crate::times::put_quoted_time;
use snel_values::{Bytes, Items, OutOfMemory, Pairs, Value};

/// Adds a comma, where something stands before.
fn put_comma_if(into: &mut Bytes, later: bool) -> Result<(), OutOfMemory>
    ensures { OnOk result (into.new ≡ into.old ++ comma_if later) }
{
    if later { into.push_all(b",") } else { Ok(()) }
}

/// The name and the value at a place, counted from 0.
pub(crate) fn pair_at(pairs: &Pairs, at: usize) -> (&str, &Value)
    requires { at < length pairs.now }
    ensures { drop at pairs.now ≡ (result.0.now, view result.1.now) ∷ drop (at + 1) pairs.now }
{
    let Some(name) = pairs.name_at(at) else {
        unreachable!();
    };
    let Some(value) = pairs.value_at(at) else {
        unreachable!();
    };
    (name, value)
}

/// Adds the text of the value.
#[cycle(owned)]
pub(crate) fn put_owned(into: &mut Bytes, value: &Value) -> Result<(), OutOfMemory>
    requires times { HasTimesInRange (view value.now) }
    requires no_missing { HasNoMissing (view value.now) }
    ensures { OnOk result (into.new ≡ into.old ++ value_text (view value.now)) }
{
    match value {
        Value::Missing => unreachable!(),
        Value::Null => into.push_all(b"null"),
        Value::Bool(true) => into.push_all(b"true"),
        Value::Bool(false) => into.push_all(b"false"),
        Value::Int(number) => put_number(into, *number),
        Value::Time(time) => put_quoted_time(into, *time),
        Value::Text(text) => put_quoted(into, text.as_str()),
        Value::List(items) => put_items(into, items),
        Value::Struct(pairs) => put_pairs(into, pairs),
    }
}

/// Adds the text of the list of these items.
#[cycle(owned)]
fn put_items(into: &mut Bytes, items: &Items) -> Result<(), OutOfMemory>
    requires times { HaveTimesInRange (vals items.now) }
    requires no_missing { HaveNoMissing (vals items.now) }
    ensures { OnOk result (into.new ≡ into.old ++ value_text (list (vals items.now))) }
{
    into.push_all(b"[")?;
    let mut later = false;
    for item in items.as_slice() {
        put_comma_if(into, later)?;
        put_owned(into, item)?;
        later = true;
    }
    into.push_all(b"]")
}

/// Adds the text of the struct of these pairs.
#[cycle(owned)]
fn put_pairs(into: &mut Bytes, pairs: &Pairs) -> Result<(), OutOfMemory>
    requires times { PairsHaveTimesInRange (fields pairs.now) }
    requires no_missing { PairsHaveNoMissing (fields pairs.now) }
    ensures { OnOk result (into.new ≡ into.old ++ value_text (struct (fields pairs.now))) }
{
    into.push_all(b"{")?;
    let mut later = false;
    for at in 0..pairs.len() {
        put_comma_if(into, later)?;
        let (name, value) = pair_at(pairs, at);
        put_quoted(into, name)?;
        into.push_all(b":")?;
        put_owned(into, value)?;
        later = true;
    }
    into.push_all(b"}")
}
