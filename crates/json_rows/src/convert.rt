//! From what `serde_json` reads to the values of rows.
ghost use Rattle.std.specs.Prelude.{◌≡◌, [], ◌∷◌, ◌++◌, IfOk, OnOk, IfSome, option_map, unwrap_or};
ghost use Rattle.serde_json.specs.View.{view as data_of, items_view, members_view, number_view};
ghost use Rattle.serde_json.specs.Data.{number as number_data};
ghost use Rattle.snel_values.specs.View.{view};
ghost use Rattle.value_meaning.specs.Val.{vals, fields, null};
ghost use Rattle.pack_meaning.specs.Rows as rows;
ghost use Rattle.block_meaning.specs.Stored.{HasStoredParts, HaveStoredParts, PairsHaveStoredParts};
ghost use Rattle.json_rows.specs.Counts.{raised};

use serde_json::{Map, Number};
use snel_values::{Items, OutOfMemory, Pairs, Text, Value};
use std::alloc::Global;
use time_text::read_time;

/// The number as a value, or None and one more dropped where it is a fraction.
fn number(n: &Number, dropped: &mut u64) -> Option<Value>
    ensures value { option_map view result ≡ rows.value_in (number_data (number_view n.now)) }
    ensures counts { dropped.new ≡ raised dropped.old (rows.fractions (number_data (number_view n.now))) }
    ensures stored { IfSome result (λ v. HasStoredParts (view v)) }
{
    let _count = *dropped;
    match n.as_i64() {
        Some(whole) => Some(Value::Int(i128::from(whole))),
        None => {
            *dropped = dropped.saturating_add(1);
            None
        }
    }
}

/// The value, None for a fraction. Each fraction counts as dropped, up to the end of the count's type.
#[cycle(convert)]
pub(crate) fn value_in(
    alloc: Global,
    json: &serde_json::Value,
    dropped: &mut u64,
) -> Result<Option<Value>, OutOfMemory>
    ensures value { IfOk result (λ o. option_map view o ≡ rows.value_in (data_of json.now)) }
    ensures counts { OnOk result (dropped.new ≡ raised dropped.old (rows.fractions (data_of json.now))) }
    ensures stored { IfOk result (λ o. IfSome o (λ v. HasStoredParts (view v))) }
{
    let _count = *dropped;
    match json {
        serde_json::Value::Null => Ok(Some(Value::Null)),
        serde_json::Value::Bool(b) => Ok(Some(Value::Bool(*b))),
        serde_json::Value::Number(n) => Ok(number(n, dropped)),
        serde_json::Value::String(text) => Ok(Some(Value::Text(Text::of(alloc, text.as_str())?))),
        serde_json::Value::Array(items) => Ok(Some(Value::List(values_in(alloc, items, dropped)?))),
        serde_json::Value::Object(members) => {
            Ok(Some(Value::Struct(pairs_in(alloc, members, None, dropped)?)))
        }
    }
}

/// Adds the value, NULL for a fraction.
#[tactic(auto, using(crate::proofs::Stored::stored_item))]
fn push_or_null(values: &mut Items, value: Option<Value>) -> Result<(), OutOfMemory>
    ensures ok { OnOk result (values.new ≡ values.old ++ unwrap_or (option_map view value) null ∷ []) }
    ensures stored { IfSome value (λ v. HasStoredParts (view v)) → HaveStoredParts (vals values.old)
        → OnOk result (HaveStoredParts (vals values.new)) }
{
    match value {
        Some(value) => values.push(value)?,
        None => values.push(Value::Null)?,
    }
    Ok(())
}

/// The items, each fraction as NULL.
#[cycle(convert)]
fn values_in(
    alloc: Global,
    items: &Vec<serde_json::Value>,
    dropped: &mut u64,
) -> Result<Items, OutOfMemory>
    ensures value { IfOk result (λ vs. vals vs ≡ rows.values_in (items_view items.now.items)) }
    ensures counts { OnOk result (dropped.new ≡ raised dropped.old (rows.item_fractions (items_view items.now.items))) }
    ensures stored { IfOk result (λ vs. HaveStoredParts (vals vs)) }
{
    let _count = *dropped;
    let mut values = Items::new(alloc);
    for item in items {
        let value = value_in(alloc, item, dropped)?;
        push_or_null(&mut values, value)?;
    }
    Ok(values)
}

/// A text that spells a time becomes the time.
fn as_time(value: Value) -> Value
    ensures { view result ≡ rows.as_time (view value) }
{
    match value {
        Value::Text(text) => match read_time(text.as_str().as_bytes()) {
            Some(time) => Value::Time(time),
            None => Value::Text(text),
        },
        other => other,
    }
}

/// The value of a pair with this name, as a time where the name is the time field's and the value spells one.
fn timed_value(time_field: Option<&str>, name: &str, value: Value) -> Value
    ensures { view result ≡ rows.timed_value (option_map (λ s. s.now) time_field.entry) name.now (view value) }
{
    match time_field {
        Some(field) if name == field => as_time(value),
        _ => value,
    }
}

/// The pairs, without those whose value is a fraction. The value of the time field may become a time.
#[cycle(convert)]
pub(crate) fn pairs_in(
    alloc: Global,
    members: &Map<String, serde_json::Value>,
    time_field: Option<&str>,
    dropped: &mut u64,
) -> Result<Pairs, OutOfMemory>
    ensures value { IfOk result (λ fs. fields fs ≡ rows.timed (option_map (λ s. s.now) time_field.entry) (rows.pairs_in (members_view members.now.entries))) }
    ensures counts { OnOk result (dropped.new ≡ raised dropped.old (rows.member_fractions (members_view members.now.entries))) }
    ensures stored { IfOk result (λ fs. PairsHaveStoredParts (fields fs)) }
{
    let _count = *dropped;
    let mut pairs = Pairs::new(alloc);
    for (name, member) in members.iter() {
        if let Some(value) = value_in(alloc, member, dropped)? {
            let value = timed_value(time_field, name.as_str(), value);
            pairs.push(Text::of(alloc, name.as_str())?, value)?;
        }
    }
    Ok(pairs)
}
