use crate::sample::{Sample, made};
use snel_values::{Bytes, Items, MadeRow, MadeRows, Step, Steps, Text, Value, Words, order, same};
use std::alloc::Global;
use std::cmp::Ordering;

// Values of every kind, each below the next.
static RISING: [Sample; 27] = [
    Sample::Missing,
    Sample::Null,
    Sample::Bool(false),
    Sample::Bool(true),
    Sample::Int(-9_223_372_036_854_775_809),
    Sample::Int(-5),
    Sample::Int(0),
    Sample::Int(3),
    Sample::Int(9_223_372_036_854_775_808),
    Sample::Time(-1),
    Sample::Time(0),
    Sample::Time(1_700_000_000_000_000),
    Sample::Text(""),
    Sample::Text("B"),
    Sample::Text("a"),
    Sample::Text("aa"),
    Sample::Text("b"),
    Sample::Text("é"),
    Sample::List(&[]),
    Sample::List(&[Sample::Int(1)]),
    Sample::List(&[Sample::Int(1), Sample::Int(1)]),
    Sample::List(&[Sample::Int(2)]),
    Sample::Struct(&[]),
    Sample::Struct(&[("a", Sample::Int(1))]),
    Sample::Struct(&[("a", Sample::Int(1)), ("b", Sample::Int(0))]),
    Sample::Struct(&[("a", Sample::Int(2))]),
    Sample::Struct(&[("b", Sample::Int(0))]),
];

// Whether two values stand so to one another, and are the same where they are equal.
fn are_ordered(alloc: Global, a: &Sample, b: &Sample, wanted: Ordering) -> bool {
    let first = made(alloc, a);
    let second = made(alloc, b);
    let ordered = order(&first, &second) == wanted;
    let equal = same(&first, &second) == (wanted == Ordering::Equal);
    drop(first);
    drop(second);
    ordered && equal
}

#[test]
fn orders_values_of_every_kind(rt: HostRuntime) {
    for (i, a) in RISING.iter().enumerate() {
        for (j, b) in RISING.iter().enumerate() {
            assert!(rt; are_ordered(rt.alloc(), a, b, i.cmp(&j)), "{i} and {j}");
        }
    }
}

// Whether a copy of the value is the same value.
fn is_copied(alloc: Global, value: &Value) -> bool {
    match value.copy(alloc) {
        Ok(copy) => {
            let equal = same(&copy, value);
            drop(copy);
            equal
        }
        Err(_) => false,
    }
}

fn sample_is_copied(alloc: Global, sample: &Sample) -> bool {
    let value = made(alloc, sample);
    let copied = is_copied(alloc, &value);
    drop(value);
    copied
}

// Whether a copy of the list of all these values is the same list.
fn list_is_copied(alloc: Global, samples: &[Sample]) -> bool {
    let mut items = Items::new(alloc);
    let mut whole = true;
    for sample in samples {
        whole = items.push(made(alloc, sample)).is_ok() && whole;
    }
    let value = Value::List(items);
    let copied = whole && is_copied(alloc, &value);
    drop(value);
    copied
}

#[test]
fn copies_values_of_every_kind(rt: HostRuntime) {
    for sample in &RISING {
        assert!(rt; sample_is_copied(rt.alloc(), sample));
    }
    assert!(rt; list_is_copied(rt.alloc(), &RISING));
}

// The pair of `b` is left out.
static NAMED: Sample = Sample::Struct(&[
    ("a", Sample::Int(7)),
    ("c", Sample::Int(8)),
    ("b", Sample::Int(9)),
]);

fn is_int(value: Option<&Value>, wanted: i128) -> bool {
    match value {
        Some(Value::Int(number)) => *number == wanted,
        _ => false,
    }
}

fn pairs_are_found(value: &Value) -> bool {
    let Value::Struct(pairs) = value else {
        return false
    };
    let places = pairs.len() == 2 && is_int(pairs.value_at(1), 8);
    let names = pairs.last_name() == Some("c") && pairs.name_at(0) == Some("a");
    let others = pairs.name_at(2).is_none() && pairs.get("b").is_none();
    places && names && others && is_int(pairs.get("a"), 7)
}

#[test]
fn finds_pairs_by_name_and_by_place(rt: HostRuntime) {
    let value = made(rt.alloc(), &NAMED);
    let found = pairs_are_found(&value);
    drop(value);
    assert!(rt; found);
}

fn keeps_words(alloc: Global) -> bool {
    let mut words = Words::new(alloc);
    let mut whole = true;
    for word in &["query", "", "é"] {
        whole = words.push(word).is_ok() && whole;
    }
    whole && words.len() == 3 && words.get(2) == Some("é") && words.get(3).is_none()
}

fn keeps_bytes(alloc: Global) -> bool {
    let mut bytes = Bytes::new(alloc);
    let begun = bytes.push_all(b"{\"a\":").is_ok() && bytes.push_all(b"1}").is_ok();
    let kept = begun && bytes.as_slice() == b"{\"a\":1}".as_slice() && bytes.len() == 7;
    bytes.clear();
    kept && bytes.push_all(b"2").is_ok() && bytes.as_slice() == b"2".as_slice()
}

// Adds a step of a copy of the name.
fn put_name(alloc: Global, steps: &mut Steps, name: &str) -> bool {
    match Text::of(alloc, name) {
        Ok(name) => match name.copy(alloc) {
            Ok(copy) => steps.push(Step::Name(copy)).is_ok(),
            Err(_) => false,
        },
        Err(_) => false,
    }
}

fn is_name(step: Option<&Step>, wanted: &str) -> bool {
    match step {
        Some(Step::Name(name)) => name.as_str() == wanted,
        _ => false,
    }
}

fn keeps_steps(alloc: Global) -> bool {
    let mut steps = Steps::new(alloc);
    put_name(alloc, &mut steps, "tags")
        && steps.push(Step::At(4)).is_ok()
        && steps.len() == 2
        && matches!(steps.get(1), Some(Step::At(4)))
        && is_name(steps.get(0), "tags")
}

#[test]
fn keeps_words_bytes_and_steps(rt: HostRuntime) {
    assert!(rt; keeps_words(rt.alloc()));
    assert!(rt; keeps_bytes(rt.alloc()));
    assert!(rt; keeps_steps(rt.alloc()));
}

// Adds a row of one key, NULL, and the line; whether it was added.
fn put_row(alloc: Global, rows: &mut MadeRows, piece: &[u8]) -> bool {
    let mut keys = Items::new(alloc);
    let mut line = Bytes::new(alloc);
    let whole = keys.push(Value::Null).is_ok() && line.push_all(piece).is_ok();
    rows.push(MadeRow { keys, line }).is_ok() && whole
}

fn is_row(row: Option<&MadeRow>, piece: &[u8]) -> bool {
    match row {
        Some(row) => {
            row.line.as_slice() == piece && matches!(row.keys.get(0), Some(Value::Null))
        }
        None => false,
    }
}

// Whether the last row is this one, which is taken away.
fn pops(rows: &mut MadeRows, piece: &[u8]) -> bool {
    match rows.pop() {
        Some(row) => {
            let same = is_row(Some(&row), piece);
            drop(row);
            same
        }
        None => false,
    }
}

fn keeps_rows(alloc: Global) -> bool {
    let mut rows = MadeRows::new(alloc);
    let mut whole = true;
    for piece in &[b"1", b"2", b"3"] {
        whole = put_row(alloc, &mut rows, *piece) && whole;
    }
    whole = whole && rows.len() == 3 && is_row(rows.get(1), b"2");
    for piece in &[b"3", b"2", b"1"] {
        whole = pops(&mut rows, *piece) && whole;
    }
    whole && rows.pop().is_none()
}

#[test]
fn pops_made_rows_to_the_end(rt: HostRuntime) {
    assert!(rt; keeps_rows(rt.alloc()));
}
