use crate::spelling::spell;
use crate::words::{Words, numbered, plain};
use eval_row::eval_row;
use query_tree::{Operand, Outputs, Query};
use snel_values::{Items, Pairs, Text, Value};
use sql_reader::read;
use std::alloc::Global;

// The expression of the first output.
fn first_output(query: &Query) -> Option<&Operand> {
    match &query.outputs {
        Outputs::Star => None,
        Outputs::Named(items) => match items.get(0) {
            Some(item) => Some(&item.expr),
            None => None,
        },
    }
}

// Adds a pair, where its name stands above the last; whether it was added.
fn put(alloc: Global, pairs: &mut Pairs, name: &str, value: Value) -> bool {
    match Text::of(alloc, name) {
        Ok(name) => put_above(pairs, name, value),
        Err(_) => {
            drop(value);
            false
        }
    }
}

fn put_above(pairs: &mut Pairs, name: Text, value: Value) -> bool {
    if pairs.is_above_last(name.as_str()) {
        pairs.push(name, value).is_ok()
    } else {
        drop(value);
        false
    }
}

fn put_text(alloc: Global, pairs: &mut Pairs, name: &str, text: &str) -> bool {
    match Text::of(alloc, text) {
        Ok(text) => put(alloc, pairs, name, Value::Text(text)),
        Err(_) => false,
    }
}

// `[1,null]`
fn list(alloc: Global) -> Value {
    let mut items = Items::new(alloc);
    let _whole = items.push(Value::Int(1)).is_ok() && items.push(Value::Null).is_ok();
    Value::List(items)
}

// Adds the pairs of the row at a place; whether they were added.
fn put_pairs(alloc: Global, pairs: &mut Pairs, at: usize) -> bool {
    match at {
        0 => put(alloc, pairs, "a", Value::Int(1)) && put_text(alloc, pairs, "b", "x"),
        1 => put(alloc, pairs, "a", Value::Null),
        2 => put(alloc, pairs, "b", Value::Int(7)),
        3 => put(alloc, pairs, "a", list(alloc)),
        _ => true,
    }
}

// The row `{"a":1,"b":"x"}`, `{"a":null}`, `{"b":7}` or `{"a":[1,null]}` by its place, and else `{}`.
fn row(alloc: Global, at: usize) -> Value {
    let mut pairs = Pairs::new(alloc);
    let _whole = put_pairs(alloc, &mut pairs, at);
    Value::Struct(pairs)
}

// The value of the first output on the row at a place.
fn first_value(alloc: Global, query: &Query, at: usize) -> Option<Value> {
    let expr = first_output(query)?;
    let row = row(alloc, at);
    let value = eval_row(alloc, expr, &row, &Value::Missing).ok();
    drop(row);
    value
}

// The same of a text's query.
fn value_of(alloc: Global, text: &str, at: usize) -> Option<Value> {
    match read(alloc, text) {
        Ok(query) => {
            let value = first_value(alloc, &query, at);
            drop(query);
            value
        }
        Err(_) => None,
    }
}

// A value in words; a time counts microseconds from 1970-01-01T00:00:00Z.
fn said(value: &Value) -> Words {
    match value {
        Value::Missing => plain("MISSING"),
        Value::Null => plain("NULL"),
        Value::Bool(true) => plain("TRUE"),
        Value::Bool(false) => plain("FALSE"),
        Value::Int(number) => numbered("", *number, ""),
        Value::Time(micros) => numbered("time ", i128::from(*micros), ""),
        Value::Text(_) => plain("a text"),
        Value::List(_) => plain("a list"),
        Value::Struct(_) => plain("a struct"),
    }
}

// Whether this is the value of the first output of a text's query.
fn is_value(alloc: Global, text: &str, at: usize, wanted: &str) -> bool {
    match value_of(alloc, text, at) {
        Some(value) => {
            let same = said(&value).are(wanted);
            drop(value);
            same
        }
        None => false,
    }
}

// Whether an expression has this value on the row at a place.
fn has_value(alloc: Global, expression: &str, at: usize, wanted: &str) -> bool {
    match spell(alloc, &["SELECT ", expression, "", "", " FROM t"], 1) {
        Ok(text) => is_value(alloc, text.as_str(), at, wanted),
        Err(_) => false,
    }
}

// Expressions, and their values on the four rows.
static ON_ROWS: [(&str, [&str; 4]); 9] = [
    (
        "a IS NOT MISSING AND NOT (a IS NULL)",
        ["TRUE", "FALSE", "FALSE", "TRUE"],
    ),
    (
        "a IS NULL OR a IS MISSING",
        ["FALSE", "TRUE", "TRUE", "FALSE"],
    ),
    ("CAST(b AS INTEGER)", ["MISSING", "MISSING", "7", "MISSING"]),
    ("b + 1", ["MISSING", "MISSING", "8", "MISSING"]),
    (
        "CASE WHEN a = 1 THEN 10 WHEN a IS NOT MISSING THEN 20 END",
        ["10", "20", "NULL", "20"],
    ),
    ("b", ["a text", "MISSING", "7", "MISSING"]),
    ("a[0]", ["MISSING", "MISSING", "MISSING", "1"]),
    ("a[1]", ["MISSING", "MISSING", "MISSING", "NULL"]),
    ("a[3]", ["MISSING", "MISSING", "MISSING", "MISSING"]),
];

#[test]
fn expressions_have_their_values_on_rows(rt: HostRuntime) {
    for (expression, values) in &ON_ROWS {
        for at in 0..4usize {
            assert!(rt;
                has_value(rt.alloc(), expression, at, values[at]),
                "{expression}"
            );
        }
    }
}

// Expressions without paths, and their values.
static VALUES: [(&str, &str); 40] = [
    ("-7 / 2", "-3"),
    ("-7 % 2", "-1"),
    ("1 / 0", "MISSING"),
    ("(-9223372036854775807 - 1) / -1", "MISSING"),
    ("(-9223372036854775807 - 1) % -1", "0"),
    ("1 + 9223372036854775807", "MISSING"),
    ("2 <= 2", "TRUE"),
    ("CAST('-12' AS INTEGER)", "-12"),
    ("CAST('9223372036854775808' AS INTEGER)", "MISSING"),
    ("CAST('-' AS INTEGER)", "MISSING"),
    ("CAST(0 AS BOOLEAN)", "FALSE"),
    ("1 IN (NULL, 2)", "NULL"),
    ("1 IN (NULL, 1)", "TRUE"),
    ("COALESCE(MISSING, NULL)", "NULL"),
    ("NULLIF(3, 3)", "NULL"),
    ("'abc' LIKE '%b%'", "TRUE"),
    ("'abc' LIKE '%b'", "FALSE"),
    ("'aé' LIKE 'a_'", "TRUE"),
    ("'aé' LIKE 'a__'", "FALSE"),
    ("'aé' ILIKE 'AÉ'", "FALSE"),
    ("'ab' ILIKE 'A_'", "TRUE"),
    ("CONTAINS('abc', '')", "TRUE"),
    ("STARTS_WITH('abc', 'ab')", "TRUE"),
    ("ENDS_WITH('abc', 'ab')", "FALSE"),
    ("CHAR_LENGTH('aé')", "2"),
    (
        "DATE_TRUNC(WEEK, `2024-02-29T23:59:59.999999Z`)",
        "time 1708905600000000",
    ),
    (
        "DATE_TRUNC(MONTH, `2024-02-29T23:59:59.999999Z`)",
        "time 1706745600000000",
    ),
    (
        "DATE_TRUNC(QUARTER, `2024-02-29T23:59:59.999999Z`)",
        "time 1704067200000000",
    ),
    (
        "DATE_TRUNC(YEAR, `2024-02-29T23:59:59.999999Z`)",
        "time 1704067200000000",
    ),
    (
        "DATE_TRUNC(HOUR, `2024-02-29T23:59:59.999999Z`)",
        "time 1709247600000000",
    ),
    (
        "DATE_TRUNC(DAY, `1969-12-31T23:59:59.999999Z`)",
        "time -86400000000",
    ),
    (
        "EXTRACT(MICROSECOND FROM `2024-02-29T23:59:59.999999Z`)",
        "999999",
    ),
    ("EXTRACT(DAY FROM `2024-02-29T23:59:59.999999Z`)", "29"),
    ("EXTRACT(QUARTER FROM `2024-02-29T23:59:59.999999Z`)", "1"),
    ("TO_UNIX_EPOCH(`2024-02-29T23:59:59.999999Z`)", "1709251199"),
    (
        "DATE_ADD(DAY, 1, `2024-02-29T23:59:59.999999Z`)",
        "time 1709337599999999",
    ),
    ("`2024-02-29T23:59:59.999999Z`", "time 1709251199999999"),
    ("`1969-12-31T23:59:59.999999Z`", "time -1"),
    ("`0001-01-01T00:00:00Z`", "time -62135596800000000"),
    ("`2024-02-29T00:00:00.000007Z`", "time 1709164800000007"),
];

#[test]
fn expressions_without_paths_have_their_values(rt: HostRuntime) {
    for (expression, wanted) in &VALUES {
        assert!(rt;
            has_value(rt.alloc(), expression, 4, wanted),
            "{expression}"
        );
    }
}
