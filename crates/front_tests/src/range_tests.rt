use crate::spelling::spell;
use query_tree::Query;
use sql_reader::read;
use std::alloc::Global;
use time_index::{Bounds, bounds};

// 2024-01-01T00:00:00Z, and a second later.
const FIRST: i64 = 1_704_067_200_000_000;

const SECOND: i64 = 1_704_067_201_000_000;

fn between(low: i64, high: i64) -> Option<Bounds> {
    Some(Bounds::Between { low, high })
}

fn of_filter(query: &Query, field: &str) -> Option<Bounds> {
    match &query.filter {
        Some(filter) => Some(bounds(filter.get(), field)),
        None => None,
    }
}

// The bounds that the WHERE of a text leaves of a field.
fn of_text(alloc: Global, text: &str, field: &str) -> Option<Bounds> {
    match read(alloc, text) {
        Ok(query) => {
            let bounds = of_filter(&query, field);
            drop(query);
            bounds
        }
        Err(_) => None,
    }
}

// The same of a condition, so many times with AND between.
fn of_conjuncts(alloc: Global, condition: &str, times: u32, field: &str) -> Option<Bounds> {
    match spell(
        alloc,
        &["SELECT * FROM logs WHERE ", "b AND ", condition, "", ""],
        times,
    ) {
        Ok(text) => of_text(alloc, text.as_str(), field),
        Err(_) => None,
    }
}

// Conditions that bind `ts`, and the least and the greatest time that they leave of it.
static BINDING: [(&str, i64, i64); 14] = [
    ("ts = `2024-01-01T00:00:00Z`", FIRST, FIRST),
    ("ts < `2024-01-01T00:00:00Z`", i64::MIN, FIRST - 1),
    ("ts <= `2024-01-01T00:00:00Z`", i64::MIN, FIRST),
    ("ts > `2024-01-01T00:00:00Z`", FIRST + 1, i64::MAX),
    ("ts >= `2024-01-01T00:00:00Z`", FIRST, i64::MAX),
    ("`2024-01-01T00:00:00Z` = ts", FIRST, FIRST),
    ("`2024-01-01T00:00:00Z` < ts", FIRST + 1, i64::MAX),
    ("`2024-01-01T00:00:00Z` >= logs.ts", i64::MIN, FIRST),
    (
        "ts BETWEEN `2024-01-01T00:00:00Z` AND `2024-01-01T00:00:01Z`",
        FIRST,
        SECOND,
    ),
    (
        "ts BETWEEN `2024-01-01T00:00:01Z` AND `2024-01-01T00:00:00Z`",
        SECOND,
        FIRST,
    ),
    (
        "a = 1 AND ts > `2024-01-01T00:00:00Z` AND ts <= `2024-01-01T00:00:01Z`",
        FIRST + 1,
        SECOND,
    ),
    (
        "a = 1 AND (ts >= `2024-01-01T00:00:00Z` AND b = 2) AND ts < `2024-01-01T00:00:01Z`",
        FIRST,
        SECOND - 1,
    ),
    (
        "ts > `2024-01-01T00:00:01Z` AND ts < `2024-01-01T00:00:00Z`",
        SECOND + 1,
        FIRST - 1,
    ),
    (
        "(a = 1 OR b = 2) AND ts = `2024-01-01T00:00:00Z`",
        FIRST,
        FIRST,
    ),
];

// Conditions that don't bind it.
static NOT_BINDING: [&str; 11] = [
    "a = 1",
    "ts <> `2024-01-01T00:00:00Z`",
    "ts >= 5",
    "ts = '2024-01-01T00:00:00Z'",
    "a.ts = `2024-01-01T00:00:00Z`",
    "ts.a = `2024-01-01T00:00:00Z`",
    "ts[0] = `2024-01-01T00:00:00Z`",
    "ts >= `2024-01-01T00:00:00Z` OR a = 1",
    "NOT (ts >= `2024-01-01T00:00:00Z`)",
    "ts BETWEEN `2024-01-01T00:00:00Z` AND b",
    "ts = DATE_ADD(DAY, 1, `2024-01-01T00:00:00Z`)",
];

#[test]
fn conjuncts_bind_the_field(rt: HostRuntime) {
    for (condition, low, high) in &BINDING {
        assert!(rt;
            of_conjuncts(rt.alloc(), condition, 0, "ts") == between(*low, *high),
            "{condition}"
        );
    }
}

#[test]
fn other_conditions_leave_all_times(rt: HostRuntime) {
    for condition in &NOT_BINDING {
        assert!(rt;
            of_conjuncts(rt.alloc(), condition, 0, "ts") == Some(Bounds::All),
            "{condition}"
        );
    }
}

#[test]
fn a_long_chain_binds_the_field(rt: HostRuntime) {
    let condition = "ts = `2024-01-01T00:00:00Z`";
    assert!(rt; of_conjuncts(rt.alloc(), condition, 1_000, "ts") == between(FIRST, FIRST));
    assert!(rt; of_conjuncts(rt.alloc(), condition, 1_000, "") == Some(Bounds::All));
}
