use crate::printed::{printed, prints};
use std::alloc::Global;

// Whether both texts are queries of one tree, which is printed in one way.
fn same_trees(alloc: Global, left: &str, right: &str) -> bool {
    match printed(alloc, left) {
        Some(made) => prints(alloc, right, made.as_str()),
        None => false,
    }
}

// Each form beside a text that says its tree by parentheses, or in another way.
static SAME: [(&str, &str); 30] = [
    ("SELECT a - b - c FROM t", "SELECT (a - b) - c FROM t"),
    ("SELECT a + b * c FROM t", "SELECT a + (b * c) FROM t"),
    ("SELECT a / b % c FROM t", "SELECT (a / b) % c FROM t"),
    ("SELECT - a * b FROM t", "SELECT (- a) * b FROM t"),
    ("SELECT - - a FROM t", "SELECT - (- a) FROM t"),
    ("SELECT a + 1 < b FROM t", "SELECT (a + 1) < b FROM t"),
    ("SELECT a <> b FROM t", "SELECT a != b FROM t"),
    ("SELECT NOT a = 1 FROM t", "SELECT NOT (a = 1) FROM t"),
    ("SELECT NOT a AND b FROM t", "SELECT (NOT a) AND b FROM t"),
    ("SELECT a OR b AND c FROM t", "SELECT a OR (b AND c) FROM t"),
    (
        "SELECT a AND b AND c FROM t",
        "SELECT (a AND b) AND c FROM t",
    ),
    ("SELECT a OR b OR c FROM t", "SELECT (a OR b) OR c FROM t"),
    (
        "SELECT a IS NOT NULL FROM t",
        "SELECT NOT (a IS NULL) FROM t",
    ),
    (
        "SELECT a + 1 IS MISSING FROM t",
        "SELECT (a + 1) IS MISSING FROM t",
    ),
    (
        "SELECT a NOT IN (1, b) FROM t",
        "SELECT NOT (a IN (1, b)) FROM t",
    ),
    (
        "SELECT a NOT BETWEEN 1 AND 2 AND b FROM t",
        "SELECT (NOT (a BETWEEN 1 AND 2)) AND b FROM t",
    ),
    (
        "SELECT a NOT LIKE 'x%' FROM t",
        "SELECT NOT (a LIKE 'x%') FROM t",
    ),
    (
        "SELECT a NOT ILIKE 'x' FROM t",
        "SELECT NOT (a ILIKE 'x') FROM t",
    ),
    (
        "SELECT CASE WHEN a THEN 1 WHEN b THEN 2 END FROM t",
        "SELECT CASE WHEN (a) THEN (1) WHEN b THEN 2 ELSE NULL END FROM t",
    ),
    ("SELECT t.a[0].b FROM t", "SELECT a[0].\"b\" FROM t"),
    ("SELECT x.a FROM t AS x", "SELECT a FROM t x"),
    (
        "SELECT cast(a as integer) FROM t",
        "SELECT CAST((a) AS INTEGER) FROM t",
    ),
    (
        "SELECT coalesce(a, 1) FROM t",
        "SELECT COALESCE((a), (1)) FROM t",
    ),
    (
        "SELECT nullif(a, 1) FROM t",
        "SELECT NULLIF((a), (1)) FROM t",
    ),
    (
        "SELECT starts_with(a, 'b') FROM t",
        "SELECT STARTS_WITH((a), 'b') FROM t",
    ),
    (
        "SELECT date_trunc(month, a) FROM t",
        "SELECT DATE_TRUNC(MONTH, (a)) FROM t",
    ),
    (
        "SELECT extract(year from a) FROM t",
        "SELECT EXTRACT(YEAR FROM (a)) FROM t",
    ),
    (
        "SELECT date_add(day, 1, a) FROM t",
        "SELECT DATE_ADD(DAY, (1), (a)) FROM t",
    ),
    (
        "SELECT count(*) + sum(a) FROM t",
        "SELECT COUNT(*) + SUM((a)) FROM t",
    ),
    (
        "SELECT `2024-05-01 10:00:00z` FROM t",
        "SELECT `2024-05-01T12:00:00.000+02:00` FROM t",
    ),
];

// Texts that have one tree only if a rule of the grammar is broken.
static OTHER: [(&str, &str); 10] = [
    ("SELECT a - b - c FROM t", "SELECT a - (b - c) FROM t"),
    ("SELECT a + b * c FROM t", "SELECT (a + b) * c FROM t"),
    ("SELECT NOT a = 1 FROM t", "SELECT (NOT a) = 1 FROM t"),
    ("SELECT a OR b AND c FROM t", "SELECT (a OR b) AND c FROM t"),
    ("SELECT a < b FROM t", "SELECT a <= b FROM t"),
    ("SELECT a LIKE 'x' FROM t", "SELECT a ILIKE 'x' FROM t"),
    (
        "SELECT CASE WHEN a THEN 1 END FROM t",
        "SELECT CASE WHEN a THEN 1 ELSE MISSING END FROM t",
    ),
    ("SELECT a[0] FROM t", "SELECT a[1] FROM t"),
    ("SELECT count(*) FROM t", "SELECT count(a) FROM t"),
    ("SELECT min(a) FROM t", "SELECT max(a) FROM t"),
];

#[test]
fn each_form_has_its_tree(rt: HostRuntime) {
    for (form, tree) in &SAME {
        assert!(rt; same_trees(rt.alloc(), form, tree), "{form}");
    }
}

// Whether both texts are queries, of two trees.
fn other_trees(alloc: Global, left: &str, right: &str) -> bool {
    same_trees(alloc, left, left)
        && same_trees(alloc, right, right)
        && !same_trees(alloc, left, right)
}

#[test]
fn other_forms_have_other_trees(rt: HostRuntime) {
    for (form, other) in &OTHER {
        assert!(rt; other_trees(rt.alloc(), form, other), "{form}");
    }
}
