use crate::reasons::why_refused;
use crate::spelling::{Parts, spell};
use query_check::{Checked, check};
use sql_reader::read;
use std::alloc::Global;

// Texts, and why they are no accepted queries; no words stand beside one that is.
static TEXTS: [(&str, &str); 38] = [
    ("SELECT 1.5 FROM logs", "bad token at byte 8"),
    ("SELECT a--b FROM t", "bad token at byte 8"),
    ("SELECT * FROM a JOIN b", "refused word at byte 16"),
    ("SELECT * FROM a join b left", "refused word at byte 16"),
    ("SELECT * FROM a JOIN b 1.5", "bad token at byte 24"),
    ("SELECT", "not a query"),
    ("", "not a query"),
    ("SELECT FROM t", "not a query"),
    ("SELECT ) FROM t", "not a query"),
    ("SELECT a FROM t LIMIT 'x'", "not a query"),
    ("SELECT * FROM t 1", "not a query"),
    ("SELECT a[4294967296] FROM t", "not a query"),
    ("select * from anything", ""),
    ("SELECT \"join\" FROM t", ""),
    (
        "SELECT 'JOIN', `2024-05-01T10:00:00Z`, 9223372036854775807 FROM t",
        "",
    ),
    (
        "SELECT a b FROM t u WHERE NOT a = 1 GROUP BY a HAVING COUNT(*) > 1 ORDER BY a DESC LIMIT 1 OFFSET 2",
        "",
    ),
    (
        "SELECT * FROM t AS row WHERE NOT a BETWEEN 1 AND 2 OR b NOT IN ('it''s', NULL) ORDER BY row.\"c\"[4294967295] DESC LIMIT 3",
        "",
    ),
    (
        "SELECT count(*) AS n, extract(hour FROM at), CASE WHEN a THEN `1970-01-01T00:00:00Z` END, CAST(a AS integer) FROM t GROUP BY a",
        "output 2 is not grouped",
    ),
    (
        "SELECT SUM(COUNT(*)) FROM t",
        "output 1 has a misplaced aggregate",
    ),
    (
        "SELECT a, b FROM logs WHERE SUM(a)",
        "WHERE has a misplaced aggregate",
    ),
    (
        "SELECT a FROM t WHERE SUM(a) > 1",
        "WHERE has a misplaced aggregate",
    ),
    (
        "SELECT a FROM t GROUP BY a, MAX(a)",
        "group key 2 has a misplaced aggregate",
    ),
    (
        "SELECT 1 FROM t HAVING MIN(MIN(a)) = 1",
        "HAVING has a misplaced aggregate",
    ),
    (
        "SELECT 1 FROM t ORDER BY 1, AVG(AVG(a))",
        "order key 2 has a misplaced aggregate",
    ),
    ("SELECT a, SUM(a) FROM logs", "output 1 is not grouped"),
    ("SELECT a, COUNT(*) FROM logs", "output 1 is not grouped"),
    ("SELECT * FROM t GROUP BY a", "output 1 is not grouped"),
    ("SELECT a, b FROM t GROUP BY a", "output 2 is not grouped"),
    ("SELECT COUNT(*) FROM t HAVING a", "HAVING is not grouped"),
    (
        "SELECT COUNT(*) FROM t ORDER BY a",
        "order key 1 is not grouped",
    ),
    (
        "SELECT CAST(COUNT(*) AS BOOLEAN) FROM t",
        "output 1 is not allowed over groups",
    ),
    (
        "SELECT 1 FROM t HAVING MAX(a) LIKE 'x'",
        "HAVING is not allowed over groups",
    ),
    (
        "SELECT COUNT(*) FROM t ORDER BY EXTRACT(DAY FROM MAX(a))",
        "order key 1 is not allowed over groups",
    ),
    ("SELECT a, a FROM logs", "output 2 has an earlier name"),
    (
        "SELECT a AS x, b AS x FROM t",
        "output 2 has an earlier name",
    ),
    (
        "SELECT a, b FROM logs ORDER BY 3",
        "order key 1 has no output",
    ),
    ("SELECT a FROM t ORDER BY 2", "order key 1 has no output"),
    ("SELECT * FROM t ORDER BY a, 1", "order key 2 has no output"),
];

#[test]
fn texts_are_accepted_or_say_why_not(rt: HostRuntime) {
    for (text, reason) in &TEXTS {
        assert!(rt; why_refused(rt.alloc(), text).are(reason), "{text}");
    }
}

// 64 aggregates.
const SUMS: &str =
    "SUM(1), SUM(2), SUM(3), SUM(4), SUM(5), SUM(6), SUM(7), SUM(8), SUM(9), SUM(10), SUM(11), SUM(12), SUM(13), \
    SUM(14), SUM(15), SUM(16), SUM(17), SUM(18), SUM(19), SUM(20), SUM(21), SUM(22), SUM(23), SUM(24), SUM(25), \
    SUM(26), SUM(27), SUM(28), SUM(29), SUM(30), SUM(31), SUM(32), SUM(33), SUM(34), SUM(35), SUM(36), SUM(37), \
    SUM(38), SUM(39), SUM(40), SUM(41), SUM(42), SUM(43), SUM(44), SUM(45), SUM(46), SUM(47), SUM(48), SUM(49), \
    SUM(50), SUM(51), SUM(52), SUM(53), SUM(54), SUM(55), SUM(56), SUM(57), SUM(58), SUM(59), SUM(60), SUM(61), \
    SUM(62), SUM(63), SUM(64)";

// The same of long texts: at each limit and past it, and long chains, which fit the stack.
static LONG_TEXTS: [(Parts<'static>, u32, &str); 20] = [
    // 16 bytes and so many spaces
    (["SELECT a FROM t ", " ", "", "", ""], 65_520, ""),
    (["SELECT a FROM t ", " ", "", "", ""], 65_521, "too long"),
    // 6 tokens and so many others
    (["SELECT a FROM t WHERE ", "NOT ", "b", "", ""], 2_042, ""),
    (
        ["SELECT a FROM t WHERE ", "NOT ", "b", "", ""],
        2_043,
        "too many tokens",
    ),
    (["SELECT ", "(", "a", ")", " FROM t"], 64, ""),
    (
        ["SELECT ", "(", "a", ")", " FROM t"],
        65,
        "nested too deep at byte 71",
    ),
    (["SELECT a FROM t WHERE ", "- ", "b", "", ""], 2_042, ""),
    (["SELECT a", " + a", "", "", " FROM t"], 1_022, ""),
    (
        ["SELECT ", "CASE WHEN a THEN ", "1", " END", " FROM t"],
        64,
        "",
    ),
    // 64 times 15 tokens on the way in and 13 on the way out
    (
        [
            "SELECT ",
            "NOT NOT NOT a OR a AND NOT - - - 1 + - (",
            "a",
            ") * a + a + a = a AND a OR a",
            " FROM t",
        ],
        64,
        "",
    ),
    (["SELECT 1", ", 1", "", "", " FROM t"], 255, ""),
    (
        ["SELECT 1", ", 1", "", "", " FROM t"],
        256,
        "too many outputs",
    ),
    (
        ["SELECT a, b FROM logs GROUP BY a", ",a", "", "", ""],
        15,
        "output 2 is not grouped",
    ),
    (
        ["SELECT a, b FROM logs GROUP BY a", ",a", "", "", ""],
        16,
        "too many group keys",
    ),
    (["SELECT a FROM t ORDER BY a", ", a", "", "", ""], 15, ""),
    (
        ["SELECT a FROM t ORDER BY a", ", a", "", "", ""],
        16,
        "too many order keys",
    ),
    (["SELECT a", ".a", "", "", " FROM t"], 15, ""),
    (["SELECT a", ".a", "", "", " FROM t"], 16, "too many steps"),
    (["SELECT ", SUMS, "", "", " FROM t"], 1, ""),
    (
        ["SELECT ", SUMS, ", SUM(0)", "", " FROM t"],
        1,
        "too many aggregates",
    ),
];

// Whether this is why the text of these parts is refused.
fn is_refused(alloc: Global, parts: &Parts<'_>, times: u32, reason: &str) -> bool {
    match spell(alloc, parts, times) {
        Ok(text) => why_refused(alloc, text.as_str()).are(reason),
        Err(_) => false,
    }
}

#[test]
fn long_texts_are_accepted_or_say_why_not(rt: HostRuntime) {
    for (parts, times, reason) in &LONG_TEXTS {
        assert!(rt;
            is_refused(rt.alloc(), parts, *times, reason),
            "{times} times: {reason}"
        );
    }
}

// Whether these are the names of the outputs.
fn has_names(checked: &Checked, names: &[&str]) -> bool {
    let mut same = checked.names().len() == names.len();
    for (at, wanted) in names.iter().enumerate() {
        match checked.names().get(at) {
            Some(name) => same = same && name.as_str() == *wanted,
            None => same = false,
        }
    }
    same
}

// What an accepted query is: whether it is grouped, how many aggregates it has, and the names of its outputs.
type Facts<'a> = (bool, usize, &'a [&'a str]);

fn are_facts(checked: &Checked, facts: &Facts<'_>) -> bool {
    let (grouped, aggregates, names) = *facts;
    checked.grouped() == grouped && checked.aggs().len() == aggregates && has_names(checked, names)
}

// Whether a text is an accepted query with these facts.
fn is_accepted(alloc: Global, text: &str, facts: &Facts<'_>) -> bool {
    match read(alloc, text) {
        Ok(query) => match check(alloc, query) {
            Ok(checked) => {
                let same = are_facts(&checked, facts);
                drop(checked);
                same
            }
            Err(_) => false,
        },
        Err(_) => false,
    }
}

static ACCEPTED: [(&str, Facts<'static>); 4] = [
    ("SELECT SUM(a), SUM(a) FROM logs", (true, 1, &["_1", "_2"])),
    (
        "SELECT 1, 1 FROM logs HAVING TRUE",
        (true, 0, &["_1", "_2"]),
    ),
    (
        "SELECT a, b.c, a[0], a AS x FROM t",
        (false, 0, &["a", "c", "_3", "x"]),
    ),
    ("SELECT * FROM t", (false, 0, &[])),
];

#[test]
fn accepted_queries_are_grouped_and_named(rt: HostRuntime) {
    for (text, facts) in &ACCEPTED {
        assert!(rt; is_accepted(rt.alloc(), text, facts), "{text}");
    }
}
