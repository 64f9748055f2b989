use command_calls::{OF_A, OF_A_AND_B, STEADY, ends, ends_on, file_of};
use std::test::Fail;

// Queries over the rows {"a":1,"b":"x"}, {"a":null} and {"b":7}, and their lines.
static ANSWERS: [(&str, &str); 24] = [
    (
        "SELECT a FROM logs ORDER BY a DESC, b",
        "{\"a\":1}\n{\"a\":null}\n{}\n",
    ),
    (
        "SELECT a FROM logs ORDER BY a LIMIT 1 OFFSET 1",
        "{\"a\":null}\n",
    ),
    (
        "SELECT b AS a FROM logs ORDER BY a",
        "{}\n{\"a\":7}\n{\"a\":\"x\"}\n",
    ),
    (
        "SELECT a, b FROM logs ORDER BY 2 DESC LIMIT 2",
        "{\"a\":1,\"b\":\"x\"}\n{\"b\":7}\n",
    ),
    ("SELECT * FROM logs ORDER BY b LIMIT 0", ""),
    (
        "SELECT a FROM logs WHERE b IS NOT MISSING ORDER BY a IS NULL, b OFFSET 1",
        "{\"a\":1}\n",
    ),
    ("SELECT a FROM logs", "{\"a\":1}\n{\"a\":null}\n{}\n"),
    ("SELECT * FROM logs WHERE a IS MISSING", "{\"b\":7}\n"),
    (
        "SELECT a FROM logs WHERE a IS NOT MISSING AND NOT (a IS NULL)",
        "{\"a\":1}\n",
    ),
    (
        "SELECT b FROM logs WHERE a IS NULL OR a IS MISSING",
        "{}\n{\"b\":7}\n",
    ),
    (
        "SELECT b, a FROM logs",
        "{\"b\":\"x\",\"a\":1}\n{\"a\":null}\n{\"b\":7}\n",
    ),
    (
        "SELECT 5 AS n, 'x' AS s, NULL AS o, MISSING AS m FROM logs WHERE b IS NULL OR a IS NULL",
        "{\"n\":5,\"s\":\"x\",\"o\":null}\n",
    ),
    (
        "SELECT NULL AS n, TRUE AS t, -5 AS i, `1970-01-01T00:00:00Z` AS z, 'q\"' AS s FROM logs WHERE a IS MISSING",
        "{\"n\":null,\"t\":true,\"i\":-5,\"z\":\"1970-01-01T00:00:00Z\",\"s\":\"q\\\"\"}\n",
    ),
    ("SELECT * FROM logs WHERE FALSE", ""),
    ("SELECT * FROM logs WHERE NULL", ""),
    ("SELECT a FROM logs WHERE a", ""),
    ("SELECT * FROM logs WHERE NOT (a = 1)", ""),
    (
        "SELECT CASE WHEN a = 1 THEN 10 WHEN a IS NOT MISSING THEN 20 END AS c FROM logs",
        "{\"c\":10}\n{\"c\":20}\n{\"c\":null}\n",
    ),
    ("SELECT b + 1 AS d FROM logs", "{}\n{}\n{\"d\":8}\n"),
    (
        "SELECT -7 / 2 AS q, -7 % 2 AS r, 1 / 0 AS z FROM logs WHERE a = 1",
        "{\"q\":-3,\"r\":-1}\n",
    ),
    (
        "SELECT * FROM logs LIMIT 2",
        "{\"a\":1,\"b\":\"x\"}\n{\"a\":null}\n",
    ),
    ("SELECT a FROM logs LIMIT 1 OFFSET 1", "{\"a\":null}\n"),
    ("SELECT a FROM logs LIMIT 0", ""),
    ("SELECT a FROM logs OFFSET 2", "{}\n"),
];

#[test]
fn queries_over_three_rows(rt: HostRuntime) {
    for (sql, lines) in &ANSWERS {
        assert!(rt;
            ends(
                &rt,
                &["query", sql, "rows"],
                STEADY,
                (0, lines.as_bytes(), "")
            ),
            "{sql}"
        );
    }
}

const LISTED: &str = "m0 = all\nr0 = root m0\nr1 = field m0 r0 \"a\"\nkeep m0\nout \"a\" r1\n";

// Words that ask for a listing, and what the call ends with.
static EXPLAINED: [(&[&str], u8, &str, &str); 8] = [
    (&["explain", "SELECT a FROM logs"], 0, LISTED, ""),
    (
        &["explain", "SELECT * FROM logs"],
        0,
        "m0 = all\nr0 = root m0\nkeep m0\nstar\n",
        "",
    ),
    (
        &["explain", "SELECT FROM logs"],
        3,
        "",
        "snel: query: not a query\n",
    ),
    (
        &["explain", "SELECT a FROM logs ORDER BY b"],
        0,
        "m0 = all\nr0 = root m0\nr1 = field m0 r0 \"a\"\nr2 = field m0 r0 \"b\"\nkeep m0\nout \"a\" r1\nsort r2\n",
        "",
    ),
    (&["explain"], 2, "", "snel: words not understood\n"),
    (&["explain", ""], 2, "", "snel: words not understood\n"),
    (
        &["explain", "--stats"],
        2,
        "",
        "snel: words not understood\n",
    ),
    (
        &["explain", "SELECT a FROM logs", "rows"],
        2,
        "",
        "snel: words not understood\n",
    ),
];

#[test]
fn queries_are_explained(rt: HostRuntime) {
    for (words, status, out, err) in &EXPLAINED {
        assert!(rt;
            ends(&rt, words, STEADY, (*status, out.as_bytes(), err)),
            "{err}"
        );
    }
}

#[test]
fn the_put_of_a_listing_may_fail(rt: HostRuntime) {
    for (keeps, length) in [(0u32, 0usize), (9, 9), (61, 61), (99, 62)] {
        let written = LISTED.as_bytes().get(..length).unwrap_or(b"");
        let failing: (&[u32], &[(u32, u32)], &[(u32, u32)]) = (&[], &[(1, keeps)], &[]);
        let wanted = (9, written, "snel: write failed\n");
        assert!(rt;
            ends(&rt, &["explain", "SELECT a FROM logs"], failing, wanted),
            "{keeps}"
        );
    }
}

// The row {"a":[[1],{"a":2}],"b":"y"}.
const NESTED: &[u8] = b"\xdc\x8a\xb7\xb2\x21\x01\xd3\x8a\x21\x02\x8b\x81\x79";

// The row {"a":[1,true,null]}.
const ITEMS: &[u8] = b"\xd6\x8a\xb4\x21\x01\x11\x0f";

// The row {"a":1,"b":"x"}.
const ONE_AND_X: &[u8] = b"\xd6\x8a\x21\x01\x8b\x81\x78";

// `a` is the last microsecond of February 2024, the last one before 1970, and the text "aé".
const LEAP_DAY: &[u8] = b"\xde\x8e\x8a\x6c\x80\x0f\xe8\x82\x9d\x97\xbb\xbb\xc6\x0f\x42\x3f";

const BEFORE_1970: &[u8] = b"\xde\x8e\x8a\x6c\x80\x0f\xb1\x8c\x9f\x97\xbb\xbb\xc6\x0f\x42\x3f";

const ACCENTED: &[u8] = b"\xd5\x8a\x83a\xc3\xa9";

// A row whose names are `a` and `b`, a query over it, and its line.
static FUNCTIONS: [(&[u8], &str, &str); 8] = [
    (
        ONE_AND_X,
        "SELECT a + 9223372036854775807 AS z, a - 9223372036854775807 AS y FROM logs",
        "{\"y\":-9223372036854775806}\n",
    ),
    (
        ONE_AND_X,
        "SELECT CAST('-12' AS INTEGER) AS i, CAST(b AS INTEGER) AS j, CAST(0 AS BOOLEAN) AS t FROM logs",
        "{\"i\":-12,\"t\":false}\n",
    ),
    (
        ONE_AND_X,
        "SELECT 'abc' LIKE '%b%' AS p, 'abc' LIKE '%b' AS q, CHAR_LENGTH('aé') AS n, CONTAINS('abc', '') AS c FROM logs",
        "{\"p\":true,\"q\":false,\"n\":2,\"c\":true}\n",
    ),
    (
        ACCENTED,
        "SELECT a LIKE 'a_' AS p, a LIKE 'a__' AS q, a ILIKE 'AÉ' AS r FROM logs",
        "{\"p\":true,\"q\":false,\"r\":false}\n",
    ),
    (
        LEAP_DAY,
        "SELECT DATE_TRUNC(MONTH, a) AS m FROM logs",
        "{\"m\":\"2024-02-01T00:00:00Z\"}\n",
    ),
    (
        BEFORE_1970,
        "SELECT DATE_TRUNC(DAY, a) AS m FROM logs",
        "{\"m\":\"1969-12-31T00:00:00Z\"}\n",
    ),
    (
        LEAP_DAY,
        "SELECT DATE_TRUNC(WEEK, a) AS w, TO_UNIX_EPOCH(a) AS e, EXTRACT(MICROSECOND FROM a) AS m, DATE_ADD(DAY, 1, a) AS d FROM logs",
        "{\"w\":\"2024-02-26T00:00:00Z\",\"e\":1709251199,\"m\":999999,\"d\":\"2024-03-01T23:59:59.999999Z\"}\n",
    ),
    (
        BEFORE_1970,
        "SELECT TO_UNIX_EPOCH(a) AS e, TO_UNIX_MICRO(a) AS m, EXTRACT(QUARTER FROM a) AS q FROM logs",
        "{\"e\":-1,\"m\":-1,\"q\":4}\n",
    ),
];

#[test]
fn functions_have_their_values(rt: HostRuntime) -> Result<(), Fail> {
    for (row, sql, line) in &FUNCTIONS {
        let bytes = file_of(rt.alloc(), OF_A_AND_B, &[row])?;
        assert!(rt;
            ends_on(&rt, sql, &bytes, (0, line.as_bytes(), "")),
            "{sql}"
        );
    }
    Ok(())
}

// A table, its row, a query over that row, and its line. Items behind the last are MISSING.
static PATHS: [(&[u8], &[u8], &str, &str); 5] = [
    (
        OF_A_AND_B,
        NESTED,
        "SELECT a[0][0] AS x, a[1].a AS y, a[2] AS z, a.b AS w FROM t",
        "{\"x\":1,\"y\":2}\n",
    ),
    (
        OF_A_AND_B,
        NESTED,
        "SELECT a[1] AS x, a[0] AS y, b FROM t",
        "{\"x\":{\"a\":2},\"y\":[1],\"b\":\"y\"}\n",
    ),
    (
        OF_A_AND_B,
        NESTED,
        "SELECT b.a AS x, b[0] AS y FROM t",
        "{}\n",
    ),
    (OF_A_AND_B, NESTED, "SELECT a[0] FROM t", "{\"_1\":[1]}\n"),
    (
        OF_A,
        ITEMS,
        "SELECT a[0] AS f, a[3] AS g FROM logs",
        "{\"f\":1}\n",
    ),
];

#[test]
fn paths_go_into_lists_and_structs(rt: HostRuntime) -> Result<(), Fail> {
    for (table, row, sql, line) in &PATHS {
        let bytes = file_of(rt.alloc(), table, &[row])?;
        assert!(rt;
            ends_on(&rt, sql, &bytes, (0, line.as_bytes(), "")),
            "{sql}"
        );
    }
    Ok(())
}

// Twenty rows lie in two chunks: {"a":1} and {} by turns.
static BY_TURNS: [&[u8]; 20] = [
    b"\xd3\x8a\x21\x01",
    b"\xd0",
    b"\xd3\x8a\x21\x01",
    b"\xd0",
    b"\xd3\x8a\x21\x01",
    b"\xd0",
    b"\xd3\x8a\x21\x01",
    b"\xd0",
    b"\xd3\x8a\x21\x01",
    b"\xd0",
    b"\xd3\x8a\x21\x01",
    b"\xd0",
    b"\xd3\x8a\x21\x01",
    b"\xd0",
    b"\xd3\x8a\x21\x01",
    b"\xd0",
    b"\xd3\x8a\x21\x01",
    b"\xd0",
    b"\xd3\x8a\x21\x01",
    b"\xd0",
];

// The rows {"k":0} to {"k":16} lie in two chunks.
const OF_K: &[u8] = b"\xe0\x01\x00\xea\xe7\x81\x83\xd4\x87\xb2\x81\x6b";

static SEVENTEEN: [&[u8]; 17] = [
    b"\xd2\x8a\x20",
    b"\xd3\x8a\x21\x01",
    b"\xd3\x8a\x21\x02",
    b"\xd3\x8a\x21\x03",
    b"\xd3\x8a\x21\x04",
    b"\xd3\x8a\x21\x05",
    b"\xd3\x8a\x21\x06",
    b"\xd3\x8a\x21\x07",
    b"\xd3\x8a\x21\x08",
    b"\xd3\x8a\x21\x09",
    b"\xd3\x8a\x21\x0a",
    b"\xd3\x8a\x21\x0b",
    b"\xd3\x8a\x21\x0c",
    b"\xd3\x8a\x21\x0d",
    b"\xd3\x8a\x21\x0e",
    b"\xd3\x8a\x21\x0f",
    b"\xd3\x8a\x21\x10",
];

#[test]
fn a_row_of_each_of_two_chunks_passes(rt: HostRuntime) -> Result<(), Fail> {
    let bytes = file_of(rt.alloc(), OF_K, &SEVENTEEN)?;
    let sql = "SELECT * FROM logs WHERE k >= 15";
    assert!(rt; ends_on(&rt, sql, &bytes, (0, b"{\"k\":15}\n{\"k\":16}\n", "")));
    Ok(())
}

static TURNS: [(&str, &str); 2] = [
    (
        "SELECT a FROM t WHERE a IS NOT MISSING",
        "{\"a\":1}\n{\"a\":1}\n{\"a\":1}\n{\"a\":1}\n{\"a\":1}\n{\"a\":1}\n{\"a\":1}\n{\"a\":1}\n{\"a\":1}\n{\"a\":1}\n",
    ),
    (
        "SELECT * FROM t WHERE a IS MISSING",
        "{}\n{}\n{}\n{}\n{}\n{}\n{}\n{}\n{}\n{}\n",
    ),
];

#[test]
fn rows_of_two_chunks_are_answered(rt: HostRuntime) -> Result<(), Fail> {
    let bytes = file_of(rt.alloc(), OF_A, &BY_TURNS)?;
    for (sql, lines) in &TURNS {
        assert!(rt;
            ends_on(&rt, sql, &bytes, (0, lines.as_bytes(), "")),
            "{sql}"
        );
    }
    Ok(())
}
