use crate::spelling::{Parts, spell};
use plan_lower::{listing, lower};
use query_check::{Checked, check};
use snel_values::Bytes;
use sql_reader::read;
use std::alloc::Global;

// The listing of the job of an accepted query.
fn job_listing(alloc: Global, checked: &Checked) -> Option<Bytes> {
    match lower(alloc, checked) {
        Ok(job) => {
            let made = listing(alloc, &job).ok();
            drop(job);
            made
        }
        Err(_) => None,
    }
}

// The same of a text's query, if it is accepted.
fn text_listing(alloc: Global, text: &str) -> Option<Bytes> {
    match read(alloc, text) {
        Ok(query) => match check(alloc, query) {
            Ok(checked) => {
                let made = job_listing(alloc, &checked);
                drop(checked);
                made
            }
            Err(_) => None,
        },
        Err(_) => None,
    }
}

// Whether the listing of a text's query ends so, and begins there where the whole is asked for.
fn is_listed(alloc: Global, text: &str, end: &str, whole: bool) -> bool {
    match text_listing(alloc, text) {
        Some(made) => {
            made.as_slice().ends_with(end.as_bytes()) && (!whole || made.len() == end.len())
        }
        None => false,
    }
}

// Queries and their listings.
static LISTINGS: [(&str, &str); 23] = [
    (
        "SELECT a FROM t ORDER BY b DESC, 1",
        "m0 = all
r0 = root m0
r1 = field m0 r0 \"a\"
r2 = field m0 r0 \"b\"
r3 = field m0 r0 \"a\"
keep m0
out \"a\" r1
sort r2
sort r3
",
    ),
    (
        "SELECT a, COUNT(*) AS n FROM t WHERE b GROUP BY a HAVING SUM(c) > 1 ORDER BY n",
        "m0 = all
r0 = root m0
r1 = field m0 r0 \"b\"
m1 = true m0 r1
r2 = field m1 r0 \"a\"
r3 = field m1 r0 \"c\"
keep m1
group r2
agg countall
agg sum r3
",
    ),
    (
        "SELECT 1 FROM t HAVING TRUE",
        "m0 = all\nr0 = root m0\nkeep m0\n",
    ),
    (
        "SELECT a FROM t",
        "m0 = all\nr0 = root m0\nr1 = field m0 r0 \"a\"\nkeep m0\nout \"a\" r1\n",
    ),
    ("SELECT * FROM t", "m0 = all\nr0 = root m0\nkeep m0\nstar\n"),
    (
        "SELECT a, b.c[1] AS x FROM t WHERE a IS NOT MISSING AND NOT (b IS NULL)",
        "m0 = all
r0 = root m0
r1 = field m0 r0 \"a\"
r2 = is m0 missing r1
r3 = not m0 r2
r4 = field m0 r0 \"b\"
r5 = is m0 null r4
r6 = not m0 r5
r7 = and m0 r3 r6
m1 = true m0 r7
r8 = field m1 r0 \"a\"
r9 = field m1 r0 \"b\"
r10 = field m1 r9 \"c\"
r11 = at m1 r10 1
keep m1
out \"a\" r8
out \"x\" r11
",
    ),
    (
        "SELECT * FROM t WHERE a",
        "m0 = all\nr0 = root m0\nr1 = field m0 r0 \"a\"\nm1 = true m0 r1\nkeep m1\nstar\n",
    ),
    (
        "SELECT \"a\"\"b\" FROM t",
        "m0 = all\nr0 = root m0\nr1 = field m0 r0 \"a\"\"b\"\nkeep m0\nout \"a\"\"b\" r1\n",
    ),
    (
        "SELECT a[3] FROM t",
        "m0 = all\nr0 = root m0\nr1 = field m0 r0 \"a\"\nr2 = at m0 r1 3\nkeep m0\nout \"_1\" r2\n",
    ),
    (
        "SELECT NOT TRUE FROM t",
        "m0 = all\nr0 = root m0\nr1 = const m0 TRUE\nr2 = not m0 r1\nkeep m0\nout \"_1\" r2\n",
    ),
    (
        "SELECT 1 IS NULL FROM t",
        "m0 = all\nr0 = root m0\nr1 = const m0 1\nr2 = is m0 null r1\nkeep m0\nout \"_1\" r2\n",
    ),
    (
        "SELECT 1 IS MISSING FROM t",
        "m0 = all\nr0 = root m0\nr1 = const m0 1\nr2 = is m0 missing r1\nkeep m0\nout \"_1\" r2\n",
    ),
    (
        "SELECT 1 IS TRUE FROM t",
        "m0 = all\nr0 = root m0\nr1 = const m0 1\nr2 = is m0 true r1\nkeep m0\nout \"_1\" r2\n",
    ),
    (
        "SELECT 1 IS FALSE FROM t",
        "m0 = all\nr0 = root m0\nr1 = const m0 1\nr2 = is m0 false r1\nkeep m0\nout \"_1\" r2\n",
    ),
    (
        "SELECT TRUE AND FALSE FROM t",
        "m0 = all\nr0 = root m0\nr1 = const m0 TRUE\nr2 = const m0 FALSE\nr3 = and m0 r1 r2\nkeep m0\nout \"_1\" r3\n",
    ),
    (
        "SELECT TRUE OR FALSE FROM t",
        "m0 = all\nr0 = root m0\nr1 = const m0 TRUE\nr2 = const m0 FALSE\nr3 = or m0 r1 r2\nkeep m0\nout \"_1\" r3\n",
    ),
    (
        "SELECT NULL FROM t",
        "m0 = all\nr0 = root m0\nr1 = const m0 NULL\nkeep m0\nout \"_1\" r1\n",
    ),
    (
        "SELECT MISSING FROM t",
        "m0 = all\nr0 = root m0\nr1 = const m0 MISSING\nkeep m0\nout \"_1\" r1\n",
    ),
    (
        "SELECT TRUE FROM t",
        "m0 = all\nr0 = root m0\nr1 = const m0 TRUE\nkeep m0\nout \"_1\" r1\n",
    ),
    (
        "SELECT FALSE FROM t",
        "m0 = all\nr0 = root m0\nr1 = const m0 FALSE\nkeep m0\nout \"_1\" r1\n",
    ),
    (
        "SELECT 17 FROM t",
        "m0 = all\nr0 = root m0\nr1 = const m0 17\nkeep m0\nout \"_1\" r1\n",
    ),
    (
        "SELECT `1970-01-01 00:00:00z` FROM t",
        "m0 = all\nr0 = root m0\nr1 = const m0 `1970-01-01T00:00:00Z`\nkeep m0\nout \"_1\" r1\n",
    ),
    (
        "SELECT 'it''s' FROM t",
        "m0 = all\nr0 = root m0\nr1 = const m0 'it''s'\nkeep m0\nout \"_1\" r1\n",
    ),
];

#[test]
fn queries_have_their_listings(rt: HostRuntime) {
    for (text, wanted) in &LISTINGS {
        assert!(rt; is_listed(rt.alloc(), text, wanted, true), "{text}");
    }
}

// Outputs, and the instructions behind those of the live lanes and the row. The register of the output is the last one.
static INSTRUCTIONS: [(&str, &str); 34] = [
    ("-a", "r1 = field m0 r0 \"a\"\nr2 = neg m0 r1"),
    (
        "a + 1",
        "r1 = field m0 r0 \"a\"\nr2 = const m0 1\nr3 = add m0 r1 r2",
    ),
    (
        "1 - a",
        "r1 = const m0 1\nr2 = field m0 r0 \"a\"\nr3 = sub m0 r1 r2",
    ),
    (
        "1 * 2",
        "r1 = const m0 1\nr2 = const m0 2\nr3 = mul m0 r1 r2",
    ),
    (
        "1 / 2",
        "r1 = const m0 1\nr2 = const m0 2\nr3 = div m0 r1 r2",
    ),
    (
        "1 % 2",
        "r1 = const m0 1\nr2 = const m0 2\nr3 = rem m0 r1 r2",
    ),
    (
        "1 = 2",
        "r1 = const m0 1\nr2 = const m0 2\nr3 = eq m0 r1 r2",
    ),
    (
        "1 <> 2",
        "r1 = const m0 1\nr2 = const m0 2\nr3 = ne m0 r1 r2",
    ),
    (
        "1 != 2",
        "r1 = const m0 1\nr2 = const m0 2\nr3 = ne m0 r1 r2",
    ),
    (
        "1 < 2",
        "r1 = const m0 1\nr2 = const m0 2\nr3 = lt m0 r1 r2",
    ),
    (
        "1 <= 2",
        "r1 = const m0 1\nr2 = const m0 2\nr3 = le m0 r1 r2",
    ),
    (
        "1 > 2",
        "r1 = const m0 1\nr2 = const m0 2\nr3 = gt m0 r1 r2",
    ),
    (
        "1 >= 2",
        "r1 = const m0 1\nr2 = const m0 2\nr3 = ge m0 r1 r2",
    ),
    (
        "a BETWEEN 1 AND 2",
        "r1 = field m0 r0 \"a\"
r2 = const m0 1
r3 = ge m0 r1 r2
r4 = const m0 2
r5 = le m0 r1 r4
r6 = and m0 r3 r5",
    ),
    (
        "a IN (7)",
        "r1 = field m0 r0 \"a\"\nr2 = const m0 7\nr3 = eq m0 r1 r2",
    ),
    (
        "a IN (1, 2, 3)",
        "r1 = field m0 r0 \"a\"
r2 = const m0 1
r3 = const m0 2
r4 = const m0 3
r5 = eq m0 r1 r2
r6 = eq m0 r1 r3
r7 = or m0 r5 r6
r8 = eq m0 r1 r4
r9 = or m0 r7 r8",
    ),
    (
        "CASE WHEN a THEN 1 WHEN b THEN 2 ELSE 3 END",
        "r1 = field m0 r0 \"a\"
m1 = true m0 r1
r2 = const m1 1
m2 = minus m0 m1
r3 = field m2 r0 \"b\"
m3 = true m2 r3
r4 = const m3 2
r5 = merge m0 m3 r4 r2
m4 = minus m2 m3
r6 = const m4 3
r7 = merge m0 m4 r6 r5",
    ),
    ("COALESCE(a)", "r1 = field m0 r0 \"a\""),
    (
        "COALESCE(a, b, 1)",
        "r1 = field m0 r0 \"a\"
r2 = field m0 r0 \"b\"
r3 = const m0 1
r4 = first m0 r1 r2
r5 = first m0 r4 r3",
    ),
    (
        "NULLIF(a, 1)",
        "r1 = field m0 r0 \"a\"
r2 = const m0 1
r3 = eq m0 r1 r2
m1 = true m0 r3
r4 = const m0 NULL
r5 = merge m0 m1 r4 r1",
    ),
    (
        "CAST(1 AS INTEGER)",
        "r1 = const m0 1\nr2 = cast m0 integer r1",
    ),
    (
        "CAST(1 AS boolean)",
        "r1 = const m0 1\nr2 = cast m0 boolean r1",
    ),
    (
        "'x' LIKE 'it''s%'",
        "r1 = const m0 'x'\nr2 = like m0 r1 'it''s%'",
    ),
    (
        "'x' NOT ILIKE '_'",
        "r1 = const m0 'x'\nr2 = ilike m0 r1 '_'\nr3 = not m0 r2",
    ),
    (
        "STARTS_WITH('x', '')",
        "r1 = const m0 'x'\nr2 = starts m0 r1 ''",
    ),
    (
        "ENDS_WITH('x', 'x')",
        "r1 = const m0 'x'\nr2 = ends m0 r1 'x'",
    ),
    (
        "CONTAINS('x', '%')",
        "r1 = const m0 'x'\nr2 = contains m0 r1 '%'",
    ),
    (
        "CHAR_LENGTH('x')",
        "r1 = const m0 'x'\nr2 = charlength m0 r1",
    ),
    ("TO_UNIX_EPOCH(1)", "r1 = const m0 1\nr2 = unixepoch m0 r1"),
    ("TO_UNIX_MICRO(1)", "r1 = const m0 1\nr2 = unixmicro m0 r1"),
    (
        "DATE_TRUNC(month, 1)",
        "r1 = const m0 1\nr2 = trunc m0 month r1",
    ),
    (
        "EXTRACT(MICROSECOND FROM 1)",
        "r1 = const m0 1\nr2 = extract m0 microsecond r1",
    ),
    (
        "DATE_ADD(DAY, 2, a)",
        "r1 = const m0 2\nr2 = field m0 r0 \"a\"\nr3 = shift m0 day r1 r2",
    ),
    (
        "(a BETWEEN 1 AND 2) IS TRUE",
        "r1 = field m0 r0 \"a\"
r2 = const m0 1
r3 = ge m0 r1 r2
r4 = const m0 2
r5 = le m0 r1 r4
r6 = and m0 r3 r5
r7 = is m0 true r6",
    ),
];

// The register of the last line.
fn last_register(instructions: &str) -> &str {
    let last = instructions.rsplit('\n').next().unwrap_or("");
    last.split(' ').next().unwrap_or("")
}

// Whether an output has these instructions.
fn has_instructions(alloc: Global, output: &str, instructions: &str) -> bool {
    let last = last_register(instructions);
    let (Ok(text), Ok(wanted)) = (
        format!(in alloc; "SELECT {output} AS v FROM t"),
        format!(in alloc; "m0 = all\nr0 = root m0\n{instructions}\nkeep m0\nout \"v\" {last}\n"),
    ) else {
        return false;
    };
    is_listed(alloc, text.as_str(), wanted.as_str(), true)
}

#[test]
fn each_form_has_its_instructions(rt: HostRuntime) {
    for (output, instructions) in &INSTRUCTIONS {
        assert!(rt;
            has_instructions(rt.alloc(), output, instructions),
            "{output}"
        );
    }
}

// Parts of a text, how often those that open and close stand in it, and the end of its listing. An operand of BETWEEN is
// computed once, so that 64 of them, one within the other, are five instructions each.
static DEEP: [(Parts<'static>, u32, &str); 3] = [
    (
        ["SELECT * FROM t WHERE ", "NOT ", "a", "", ""],
        2_000,
        "r2001 = not m0 r2000\nm1 = true m0 r2001\nkeep m1\nstar\n",
    ),
    (
        ["SELECT * FROM t WHERE a", "", "", " + 1", ""],
        1_000,
        "r2001 = add m0 r1999 r2000\nm1 = true m0 r2001\nkeep m1\nstar\n",
    ),
    (
        ["SELECT * FROM t WHERE ", "(", "a", " BETWEEN 0 AND 1)", ""],
        64,
        "r321 = and m0 r318 r320\nm1 = true m0 r321\nkeep m1\nstar\n",
    ),
];

// Whether the text of these parts is listed with this end.
fn is_deep_listed(alloc: Global, parts: &Parts<'_>, times: u32, end: &str) -> bool {
    match spell(alloc, parts, times) {
        Ok(text) => is_listed(alloc, text.as_str(), end, false),
        Err(_) => false,
    }
}

#[test]
fn deep_expressions_have_their_listings(rt: HostRuntime) {
    for (parts, times, end) in &DEEP {
        assert!(rt; is_deep_listed(rt.alloc(), parts, *times, end), "{end}");
    }
}
