use crate::printed::prints;
use crate::spelling::{Parts, spell};
use std::alloc::Global;

// Whether a text is a query, which is printed so and, read again, printed so again.
fn is_printed(alloc: Global, text: &str, wanted: &str) -> bool {
    prints(alloc, text, wanted) && prints(alloc, wanted, wanted)
}

// Whether the text of these parts is a query, which is printed as the other.
fn are_printed(alloc: Global, parts: &Parts<'_>, wanted: &Parts<'_>, times: u32) -> bool {
    let Ok(text) = spell(alloc, parts, times) else {
        return false
    };
    match spell(alloc, wanted, times) {
        Ok(wanted) => prints(alloc, text.as_str(), wanted.as_str()),
        Err(_) => false,
    }
}

// Expressions, and how they are printed in a query over t.
static EXPRESSIONS: [(&str, &str); 63] = [
    ("null", "NULL"),
    ("missing", "MISSING"),
    ("true", "TRUE"),
    ("false", "FALSE"),
    ("0", "0"),
    ("9223372036854775807", "9223372036854775807"),
    ("''", "''"),
    ("'it''s'", "'it''s'"),
    ("'''\"é`\n'''''", "'''\"é`\n'''''"),
    ("`0001-01-01 00:00:00z`", "`0001-01-01T00:00:00Z`"),
    (
        "`2024-02-29t01:00:00.0000079+01:00`",
        "`2024-02-29T00:00:00.000007Z`",
    ),
    ("a+1", "(\"t\".\"a\" + 1)"),
    ("a-1", "(\"t\".\"a\" - 1)"),
    ("a*1", "(\"t\".\"a\" * 1)"),
    ("a/1", "(\"t\".\"a\" / 1)"),
    ("a%1", "(\"t\".\"a\" % 1)"),
    ("a=1", "(\"t\".\"a\" = 1)"),
    ("a!=1", "(\"t\".\"a\" <> 1)"),
    ("a<1", "(\"t\".\"a\" < 1)"),
    ("a<=1", "(\"t\".\"a\" <= 1)"),
    ("a>1", "(\"t\".\"a\" > 1)"),
    ("a>=1", "(\"t\".\"a\" >= 1)"),
    ("a and 1", "(\"t\".\"a\" AND 1)"),
    ("a or 1", "(\"t\".\"a\" OR 1)"),
    ("-a", "(-\"t\".\"a\")"),
    ("not a", "(NOT \"t\".\"a\")"),
    ("a is null", "(\"t\".\"a\" IS NULL)"),
    ("a is missing", "(\"t\".\"a\" IS MISSING)"),
    ("a is true", "(\"t\".\"a\" IS TRUE)"),
    ("a is false", "(\"t\".\"a\" IS FALSE)"),
    ("cast(a as integer)", "CAST(\"t\".\"a\" AS INTEGER)"),
    ("cast(a as boolean)", "CAST(\"t\".\"a\" AS BOOLEAN)"),
    ("date_trunc(month, a)", "DATE_TRUNC(MONTH, \"t\".\"a\")"),
    ("extract(year from a)", "EXTRACT(YEAR FROM \"t\".\"a\")"),
    ("count(*)", "COUNT(*)"),
    ("a like 'x%'''", "(\"t\".\"a\" LIKE 'x%''')"),
    ("a ilike 'x%'''", "(\"t\".\"a\" ILIKE 'x%''')"),
    ("starts_with(a, 'x%''')", "STARTS_WITH(\"t\".\"a\", 'x%''')"),
    ("ends_with(a, 'x%''')", "ENDS_WITH(\"t\".\"a\", 'x%''')"),
    ("contains(a, 'x%''')", "CONTAINS(\"t\".\"a\", 'x%''')"),
    ("count(a)", "COUNT(\"t\".\"a\")"),
    ("sum(a)", "SUM(\"t\".\"a\")"),
    ("min(a)", "MIN(\"t\".\"a\")"),
    ("max(a)", "MAX(\"t\".\"a\")"),
    ("avg(a)", "AVG(\"t\".\"a\")"),
    ("earliest(a)", "EARLIEST(\"t\".\"a\")"),
    ("latest(a)", "LATEST(\"t\".\"a\")"),
    ("bool_and(a)", "BOOL_AND(\"t\".\"a\")"),
    ("bool_or(a)", "BOOL_OR(\"t\".\"a\")"),
    ("t.a[3].\"b\"\"c\"", "\"t\".\"a\"[3].\"b\"\"c\""),
    ("a in (a, 1, 2)", "(\"t\".\"a\" IN (\"t\".\"a\", 1, 2))"),
    ("coalesce(a, 1, 2)", "COALESCE(\"t\".\"a\", 1, 2)"),
    ("char_length(a)", "CHAR_LENGTH(\"t\".\"a\")"),
    ("to_unix_epoch(a)", "TO_UNIX_EPOCH(\"t\".\"a\")"),
    ("to_unix_micro(a)", "TO_UNIX_MICRO(\"t\".\"a\")"),
    ("nullif(a, 1)", "NULLIF(\"t\".\"a\", 1)"),
    (
        "a between 1 and (a = 2)",
        "(\"t\".\"a\" BETWEEN 1 AND (\"t\".\"a\" = 2))",
    ),
    ("date_add(day, -1, a)", "DATE_ADD(DAY, (-1), \"t\".\"a\")"),
    (
        "case when a = 1 then 1 when a = 2 then 2 else a end",
        "(CASE WHEN (\"t\".\"a\" = 1) THEN 1 WHEN (\"t\".\"a\" = 2) THEN 2 ELSE \"t\".\"a\" END)",
    ),
    (
        "case when a then 1 end",
        "(CASE WHEN \"t\".\"a\" THEN 1 ELSE NULL END)",
    ),
    ("\"a\"\"'\" = 'a\"'''", "(\"t\".\"a\"\"'\" = 'a\"''')"),
    ("7", "7"),
    ("a - 1 - 2", "((\"t\".\"a\" - 1) - 2)"),
];

// Whether an expression is printed so in WHERE and, read again, printed so again.
fn is_printed_in_where(alloc: Global, expression: &str, wanted: &str) -> bool {
    let parts = ["select * from t where ", expression, "", "", ""];
    let printed = ["SELECT * FROM \"t\" WHERE ", wanted, "", "", ""];
    are_printed(alloc, &parts, &printed, 1) && are_printed(alloc, &printed, &printed, 1)
}

#[test]
fn expressions_are_printed_in_one_way(rt: HostRuntime) {
    for (expression, wanted) in &EXPRESSIONS {
        assert!(rt;
            is_printed_in_where(rt.alloc(), expression, wanted),
            "{expression}"
        );
    }
}

// Queries, and how they are printed.
static QUERIES: [(&str, &str); 2] = [
    (
        "select a from t where not a=1",
        "SELECT \"t\".\"a\" FROM \"t\" WHERE (NOT (\"t\".\"a\" = 1))",
    ),
    (
        "SELECT a x, count(*) FROM logs t WHERE a GROUP BY t.a, 1 HAVING NOT a ORDER BY a ASC, 1 DESC LIMIT 5 OFFSET 2",
        "SELECT \"t\".\"a\" AS \"x\", COUNT(*) FROM \"logs\" AS \"t\" WHERE \"t\".\"a\" GROUP BY \"t\".\"a\", 1 HAVING (NOT \"t\".\"a\") ORDER BY \"t\".\"a\", 1 DESC LIMIT 5 OFFSET 2",
    ),
];

#[test]
fn printed_queries_are_read_and_printed_again(rt: HostRuntime) {
    for (text, wanted) in &QUERIES {
        assert!(rt; is_printed(rt.alloc(), text, wanted), "{text}");
    }
}

// Chains of 2,000 levels, which fit the stack.
static CHAINS: [(Parts<'static>, Parts<'static>); 2] = [
    (
        ["SELECT * FROM t WHERE ", "NOT ", "a", "", ""],
        [
            "SELECT * FROM \"t\" WHERE ",
            "(NOT ",
            "\"t\".\"a\"",
            ")",
            "",
        ],
    ),
    (
        ["SELECT * FROM t WHERE ", "- ", "a", "", ""],
        ["SELECT * FROM \"t\" WHERE ", "(-", "\"t\".\"a\"", ")", ""],
    ),
];

#[test]
fn deep_trees_fit_the_stack(rt: HostRuntime) {
    for (parts, wanted) in &CHAINS {
        assert!(rt; are_printed(rt.alloc(), parts, wanted, 2_000));
    }
}
