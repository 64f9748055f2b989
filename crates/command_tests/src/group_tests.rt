use command_calls::{OF_A, STEADY, ends, ends_on, file_of};
use std::random::RandomSource;
use std::test::Fail;
use std::thread::Threads;

const BY_A: &str = "SELECT a, COUNT(*) AS n FROM logs GROUP BY a ORDER BY a";

const IN_ANY_ORDER: &str = "SELECT a, COUNT(*) AS n FROM logs GROUP BY a";

const GROUPS_OF_A: &str = "{\"n\":1}\n{\"a\":null,\"n\":1}\n{\"a\":1,\"n\":1}\n";

// Words of calls over the rows {"a":1,"b":"x"}, {"a":null} and {"b":7}, which calls of the files fail, and what the call ends
// with. NULL and MISSING are keys apart.
static GROUPED: [(&[&str], &[u32], u8, &str, &str); 17] = [
    (
        &[
            "query",
            "SELECT COUNT(*) AS n, COUNT(a) AS c, SUM(b) AS s FROM logs",
            "rows",
        ],
        &[],
        0,
        "{\"n\":3,\"c\":1,\"s\":7}\n",
        "",
    ),
    (&["query", BY_A, "rows"], &[], 0, GROUPS_OF_A, ""),
    (
        &["query", "--workers", "8", BY_A, "rows"],
        &[],
        0,
        GROUPS_OF_A,
        "",
    ),
    (
        &[
            "query",
            "SELECT a, COUNT(*) AS n FROM logs GROUP BY a ORDER BY a LIMIT 1 OFFSET 1",
            "rows",
        ],
        &[],
        0,
        "{\"a\":null,\"n\":1}\n",
        "",
    ),
    (
        &[
            "query",
            "SELECT COUNT(*) AS n, SUM(a) AS s FROM logs",
            "none",
        ],
        &[],
        0,
        "{\"n\":0,\"s\":null}\n",
        "",
    ),
    (&["query", BY_A, "none"], &[], 0, "", ""),
    (
        &[
            "query",
            "SELECT COUNT(*) + 1 AS n, AVG(b) AS v, MIN(c) AS m FROM logs",
            "rows",
        ],
        &[],
        0,
        "{\"n\":4,\"v\":7,\"m\":null}\n",
        "",
    ),
    (
        &[
            "query",
            "SELECT a, COUNT(*) AS n FROM logs GROUP BY a HAVING a = 1",
            "rows",
        ],
        &[],
        0,
        "{\"a\":1,\"n\":1}\n",
        "",
    ),
    (
        &[
            "query",
            "SELECT a, COUNT(*) AS n FROM logs GROUP BY a HAVING NULL",
            "rows",
        ],
        &[],
        0,
        "",
        "",
    ),
    (
        &["query", "--groups", "3", BY_A, "rows"],
        &[],
        0,
        GROUPS_OF_A,
        "",
    ),
    (
        &["query", "--groups", "2", BY_A, "rows"],
        &[],
        7,
        "",
        "snel: more than 2 groups\n",
    ),
    (
        &["query", "--groups", "2", IN_ANY_ORDER, "rows"],
        &[],
        7,
        "",
        "snel: more than 2 groups\n",
    ),
    // A bad block counts before the groups, wherever it stands.
    (
        &["query", BY_A, "rows", "damaged"],
        &[],
        6,
        "",
        "snel: damaged: block 0 is damaged\n",
    ),
    (
        &["query", "--groups", "1", BY_A, "rows", "damaged"],
        &[],
        6,
        "",
        "snel: damaged: block 0 is damaged\n",
    ),
    // The block is read by the fourth call.
    (
        &["query", BY_A, "rows"],
        &[4],
        8,
        "",
        "snel: files: read failed\n",
    ),
    (
        &["query", "--groups", "1", BY_A, "rows"],
        &[4],
        8,
        "",
        "snel: files: read failed\n",
    ),
    (&["query", BY_A, "rows"], &[5], 0, GROUPS_OF_A, ""),
];

#[test]
fn rows_are_grouped(rt: HostRuntime) {
    for (words, failing, status, out, err) in &GROUPED {
        assert!(rt;
            ends(
                &rt,
                words,
                (failing, &[], &[]),
                (*status, out.as_bytes(), err)
            ),
            "{out}{err}"
        );
    }
}

// The lines of the groups of `a` in each order.
static ORDERS: [&str; 6] = [
    "{\"n\":1}\n{\"a\":null,\"n\":1}\n{\"a\":1,\"n\":1}\n",
    "{\"n\":1}\n{\"a\":1,\"n\":1}\n{\"a\":null,\"n\":1}\n",
    "{\"a\":null,\"n\":1}\n{\"n\":1}\n{\"a\":1,\"n\":1}\n",
    "{\"a\":null,\"n\":1}\n{\"a\":1,\"n\":1}\n{\"n\":1}\n",
    "{\"a\":1,\"n\":1}\n{\"n\":1}\n{\"a\":null,\"n\":1}\n",
    "{\"a\":1,\"n\":1}\n{\"a\":null,\"n\":1}\n{\"n\":1}\n",
];

#[test]
fn groups_come_in_any_order(rt: HostRuntime) {
    let words = ["query", "--groups", "3", IN_ANY_ORDER, "rows"];
    assert!(rt; ends_in_some_order(&rt, &words), "another text");
}

fn ends_in_some_order<R: Threads + Sync + RandomSource + AllocGlobal>(
    rt: &R,
    words: &[&str],
) -> bool {
    for text in &ORDERS {
        if ends(rt, words, STEADY, (0, text.as_bytes(), "")) {
            return true;
        }
    }
    false
}

// The second line can't be put.
#[test]
fn the_put_of_a_group_may_fail(rt: HostRuntime) {
    let failing: (&[u32], &[(u32, u32)], &[(u32, u32)]) = (&[], &[(2, 0)], &[]);
    let wanted: (u8, &[u8], &str) = (9, b"{\"n\":1}\n", "snel: write failed\n");
    assert!(rt;
        ends(&rt, &["query", BY_A, "rows"], failing, wanted),
        "not cut"
    );
}

// The rows {"a":-9223372036854775808}, {"a":[1,true,null]} and {"a":[1]}.
const LEAST: &[u8] = b"\xda\x8a\x38\x80\x00\x00\x00\x00\x00\x00\x00";

const THREE_ITEMS: &[u8] = b"\xd6\x8a\xb4\x21\x01\x11\x0f";

const ONE_ITEM: &[u8] = b"\xd4\x8a\xb2\x21\x01";

// Rows whose name is `a`, a query over them, and its lines.
static VALUES: [(&[&[u8]], &str, &str); 2] = [
    (
        &[LEAST, LEAST],
        "SELECT SUM(a) AS s FROM logs",
        "{\"s\":-18446744073709551616}\n",
    ),
    (
        &[THREE_ITEMS, ONE_ITEM, THREE_ITEMS],
        "SELECT a, COUNT(*) AS n FROM logs GROUP BY a ORDER BY n",
        "{\"a\":[1],\"n\":1}\n{\"a\":[1,true,null],\"n\":2}\n",
    ),
];

#[test]
fn groups_have_their_values(rt: HostRuntime) -> Result<(), Fail> {
    for (rows, sql, lines) in &VALUES {
        let bytes = file_of(rt.alloc(), OF_A, rows)?;
        assert!(rt;
            ends_on(&rt, sql, &bytes, (0, lines.as_bytes(), "")),
            "{sql}"
        );
    }
    Ok(())
}
