ghost use Rattle.std.specs.Prelude.{◌≢◌};

use command_calls::{OF_A, OF_A_AND_B, STEADY, ends, ends_on, file_of, stored, words_of};
use snel_command::snel;
use snel_device::{OpenGate, SteadyFiles, SteadyInput, SteadyOut};
use snel_values::Words;
use std::alloc::Global;
use std::random::RandomSource;
use std::test::Fail;
use std::thread::Threads;

const ALL: &str = "SELECT * FROM logs";

const NO_ROW: &str = "SELECT * FROM logs LIMIT 0";

const LINES: &str = "{\"a\":1,\"b\":\"x\"}\n{\"a\":null}\n{\"b\":7}\n";

const OTHER_WORDS: &str = "snel: words not understood\n";

// Words, which calls of the files fail, and what the call ends with.
static CALLS: [(&[&str], &[u32], u8, &str, &str); 21] = [
    (&["query", ALL, "rows"], &[], 0, LINES, ""),
    (&["query"], &[], 2, "", OTHER_WORDS),
    (&[], &[], 2, "", OTHER_WORDS),
    (
        &["query", "--workers", "0", ALL, "rows"],
        &[],
        2,
        "",
        OTHER_WORDS,
    ),
    (&["query", ALL, "--rows"], &[], 2, "", OTHER_WORDS),
    (&["query", "", "rows"], &[], 2, "", OTHER_WORDS),
    (
        &["query", "SELECT", "absent"],
        &[],
        3,
        "",
        "snel: query: not a query\n",
    ),
    (
        &["query", ALL, "absent"],
        &[1],
        4,
        "",
        "snel: absent: no such file\n",
    ),
    (
        &["query", ALL, "cut"],
        &[],
        5,
        "",
        "snel: cut: not a block file\n",
    ),
    (
        &["query", ALL, "empty"],
        &[],
        5,
        "",
        "snel: empty: not a block file\n",
    ),
    (&["query", ALL, "none"], &[], 0, "", ""),
    (
        &["query", ALL, "damaged"],
        &[],
        6,
        "",
        "snel: damaged: block 0 is damaged\n",
    ),
    // A file's size, tail, index and block are read by one call each.
    (
        &["query", ALL, "rows"],
        &[1],
        8,
        "",
        "snel: files: read failed\n",
    ),
    (
        &["query", ALL, "rows"],
        &[2],
        8,
        "",
        "snel: files: read failed\n",
    ),
    (
        &["query", ALL, "rows"],
        &[3],
        8,
        "",
        "snel: files: read failed\n",
    ),
    (
        &["query", ALL, "rows"],
        &[4],
        8,
        "",
        "snel: files: read failed\n",
    ),
    (&["query", ALL, "rows"], &[5], 0, LINES, ""),
    // No block is read where no row is asked for.
    (&["query", NO_ROW, "rows"], &[4], 0, "", ""),
    (&["query", NO_ROW, "damaged"], &[4], 0, "", ""),
    // Words of a query in any case, over any name.
    (
        &["query", "select * from anything", "rows"],
        &[],
        0,
        LINES,
        "",
    ),
    (
        &[
            "query",
            "SELECT * FROM \"any \"\"thing\" AS t OFFSET 0",
            "rows",
        ],
        &[],
        0,
        LINES,
        "",
    ),
];

#[test]
fn each_status_comes(rt: HostRuntime) {
    for (words, failing, status, out, err) in &CALLS {
        assert!(rt;
            ends(
                &rt,
                words,
                (failing, &[], &[]),
                (*status, out.as_bytes(), err)
            ),
            "{err}"
        );
    }
}

// Texts that are refused, and the line that says why.
static REFUSED: [(&str, &str); 9] = [
    ("SELECT 1.5 FROM logs", "snel: query: bad token at byte 8\n"),
    ("SELECT a--b FROM t", "snel: query: bad token at byte 8\n"),
    (
        "SELECT * FROM a JOIN b",
        "snel: query: refused word at byte 16\n",
    ),
    ("SELECT FROM t", "snel: query: not a query\n"),
    (
        "SELECT a, COUNT(*) FROM logs",
        "snel: query: output 1 is not grouped\n",
    ),
    (
        "SELECT a FROM t WHERE SUM(a) > 1",
        "snel: query: WHERE has a misplaced aggregate\n",
    ),
    (
        "SELECT a AS x, b AS x FROM t",
        "snel: query: output 2 has an earlier name\n",
    ),
    (
        "SELECT a FROM t ORDER BY 2",
        "snel: query: order key 1 has no output\n",
    ),
    (
        "SELECT CAST(COUNT(*) AS BOOLEAN) FROM t",
        "snel: query: output 1 is not allowed over groups\n",
    ),
];

#[test]
fn each_refused_query_says_why(rt: HostRuntime) {
    for (sql, line) in &REFUSED {
        assert!(rt;
            ends(&rt, &["query", sql, "rows"], STEADY, (3, b"", line)),
            "{sql}"
        );
    }
}

#[test]
fn a_long_text_is_refused(rt: HostRuntime) {
    let long = [b' '; 65_537];
    let text = std::str::from_utf8(&long).unwrap_or("");
    assert!(rt;
        ends(
            &rt,
            &["query", text, "rows"],
            STEADY,
            (3, b"", "snel: query: too long\n")
        )
    );
}

// Words, the put to the error output that fails and what it keeps, and what the call ends with.
static CUT_LINES: [(&[&str], (u32, u32), u8, &str); 3] = [
    (&["query"], (1, 0), 2, ""),
    (&["query", ALL, "absent"], (2, 1), 4, "snel: a"),
    (&["query", ALL, "absent"], (3, 0), 4, "snel: absent"),
];

#[test]
fn no_fault_of_the_error_output_changes_a_status(rt: HostRuntime) {
    for (words, failing, status, line) in &CUT_LINES {
        assert!(rt;
            ends(&rt, words, (&[], &[], &[*failing]), (*status, b"", line)),
            "{line}"
        );
    }
}

// Each line is put by one call: the number of the put that fails, how much it keeps, and how much of the lines is then there.
#[test]
fn each_put_may_fail(rt: HostRuntime) {
    let words = ["query", ALL, "rows"];
    for (put, keeps, length) in [
        (1u32, 0u32, 0usize),
        (1, 1, 1),
        (1, 16, 16),
        (1, 99, 16),
        (2, 0, 16),
        (2, 1, 17),
        (3, 0, 27),
        (3, 99, 35),
    ] {
        let written = LINES.as_bytes().get(..length).unwrap_or(b"");
        let wanted = (9, written, "snel: write failed\n");
        assert!(rt;
            ends(&rt, &words, (&[], &[(put, keeps)], &[]), wanted),
            "{put} {keeps}"
        );
    }
    assert!(rt;
        ends(
            &rt,
            &words,
            (&[], &[(4, 0)], &[]),
            (0, LINES.as_bytes(), "")
        )
    );
}

// A table, a row, and what a query over that row ends with.
static KINDS: [(&[u8], &[u8], u8, &str, &str); 6] = [
    (
        OF_A,
        b"\xde\x8e\x8a\x6c\x80\x0f\xe8\x82\x9d\x97\xbb\xbb\xc6\x0f\x42\x3f",
        0,
        "{\"a\":\"2024-02-29T23:59:59.999999Z\"}\n",
        "",
    ),
    (OF_A, b"\xd2\x8a\x2f", 0, "{\"a\":null}\n", ""),
    (
        OF_A,
        b"\xd6\x8a\xb4\x21\x01\x11\x0f",
        0,
        "{\"a\":[1,true,null]}\n",
        "",
    ),
    (
        OF_A,
        b"\xd2\x8a\x40",
        6,
        "",
        "snel: rows: block 0 is damaged\n",
    ),
    (OF_A_AND_B, b"\xd3\x8a\x71\x0b", 0, "{\"a\":\"b\"}\n", ""),
    (
        OF_A_AND_B,
        b"\xd6\x8b\x81\x78\x8a\x21\x01",
        6,
        "",
        "snel: rows: block 0 is damaged\n",
    ),
];

#[test]
fn each_kind_is_printed(rt: HostRuntime) -> Result<(), Fail> {
    for (table, row, status, out, err) in &KINDS {
        let bytes = file_of(rt.alloc(), table, &[row])?;
        assert!(rt;
            ends_on(&rt, ALL, &bytes, (*status, out.as_bytes(), err)),
            "{out}"
        );
    }
    Ok(())
}

// Over objects that never fail, no status says that one did.
fn steady<R: Threads + Sync + RandomSource>(
    rt: &R,
    alloc: Global,
    words: &Words,
    files: &mut SteadyFiles<'_>,
    out: &mut SteadyOut,
    err: &mut SteadyOut,
) -> u8
    ensures no_read_fault { result ≢ 8 }
    ensures no_write_fault { result ≢ 9 }
{
    let mut input = SteadyInput::new(&[]);
    snel(rt, alloc, words, files, &mut input, out, err, &OpenGate)
}

#[test]
fn steady_objects_never_fail(rt: HostRuntime) -> Result<(), Fail> {
    let alloc = rt.alloc();
    let words = words_of(alloc, &["query", ALL, "rows"])?;
    let files = stored(alloc, &[])?;
    let (mut out, mut err) = (SteadyOut::new(), SteadyOut::new());
    let mut steady_files = SteadyFiles::new(&files);
    let status = steady(&rt, alloc, &words, &mut steady_files, &mut out, &mut err);
    assert_eq!(rt; status, 0);
    Ok(())
}
