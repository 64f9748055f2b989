//! Lines of JSON: the rows that they are packed to, as a query gives them back, and the lines that are refused.
use command_calls::ends_with;
use snel_device::MemFiles;
use std::alloc::{AllocError, Global};
use std::random::RandomSource;
use std::test::Fail;
use std::thread::Threads;

// Lines, what packing them without fractions says, and what `SELECT *` then writes.
static ROWS: [(&[u8], &str, &str); 11] = [
    (
        b"{\"a\":1}\r\n{\"a\":2}\r\n",
        "rows 2, blocks 1, dropped 0\n",
        "{\"a\":1}\n{\"a\":2}\n",
    ),
    (
        b"{\"a\":1}\n{\"a\":2}",
        "rows 2, blocks 1, dropped 0\n",
        "{\"a\":1}\n{\"a\":2}\n",
    ),
    (
        b"\n \t\n\r\n  {\"a\" : 1 } \n\n",
        "rows 1, blocks 1, dropped 0\n",
        "{\"a\":1}\n",
    ),
    (
        b"{\"a\":9223372036854775807,\"b\":-9223372036854775808,\"c\":0}",
        "rows 1, blocks 1, dropped 0\n",
        "{\"a\":9223372036854775807,\"b\":-9223372036854775808,\"c\":0}\n",
    ),
    (
        b"{\"a\":9223372036854775808,\"b\":-9223372036854775809,\"c\":1.0,\"d\":1e2}",
        "rows 1, blocks 1, dropped 4\n",
        "{}\n",
    ),
    (
        b"{\"a\":1,\"a\":0.5,\"a\":3}",
        "rows 1, blocks 1, dropped 0\n",
        "{\"a\":3}\n",
    ),
    (
        b"{\"b\":1,\"\":2,\"a\":{\"d\":3,\"c\":[]}}",
        "rows 1, blocks 1, dropped 0\n",
        "{\"\":2,\"a\":{\"c\":[],\"d\":3},\"b\":1}\n",
    ),
    (
        b"{\"a\":\"\\u00e9\\ud83d\\ude00\\/\\\"\\\\\\b\\f\\n\\r\\t\\u0000\"}",
        "rows 1, blocks 1, dropped 0\n",
        "{\"a\":\"\u{e9}\u{1f600}/\\\"\\\\\\b\\f\\n\\r\\t\\u0000\"}\n",
    ),
    (
        b"{\"\\u0061\":\"\xc3\xa9\x7f\"}",
        "rows 1, blocks 1, dropped 0\n",
        "{\"a\":\"\u{e9}\u{7f}\"}\n",
    ),
    (
        b"{\"a\":true,\"b\":false,\"c\":null,\"d\":{},\"e\":\"\"}",
        "rows 1, blocks 1, dropped 0\n",
        "{\"a\":true,\"b\":false,\"c\":null,\"d\":{},\"e\":\"\"}\n",
    ),
    (
        b"{\"a\":[1,[2,null],\"x\"]}\n{}\n",
        "rows 2, blocks 1, dropped 0\n",
        "{\"a\":[1,[2,null],\"x\"]}\n{}\n",
    ),
];

// What a strict reader of JSON refuses.
static NO_JSON: [&[u8]; 32] = [
    b"{",
    b"}",
    b"{\"a\":1",
    b"{\"a\":}",
    b"{\"a\":1,}",
    b"{,\"a\":1}",
    b"{\"a\" 1}",
    b"{\"a\"}",
    b"{a:1}",
    b"{'a':1}",
    b"{1:1}",
    b"{\"a\":1}x",
    b"{\"a\":1}{}",
    b"{\"a\":[1,]}",
    b"{\"a\":[1 2]}",
    b"{\"a\":[1}",
    b"{\"a\":01}",
    b"{\"a\":+1}",
    b"{\"a\":-}",
    b"{\"a\":.5}",
    b"{\"a\":1.}",
    b"{\"a\":1e}",
    b"{\"a\":0x1}",
    b"{\"a\":NaN}",
    b"{\"a\":nul}",
    b"{\"a\":True}",
    b"{\"a\":\"b}",
    b"{\"a\":\"\t\"}",
    b"{\"a\":\"\\x\"}",
    b"{\"a\":\"\\ud83d\"}",
    b"{\"a\":\"\xff\"}",
    b"\xef\xbb\xbf{}",
];

// JSON that is no object.
static NO_OBJECT: [&[u8]; 5] = [b"1", b"\"a\"", b"null", b"[{}]", b"true"];

// Whole numbers one past their ends, and numbers with a fraction or an exponent.
static FRACTIONS: [&[u8]; 5] = [
    b"{\"a\":9223372036854775808}",
    b"{\"a\":-9223372036854775809}",
    b"{\"a\":1.0}",
    b"{\"a\":[[1e2]]}",
    b"{\"a\":-0.0}",
];

// Whether packing the lines ends with this status and these words, over no files.
fn packs<R: Threads + Sync + RandomSource + AllocGlobal>(
    rt: &R,
    lines: &[u8],
    wanted: (u8, &str, &str),
) -> bool {
    match MemFiles::new(rt.alloc(), &[]) {
        Ok(mut files) => packs_into(rt, &mut files, lines, wanted),
        Err(_) => false,
    }
}

fn packs_into<R: Threads + Sync + RandomSource + AllocGlobal>(
    rt: &R,
    files: &mut MemFiles,
    lines: &[u8],
    wanted: (u8, &str, &str),
) -> bool {
    let wanted = (wanted.0, wanted.1.as_bytes(), wanted.2);
    ends_with(rt, &["pack", "p"], files, (lines, &[]), &[], wanted)
}

// Whether the lines are packed so, and are then given back so.
fn reads_back<R: Threads + Sync + RandomSource + AllocGlobal>(
    rt: &R,
    lines: &[u8],
    sum: &str,
    rows: &[u8],
) -> bool {
    let words = ["query", "SELECT * FROM logs", "p"];
    match MemFiles::new(rt.alloc(), &[]) {
        Ok(mut files) => {
            let pack = ["pack", "--drop-fractions", "p"];
            let wanted = (0, sum.as_bytes(), "");
            ends_with(rt, &pack, &mut files, (lines, &[]), &[], wanted)
                && ends_with(rt, &words, &mut files, (b"", &[]), &[], (0, rows, ""))
        }
        Err(_) => false,
    }
}

#[test]
fn lines_are_packed_to_these_rows(rt: HostRuntime) -> Result<(), Fail> {
    for (lines, sum, rows) in &ROWS {
        assert!(rt; reads_back(&rt, lines, sum, rows.as_bytes()), "{rows}");
    }
    Ok(())
}

#[test]
fn each_refused_line_has_its_reason(rt: HostRuntime) -> Result<(), Fail> {
    for line in &NO_JSON {
        assert!(rt;
            packs(&rt, line, (11, "", "snel: line 1: not json\n")),
            "{line:?}"
        );
    }
    for line in &NO_OBJECT {
        assert!(rt;
            packs(&rt, line, (11, "", "snel: line 1: not an object\n")),
            "{line:?}"
        );
    }
    for line in &FRACTIONS {
        assert!(rt;
            packs(&rt, line, (11, "", "snel: line 1: number\n")),
            "{line:?}"
        );
    }
    Ok(())
}

// A line of the object whose `a` is so many lists, each in the one before.
fn nested(alloc: Global, lists: u32) -> Result<Vec<u8>, AllocError> {
    let mut line = b"{\"a\":".to_vec(alloc)?;
    for _ in 0..lists {
        line.push(b'[')?;
    }
    for _ in 0..lists {
        line.push(b']')?;
    }
    line.extend_from_slice(b"}\n")?;
    Ok(line)
}

// An object and 126 lists within are 127 deep.
#[test]
fn lines_nest_so_deep(rt: HostRuntime) -> Result<(), Fail> {
    let alloc = rt.alloc();
    let deepest = nested(alloc, 126)?;
    assert!(rt; reads_back(&rt, &deepest, "rows 1, blocks 1, dropped 0\n", &deepest));
    let deeper = nested(alloc, 127)?;
    assert!(rt; packs(&rt, &deeper, (11, "", "snel: line 1: not json\n")));
    Ok(())
}

// A line of so many bytes, from 8 on: an object with one text.
fn line_of(alloc: Global, length: u32) -> Result<Vec<u8>, AllocError> {
    let mut line = b"{\"a\":\"".to_vec(alloc)?;
    for _ in 8..length {
        line.push(b'x')?;
    }
    line.extend_from_slice(b"\"}")?;
    Ok(line)
}

// A line has at most 1,048,576 bytes, which its end isn't among, and what it weighs at most what a block holds.
#[test]
fn lines_have_so_many_bytes(rt: HostRuntime) -> Result<(), Fail> {
    let alloc = rt.alloc();
    let mut longest = line_of(alloc, 1_048_576)?;
    assert!(rt; packs(&rt, &longest, (11, "", "snel: line 1: too large\n")));
    longest.push(b'\n')?;
    assert!(rt; packs(&rt, &longest, (11, "", "snel: line 1: too large\n")));
    let longer = line_of(alloc, 1_048_577)?;
    assert!(rt; packs(&rt, &longer, (11, "", "snel: line 1: too long\n")));
    Ok(())
}

// A row of 10,000 pairs comes back with its names in the order of their bytes, in which they were written.
#[test]
fn a_row_has_many_pairs(rt: HostRuntime) -> Result<(), Fail> {
    let alloc = rt.alloc();
    let mut line = String::new(alloc);
    for number in 10_000u32..20_000 {
        let mark = if number == 10_000 { '{' } else { ',' };
        let pair = format!(in alloc; "{mark}\"n{number}\":{number}")?;
        line.push_str(pair.as_str())?;
    }
    line.push_str("}\n")?;
    let bytes = line.as_bytes();
    assert!(rt; reads_back(&rt, bytes, "rows 1, blocks 1, dropped 0\n", bytes));
    Ok(())
}

// The file is made, and its block and index are added to it; each byte of the input is a call, and so is its end.
#[test]
fn each_failing_call_ends_packing(rt: HostRuntime) -> Result<(), Fail> {
    let lines = b"{\"a\":1,\"b\":\"x\"}\n{\"a\":null}\n{\"b\":7}\n";
    let unwritten = (9, b"".as_slice(), "snel: write failed\n");
    let unread = (8, b"".as_slice(), "snel: input: read failed\n");
    let done = (0, b"rows 3, blocks 1, dropped 0\n".as_slice(), "");
    for call in 1u32..4 {
        let mut files = MemFiles::new(rt.alloc(), &[call])?;
        let wanted = if call < 3 { unwritten } else { done };
        let words = ["pack", "p"];
        assert!(rt;
            ends_with(&rt, &words, &mut files, (lines, &[]), &[], wanted),
            "{call}"
        );
    }
    for call in 1u32..38 {
        let mut files = MemFiles::new(rt.alloc(), &[])?;
        let wanted = if call < 37 { unread } else { done };
        let words = ["pack", "p"];
        assert!(rt;
            ends_with(&rt, &words, &mut files, (lines, &[call]), &[], wanted),
            "{call}"
        );
    }
    Ok(())
}
