//! Queries and checks over several files of many blocks.
use command_calls::{Blocks, Failing, STEADY, Wanted, ends_over, stored};
use snel_device::MemFiles;
use std::alloc::{AllocError, Global};
use std::random::RandomSource;
use std::test::Fail;
use std::thread::Threads;

const ALL: &str = "SELECT * FROM logs";

const BEFORE: &str = "SELECT * FROM logs WHERE ts < `2024-01-01T00:00:01Z`";

const FROM: &str = "SELECT * FROM logs WHERE ts >= `2024-01-01T00:00:01Z`";

const LINES: &str = "{\"a\":1,\"b\":\"x\"}\n{\"a\":null}\n{\"b\":7}\n";

const TIMES: &str = "{\"ts\":\"2024-01-01T00:00:00Z\"}\n{\"ts\":\"2024-01-01T00:00:01Z\"}\n";

const OTHER_WORDS: &str = "snel: words not understood\n";

const READ_FAILED: &str = "snel: files: read failed\n";

// A block with one row, a time of 2024 in seconds from its start on.
fn block_at(second: u8) -> [u8; 24] {
    let mut block =
        *b"\xe0\x01\x00\xea\xe8\x81\x83\xd5\x87\xb3\x82ts\xda\x8a\x68\x80\x0f\xe8\x81\x81\x80\x80\x80";
    block[22] = 0x80 | (second / 60);
    block[23] = 0x80 | (second % 60);
    block
}

// The microseconds at which 2024 begins, and its second second.
const START: i64 = 1_704_067_200_000_000;

const NEXT: i64 = 1_704_067_201_000_000;

// Two blocks of one row each, of the first two seconds. The first byte of the first and the greatest time of the second may be wrong.
fn two_blocks(alloc: Global, first: u8, greatest: i64) -> Result<Vec<u8>, AllocError> {
    let mut blocks = Blocks::new(alloc, b"ts")?;
    let mut block = block_at(0);
    block[0] = first;
    blocks.push(&block, 1, START, START)?;
    blocks.push(&block_at(1), 1, NEXT, greatest)?;
    blocks.finish()
}

// A block with two rows, of the first two seconds.
const TWO_ROWS: &[u8] =
    b"\xe0\x01\x00\xea\xe8\x81\x83\xd5\x87\xb3\x82ts\xda\x8a\x68\x80\x0f\xe8\x81\x81\x80\x80\x80\xda\x8a\x68\x80\x0f\xe8\x81\x81\x80\x80\x81";

// The file `one` of the front of that block, of so many bytes, and of an entry of so many rows from the least to the greatest time.
fn one_block(
    alloc: Global,
    length: usize,
    rows: u32,
    least: i64,
    greatest: i64,
    field: &str,
) -> Result<MemFiles, AllocError> {
    let mut blocks = Blocks::new(alloc, field.as_bytes())?;
    blocks.push(TWO_ROWS.get(..length).unwrap_or(b""), rows, least, greatest)?;
    let mut files = stored(alloc, &[])?;
    add_made(&mut files, "one", blocks.finish())?;
    Ok(files)
}

// So many blocks of the first second, of which those with the two numbers are damaged.
fn many_blocks(alloc: Global, count: u8, bad: [u8; 2]) -> Result<Vec<u8>, AllocError> {
    let mut blocks = Blocks::new(alloc, b"")?;
    for number in 0..count {
        let mut block = block_at(number);
        if bad.contains(&number) {
            block[0] = 0;
        }
        blocks.push(&block, 1, 1, 0)?;
    }
    blocks.finish()
}

// The files `rows`, `none` and so on, and those of many blocks.
fn many_files(alloc: Global, failing: &[u32]) -> Result<MemFiles, AllocError> {
    let mut files = stored(alloc, failing)?;
    add_files(alloc, &mut files)?;
    Ok(files)
}

// `T` of two seconds, `U` whose first block is damaged, `low` whose second block breaks its range, `six` with blocks 3 and 5
// damaged, `whole` of 64 blocks and `long` with block 64 of 65 damaged.
fn add_files(alloc: Global, files: &mut MemFiles) -> Result<(), AllocError> {
    add_made(files, "T", two_blocks(alloc, 0xe0, NEXT))?;
    add_made(files, "U", two_blocks(alloc, 0, NEXT))?;
    add_made(files, "low", two_blocks(alloc, 0xe0, NEXT - 1))?;
    add_made(files, "six", many_blocks(alloc, 6, [3, 5]))?;
    add_made(files, "whole", many_blocks(alloc, 64, [64, 64]))?;
    add_made(files, "long", many_blocks(alloc, 65, [64, 64]))
}

fn add_made(
    files: &mut MemFiles,
    name: &str,
    made: Result<Vec<u8>, AllocError>,
) -> Result<(), AllocError> {
    match made {
        Ok(bytes) => files.insert(name, &bytes),
        Err(fault) => Err(fault),
    }
}

// Whether a call of these words over these files ends so.
fn ends_on_many<R: Threads + Sync + RandomSource + AllocGlobal>(
    rt: &R,
    words: &[&str],
    failing: Failing<'_>,
    wanted: Wanted<'_>,
) -> bool {
    match many_files(rt.alloc(), failing.0) {
        Ok(mut files) => ends_over(rt, words, &mut files, failing, wanted),
        Err(_) => false,
    }
}

// The bytes, the rows, the times and the field of a block's entry, and whether the block is as they say.
static ENTRIES: [(usize, u32, i64, i64, &str, bool); 9] = [
    (35, 2, START, NEXT, "ts", true),
    (35, 2, 0, i64::MAX, "ts", true),
    (35, 2, 1, 0, "a", true),
    (35, 2, 1, 0, "", true),
    (35, 2, START, START, "ts", false),
    (35, 2, NEXT, NEXT, "ts", false),
    (35, 1, START, NEXT, "ts", false),
    (35, 3, START, START, "ts", false),
    (34, 2, START, NEXT, "ts", false),
];

#[test]
fn a_block_is_as_its_entry_says(rt: HostRuntime) -> Result<(), Fail> {
    for (length, rows, least, greatest, field, sound) in &ENTRIES {
        let mut files = one_block(rt.alloc(), *length, *rows, *least, *greatest, field)?;
        let wanted: Wanted<'_> = if *sound {
            (0, TIMES.as_bytes(), "")
        } else {
            (6, b"", "snel: one: block 0 is damaged\n")
        };
        assert!(rt;
            ends_over(&rt, &["query", ALL, "one"], &mut files, STEADY, wanted),
            "{rows} {field}"
        );
    }
    Ok(())
}

// Words, and what the call ends with.
static CALLS: [(&[&str], u8, &str, &str); 31] = [
    // A LIMIT that is full ends the reading before a later batch, and one that isn't goes on to it.
    (
        &["query", "SELECT * FROM logs LIMIT 1", "long"],
        0,
        "{\"ts\":\"2024-01-01T00:00:00Z\"}\n",
        "",
    ),
    (
        &["query", "SELECT * FROM logs LIMIT 1 OFFSET 63", "long"],
        0,
        "{\"ts\":\"2024-01-01T00:01:03Z\"}\n",
        "",
    ),
    (
        &["query", "SELECT * FROM logs LIMIT 1 OFFSET 64", "long"],
        6,
        "",
        "snel: long: block 64 is damaged\n",
    ),
    // A query that sorts reads all blocks before it writes a line.
    (
        &["query", "SELECT * FROM logs ORDER BY ts LIMIT 1", "long"],
        6,
        "",
        "snel: long: block 64 is damaged\n",
    ),
    (
        &[
            "query",
            "SELECT * FROM logs ORDER BY ts DESC LIMIT 2",
            "whole",
            "T",
        ],
        0,
        "{\"ts\":\"2024-01-01T00:01:03Z\"}\n{\"ts\":\"2024-01-01T00:01:02Z\"}\n",
        "",
    ),
    // Blocks that a range of times excludes aren't read.
    (
        &["query", "--stats", FROM, "U"],
        0,
        "{\"ts\":\"2024-01-01T00:00:01Z\"}\n",
        "blocks read 1, skipped 1\n",
    ),
    (
        &["query", BEFORE, "U"],
        6,
        "",
        "snel: U: block 0 is damaged\n",
    ),
    (
        &["query", "--stats", BEFORE, "U"],
        6,
        "",
        "snel: U: block 0 is damaged\n",
    ),
    (
        &["query", "--stats", BEFORE, "T", "U"],
        6,
        "",
        "snel: U: block 0 is damaged\n",
    ),
    (
        &["query", "--stats", FROM, "T", "U"],
        0,
        "{\"ts\":\"2024-01-01T00:00:01Z\"}\n{\"ts\":\"2024-01-01T00:00:01Z\"}\n",
        "blocks read 2, skipped 2\n",
    ),
    // A block that breaks its range is bad.
    (
        &["query", ALL, "low"],
        6,
        "",
        "snel: low: block 1 is damaged\n",
    ),
    // The first bad block is named.
    (
        &["query", ALL, "six"],
        6,
        "",
        "snel: six: block 3 is damaged\n",
    ),
    (
        &["query", ALL, "T", "six"],
        6,
        "",
        "snel: six: block 3 is damaged\n",
    ),
    // Files in the order in which they are named, also twice, and without blocks.
    (&["query", ALL, "T"], 0, TIMES, ""),
    (
        &["query", "--stats", ALL, "none"],
        0,
        "",
        "blocks read 0, skipped 0\n",
    ),
    (&["query", ALL, "rows", "none"], 0, LINES, ""),
    (
        &["query", "SELECT a FROM logs", "rows", "rows"],
        0,
        "{\"a\":1}\n{\"a\":null}\n{}\n{\"a\":1}\n{\"a\":null}\n{}\n",
        "",
    ),
    (
        &[
            "query",
            "--stats",
            "SELECT * FROM logs WHERE FALSE",
            "T",
            "rows",
        ],
        0,
        "",
        "blocks read 3, skipped 0\n",
    ),
    // Each file is opened before a block is read.
    (
        &["query", ALL, "U", "absent"],
        4,
        "",
        "snel: absent: no such file\n",
    ),
    (
        &["query", ALL, "U", "cut", "absent"],
        5,
        "",
        "snel: cut: not a block file\n",
    ),
    (
        &["query", "SELECT", "absent"],
        3,
        "",
        "snel: query: not a query\n",
    ),
    // Settings in their order.
    (
        &[
            "query",
            "--workers",
            "64",
            "--groups",
            "1",
            "--stats",
            ALL,
            "T",
        ],
        0,
        TIMES,
        "blocks read 2, skipped 0\n",
    ),
    (&["query", "--workers", "1", ALL, "T"], 0, TIMES, ""),
    (&["query", "--groups", "16777216", ALL, "T"], 0, TIMES, ""),
    (&["query", "--workers", "65", ALL, "T"], 2, "", OTHER_WORDS),
    (&["query", "--workers", "01", ALL, "T"], 2, "", OTHER_WORDS),
    (&["query", "--workers", "+1", ALL, "T"], 2, "", OTHER_WORDS),
    (
        &["query", "--groups", "16777217", ALL, "T"],
        2,
        "",
        OTHER_WORDS,
    ),
    (
        &["query", "--stats", "--workers", "1", ALL, "T"],
        2,
        "",
        OTHER_WORDS,
    ),
    (&["query", "--stats", ALL], 2, "", OTHER_WORDS),
    (&["query", ALL, "T", "--stats"], 2, "", OTHER_WORDS),
];

#[test]
fn each_call_over_files_ends_so(rt: HostRuntime) {
    for (words, status, out, err) in &CALLS {
        assert!(rt;
            ends_on_many(&rt, words, STEADY, (*status, out.as_bytes(), err)),
            "{words:?}"
        );
    }
}

// Words of checks, and what the call ends with.
static CHECKS: [(&[&str], u8, &str, &str); 5] = [
    (
        &["check", "T", "U"],
        6,
        "T: blocks 2, rows 2\n",
        "snel: U: block 0 is damaged\n",
    ),
    (
        &["check", "rows", "none", "T"],
        0,
        "rows: blocks 1, rows 3\nnone: blocks 0, rows 0\nT: blocks 2, rows 2\n",
        "",
    ),
    (
        &["check", "T", "low"],
        6,
        "T: blocks 2, rows 2\n",
        "snel: low: block 1 is damaged\n",
    ),
    (&["check"], 2, "", OTHER_WORDS),
    (&["check", "T", "--stats"], 2, "", OTHER_WORDS),
];

#[test]
fn each_check_ends_so(rt: HostRuntime) {
    for (words, status, out, err) in &CHECKS {
        assert!(rt;
            ends_on_many(&rt, words, STEADY, (*status, out.as_bytes(), err)),
            "{words:?}"
        );
    }
}

// The lines of blocks of the first 64 seconds.
fn lines_of_seconds(alloc: Global) -> Result<Vec<u8>, Fail> {
    let mut lines = Vec::new(alloc);
    for second in 0u8..64 {
        add_line_at(alloc, &mut lines, second)?;
    }
    Ok(lines)
}

fn add_line_at(alloc: Global, lines: &mut Vec<u8>, second: u8) -> Result<(), Fail> {
    let line = format!(in alloc;
        "{{\"ts\":\"2024-01-01T00:0{}:{:02}Z\"}}\n",
        second / 60,
        second % 60
    )?;
    lines.extend_from_slice(line.as_bytes())?;
    Ok(())
}

// The lines of each batch are put before the next is read.
#[test]
fn a_bad_block_ends_after_the_batches_before_it(rt: HostRuntime) -> Result<(), Fail> {
    let lines = lines_of_seconds(rt.alloc())?;
    let bad = (6, lines.as_slice(), "snel: long: block 64 is damaged\n");
    assert!(rt; ends_on_many(&rt, &["query", ALL, "long"], STEADY, bad));
    let whole = (0, lines.as_slice(), "");
    assert!(rt; ends_on_many(&rt, &["query", ALL, "whole"], STEADY, whole));
    Ok(())
}

// Words, the put of a line that fails, and the lines before it.
static CUT: [(&[&str], u32, &str); 2] = [
    (&["query", ALL, "rows"], 2, "{\"a\":1,\"b\":\"x\"}\n"),
    (
        &["query", ALL, "T", "rows"],
        4,
        "{\"ts\":\"2024-01-01T00:00:00Z\"}\n{\"ts\":\"2024-01-01T00:00:01Z\"}\n{\"a\":1,\"b\":\"x\"}\n",
    ),
];

// Each line is one put.
#[test]
fn the_put_of_a_line_may_fail(rt: HostRuntime) {
    for (words, put, lines) in &CUT {
        let wanted = (9, lines.as_bytes(), "snel: write failed\n");
        assert!(rt;
            ends_on_many(&rt, words, (&[], &[(*put, 0)], &[]), wanted),
            "{put}"
        );
    }
}

// Every call of the files may fail: three sizes, three tails, three indexes and three blocks.
#[test]
fn each_read_of_three_files_may_fail(rt: HostRuntime) {
    let words = [
        "query",
        "SELECT * FROM logs WHERE FALSE",
        "rows",
        "none",
        "T",
    ];
    for call in 1u32..13 {
        assert!(rt;
            ends_on_many(&rt, &words, (&[call], &[], &[]), (8, b"", READ_FAILED)),
            "{call}"
        );
    }
    assert!(rt; ends_on_many(&rt, &words, (&[13], &[], &[]), (0, b"", "")));
}

#[test]
fn as_many_as_64_files_are_read(rt: HostRuntime) -> Result<(), Fail> {
    let mut words = vec![in rt.alloc(); "query", "--stats", FROM]?;
    for _ in 0..64 {
        words.push("T")?;
    }
    let mut lines = Vec::new(rt.alloc());
    for _ in 0..64 {
        lines.extend_from_slice(b"{\"ts\":\"2024-01-01T00:00:01Z\"}\n")?;
    }
    let wanted = (0, lines.as_slice(), "blocks read 64, skipped 64\n");
    assert!(rt; ends_on_many(&rt, &words, STEADY, wanted));
    words.push("T")?;
    assert!(rt; ends_on_many(&rt, &words, STEADY, (2, b"", OTHER_WORDS)));
    Ok(())
}
