//! Aggregates over rows of each kind, and groups by keys of each kind.
use command_calls::{OF_A, STEADY, ends_over, ends_with, file_around};
use snel_device::MemFiles;
use std::alloc::{AllocError, Global};
use std::random::RandomSource;
use std::test::Fail;
use std::thread::Threads;

const EACH: &str =
    "SELECT COUNT(*) AS n, COUNT(a) AS c, SUM(a) AS s, MIN(a) AS lo, MAX(a) AS hi, AVG(a) AS v, EARLIEST(a) AS e, LATEST(a) AS l, BOOL_AND(a) AS ba, BOOL_OR(a) AS bo FROM logs";

const KEYS: &str = "SELECT a, COUNT(*) AS n FROM logs GROUP BY a ORDER BY a";

// Lines, of which the texts of `a` that spell times become times; how many rows they are; a query, and its answer.
static OVER: [(&str, u32, &str, &str); 8] = [
    (
        "",
        0,
        EACH,
        "{\"n\":0,\"c\":0,\"s\":null,\"lo\":null,\"hi\":null,\"v\":null,\"e\":null,\"l\":null,\"ba\":null,\"bo\":null}\n",
    ),
    (
        "{\"a\":null}\n{\"a\":null}\n",
        2,
        EACH,
        "{\"n\":2,\"c\":0,\"s\":null,\"lo\":null,\"hi\":null,\"v\":null,\"e\":null,\"l\":null,\"ba\":null,\"bo\":null}\n",
    ),
    (
        "{}\n{\"b\":1}\n{}\n",
        3,
        EACH,
        "{\"n\":3,\"c\":0,\"s\":null,\"lo\":null,\"hi\":null,\"v\":null,\"e\":null,\"l\":null,\"ba\":null,\"bo\":null}\n",
    ),
    (
        "{\"a\":5}\n{\"a\":-2}\n{\"a\":\"x\"}\n{\"a\":true}\n{\"a\":false}\n{\"a\":null}\n{}\n{\"a\":[1]}\n{\"a\":{\"b\":1}}\n{\"a\":\"2024-05-01T10:00:00Z\"}\n{\"a\":\"2023-05-01T10:00:01Z\"}\n{\"a\":4}\n",
        12,
        EACH,
        "{\"n\":12,\"c\":10,\"s\":7,\"lo\":-2,\"hi\":5,\"v\":2,\"e\":\"2023-05-01T10:00:01Z\",\"l\":\"2024-05-01T10:00:00Z\",\"ba\":false,\"bo\":true}\n",
    ),
    (
        "{\"a\":-3}\n{\"a\":-4}\n{\"a\":true}\n",
        3,
        EACH,
        "{\"n\":3,\"c\":3,\"s\":-7,\"lo\":-4,\"hi\":-3,\"v\":-3,\"e\":null,\"l\":null,\"ba\":true,\"bo\":true}\n",
    ),
    (
        "{\"a\":false}\n{\"a\":false}\n{\"a\":0}\n",
        3,
        EACH,
        "{\"n\":3,\"c\":3,\"s\":0,\"lo\":0,\"hi\":0,\"v\":0,\"e\":null,\"l\":null,\"ba\":false,\"bo\":false}\n",
    ),
    (
        "{\"a\":{\"b\":1}}\n{\"a\":[1,2]}\n{\"a\":\"x\"}\n{\"a\":\"2024-05-01T10:00:00Z\"}\n{\"a\":1}\n{\"a\":true}\n{\"a\":null}\n{}\n{\"a\":[]}\n{\"a\":{}}\n{\"a\":\"\"}\n{\"a\":-1}\n{\"a\":false}\n{\"a\":[1]}\n{\"a\":[1,2]}\n{\"a\":{\"b\":1}}\n{\"a\":\"x\"}\n{\"a\":1}\n{}\n",
        19,
        KEYS,
        "{\"n\":2}\n{\"a\":null,\"n\":1}\n{\"a\":false,\"n\":1}\n{\"a\":true,\"n\":1}\n{\"a\":-1,\"n\":1}\n{\"a\":1,\"n\":2}\n{\"a\":\"2024-05-01T10:00:00Z\",\"n\":1}\n{\"a\":\"\",\"n\":1}\n{\"a\":\"x\",\"n\":2}\n{\"a\":[],\"n\":1}\n{\"a\":[1],\"n\":1}\n{\"a\":[1,2],\"n\":2}\n{\"a\":{},\"n\":1}\n{\"a\":{\"b\":1},\"n\":2}\n",
    ),
    (
        "{\"a\":1,\"b\":null}\n{\"a\":1}\n{\"b\":null}\n{\"a\":1,\"b\":null}\n{\"a\":null,\"b\":1}\n{}\n",
        6,
        "SELECT a, b, COUNT(*) AS n FROM logs GROUP BY a, b ORDER BY a, b",
        "{\"n\":1}\n{\"b\":null,\"n\":1}\n{\"a\":null,\"b\":1,\"n\":1}\n{\"a\":1,\"n\":1}\n{\"a\":1,\"b\":null,\"n\":2}\n",
    ),
];

// Whether the lines are packed to so many rows and blocks in a file of this name.
fn packs<R: Threads + Sync + RandomSource + AllocGlobal>(
    rt: &R,
    files: &mut MemFiles,
    name: &str,
    lines: &str,
    (rows, blocks): (u32, u32),
) -> Result<bool, AllocError> {
    let sum = format!(in rt.alloc(); "rows {rows}, blocks {blocks}, dropped 0\n")?;
    let words = ["pack", "--time", "a", name];
    let wanted = (0, sum.as_bytes(), "");
    Ok(ends_with(rt, &words, files, (lines.as_bytes(), &[]), &[], wanted))
}

#[test]
fn aggregates_look_at_their_kinds(rt: HostRuntime) -> Result<(), Fail> {
    for (lines, rows, sql, answer) in &OVER {
        let mut files = MemFiles::new(rt.alloc(), &[])?;
        assert!(rt;
            packs(&rt, &mut files, "p", lines, (*rows, u32::from(*rows > 0)))?,
            "{lines}"
        );
        let words = ["query", sql, "p"];
        let wanted = (0, answer.as_bytes(), "");
        assert!(rt;
            ends_with(&rt, &words, &mut files, (b"", &[]), &[], wanted),
            "{lines}"
        );
    }
    Ok(())
}

// The greatest and the least whole number as the value of `a`.
const GREATEST: &[u8] = b"\xda\x8a\x28\x7f\xff\xff\xff\xff\xff\xff\xff";

const LEAST: &[u8] = b"\xda\x8a\x38\x80\x00\x00\x00\x00\x00\x00\x00";

// A file of one block, which has the row so many times.
fn repeated(alloc: Global, row: &[u8], times: u32) -> Result<Vec<u8>, AllocError> {
    let mut block = OF_A.to_vec(alloc)?;
    for _ in 0..times {
        block.extend_from_slice(row)?;
    }
    file_around(alloc, &block, times)
}

// Two files of 2,048 rows, 32 times each: the sums go 16 bits beyond those of a row's numbers.
#[test]
fn sums_pass_64_bits(rt: HostRuntime) -> Result<(), Fail> {
    let mut files = MemFiles::new(rt.alloc(), &[])?;
    files.insert("p", &repeated(rt.alloc(), GREATEST, 2048)?)?;
    files.insert("q", &repeated(rt.alloc(), LEAST, 2048)?)?;
    let mut words = Vec::new(rt.alloc());
    words.push("query")?;
    words.push(
        "SELECT a, COUNT(*) AS n, SUM(a) AS s, AVG(a) AS v FROM logs GROUP BY a ORDER BY a",
    )?;
    for name in ["p", "q"] {
        for _ in 0u32..32 {
            words.push(name)?;
        }
    }
    let answer =
        "{\"a\":-9223372036854775808,\"n\":65536,\"s\":-604462909807314587353088,\"v\":-9223372036854775808}\n{\"a\":9223372036854775807,\"n\":65536,\"s\":604462909807314587287552,\"v\":9223372036854775807}\n";
    let wanted = (0, answer.as_bytes(), "");
    assert!(rt; ends_over(&rt, &words, &mut files, STEADY, wanted));
    Ok(())
}

// A file of one block, in whose rows `a` is each number below this one.
fn counting(alloc: Global, count: u32) -> Result<Vec<u8>, AllocError> {
    let mut block = OF_A.to_vec(alloc)?;
    for number in 0..count {
        let [_, high, middle, low] = number.to_be_bytes();
        block.extend_from_slice(&[0xd5, 0x8a, 0x23, high, middle, low])?;
    }
    file_around(alloc, &block, count)
}

// As many groups as are allowed are answered, and one more ends the query.
#[test]
fn groups_have_a_limit(rt: HostRuntime) -> Result<(), Fail> {
    let alloc = rt.alloc();
    let mut files = MemFiles::new(alloc, &[])?;
    files.insert("p", &counting(alloc, 65_536)?)?;
    files.insert("q", &repeated(alloc, GREATEST, 1)?)?;
    let sql = "SELECT a, COUNT(*) AS n FROM logs GROUP BY a HAVING a >= 65535";
    let at = ["query", "--groups", "65536", sql, "p", "p"];
    let done = (0, b"{\"a\":65535,\"n\":2}\n".as_slice(), "");
    assert!(rt; ends_over(&rt, &at, &mut files, STEADY, done));
    let past = ["query", "--groups", "65536", sql, "p", "q"];
    let over = (7, b"".as_slice(), "snel: more than 65536 groups\n");
    assert!(rt; ends_over(&rt, &past, &mut files, STEADY, over));
    Ok(())
}
