//! A log of twenty minutes, packed to several blocks and to one: a query over a range of its times, and the calls that fail.
use command_calls::ends_with;
use snel_device::MemFiles;
use std::alloc::{AllocError, Global};
use std::random::RandomSource;
use std::test::Fail;
use std::thread::Threads;

const OF_AN_HOUR: &str =
    "SELECT status, COUNT(*) AS n FROM logs WHERE time >= `2024-05-01T10:00:00Z` AND time < `2024-05-01T11:00:00Z` GROUP BY status ORDER BY status";

// The lines of its answer, end to end.
const ANSWER: &[u8] =
    b"{\"status\":200,\"n\":6}\n{\"status\":404,\"n\":2}\n{\"status\":500,\"n\":2}\n";

// The put that fails, how many bytes it keeps, and how many of the answer are then written: lines of 21 bytes.
static FAILING_PUTS: [(u32, u32, usize); 6] = [
    (1, 0, 0),
    (1, 1, 1),
    (2, 0, 21),
    (2, 1, 22),
    (3, 0, 42),
    (3, 1, 43),
];

// Twenty lines, one a minute from ten minutes before the hour on. Every fifth has the status 404, the one behind it 500.
fn twenty_lines(alloc: Global) -> Result<String, AllocError> {
    let mut lines = String::new(alloc);
    for i in 0u32..20 {
        let (hour, minute) = if i < 10 {
            ("09", 50 + i)
        } else {
            ("10", i - 10)
        };
        let status = match i % 5 {
            0 => 404,
            1 => 500,
            _ => 200,
        };
        let time = format!(in alloc; "2024-05-01T{hour}:{minute:02}:00+00:00")?;
        let rest = "\"bytes\":100,\"path\":\"/\",\"agent\":\"curl/8.0\"";
        let line = format!(in alloc; "{{\"time\":\"{time}\",\"status\":{status},{rest}}}\n")?;
        lines.push_str(line.as_str())?;
    }
    Ok(lines)
}

// Whether the lines are packed so with these words, and the query then reads so many blocks, as its counts say.
fn answers_from<R: Threads + Sync + RandomSource + AllocGlobal>(
    rt: &R,
    lines: &str,
    pack: &[&str],
    sum: &str,
    counts: &str,
) -> bool {
    let query = ["query", "--stats", OF_AN_HOUR, "p"];
    match MemFiles::new(rt.alloc(), &[]) {
        Ok(mut files) => {
            let packed = (0, sum.as_bytes(), "");
            ends_with(rt, pack, &mut files, (lines.as_bytes(), &[]), &[], packed)
                && ends_with(rt, &query, &mut files, (b"", &[]), &[], (0, ANSWER, counts))
        }
        Err(_) => false,
    }
}

#[test]
fn a_range_of_times_leaves_out_blocks(rt: HostRuntime) -> Result<(), Fail> {
    let lines = twenty_lines(rt.alloc())?;
    assert!(rt;
        answers_from(
            &rt,
            lines.as_str(),
            &["pack", "--time", "time", "--block", "1024", "p"],
            "rows 20, blocks 3, dropped 0\n",
            "blocks read 2, skipped 1\n"
        )
    );
    assert!(rt;
        answers_from(
            &rt,
            lines.as_str(),
            &["pack", "--time", "time", "p"],
            "rows 20, blocks 1, dropped 0\n",
            "blocks read 1, skipped 0\n"
        )
    );
    Ok(())
}

// The bytes of the file with three blocks, none where it isn't packed.
fn packed<R: Threads + Sync + RandomSource + AllocGlobal>(rt: &R) -> Result<Vec<u8>, AllocError> {
    let lines = twenty_lines(rt.alloc())?;
    let mut files = MemFiles::new(rt.alloc(), &[])?;
    let words = ["pack", "--time", "time", "--block", "1024", "p"];
    let wanted = (0, b"rows 20, blocks 3, dropped 0\n".as_slice(), "");
    if !ends_with(rt, &words, &mut files, (lines.as_bytes(), &[]), &[], wanted) {
        return Ok(Vec::new(rt.alloc()));
    }
    match files.bytes("p") {
        Some(bytes) => bytes.to_vec(rt.alloc()),
        None => Ok(Vec::new(rt.alloc())),
    }
}

// Whether the query ends so where this call of the files, and this put, each counted from 1, fail.
fn ends_failing<R: Threads + Sync + RandomSource + AllocGlobal>(
    rt: &R,
    file: &[u8],
    call: &[u32],
    put: &[(u32, u32)],
    wanted: (u8, &[u8], &str),
) -> Result<bool, AllocError> {
    let mut files = MemFiles::new(rt.alloc(), call)?;
    files.insert("p", file)?;
    let words = ["query", OF_AN_HOUR, "p"];
    Ok(ends_with(rt, &words, &mut files, (b"", &[]), put, wanted))
}

// The size, the tail, the index and the two blocks.
#[test]
fn a_query_ends_at_each_failing_read(rt: HostRuntime) -> Result<(), Fail> {
    let file = packed(&rt)?;
    for call in 1u32..6 {
        let unread = (8, b"".as_slice(), "snel: files: read failed\n");
        assert!(rt; ends_failing(&rt, &file, &[call], &[], unread)?, "{call}");
    }
    assert!(rt; ends_failing(&rt, &file, &[6], &[], (0, ANSWER, ""))?);
    Ok(())
}

// Whole lines are written before the put that fails, and of its own line as much as it kept.
#[test]
fn a_query_ends_at_each_failing_put(rt: HostRuntime) -> Result<(), Fail> {
    let file = packed(&rt)?;
    for (put, keeps, length) in FAILING_PUTS {
        let written = ANSWER.get(..length).unwrap_or(b"");
        let unwritten = (9, written, "snel: write failed\n");
        assert!(rt;
            ends_failing(&rt, &file, &[], &[(put, keeps)], unwritten)?,
            "{put} {keeps}"
        );
    }
    assert!(rt; ends_failing(&rt, &file, &[], &[(4, 0)], (0, ANSWER, ""))?);
    Ok(())
}
