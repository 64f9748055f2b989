//! Calls that make logs, and what they leave of the files.
use command_calls::{Failing, STEADY, ends, ends_over};
use snel_device::MemFiles;
use std::test::Fail;

const LINE: &str = "rows 1, blocks 1, bytes 139\n";

const BOTH: &str = "rows 1, blocks 1, bytes 139\n{\"status\":301,\"n\":1}\n";

const ROW: &str =
    "{\"agent\":\"Mozilla/5.0\",\"bytes\":31614,\"path\":\"/p25\",\"status\":301,\"time\":\"2023-11-14T22:13:20Z\"}\n";

// Words of calls over stored files, which calls fail, and what the call ends with.
static CALLS: [(&[&str], Failing<'static>, u8, &str, &str); 16] = [
    (&["make", "0", "1", "m"], STEADY, 0, BOTH, ""),
    (
        &["make", "0", "0", "m"],
        STEADY,
        0,
        "rows 0, blocks 0, bytes 26\n",
        "",
    ),
    (
        &["make", "0", "1", "rows"],
        STEADY,
        12,
        "",
        "snel: rows: exists already\n",
    ),
    (
        &["make", "0", "1"],
        STEADY,
        2,
        "",
        "snel: words not understood\n",
    ),
    (
        &["make", "0", "1", "m", "n"],
        STEADY,
        2,
        "",
        "snel: words not understood\n",
    ),
    (
        &["make", "00", "1", "m"],
        STEADY,
        2,
        "",
        "snel: words not understood\n",
    ),
    (
        &["make", "-1", "1", "m"],
        STEADY,
        2,
        "",
        "snel: words not understood\n",
    ),
    (
        &["make", "18446744073709551616", "1", "m"],
        STEADY,
        2,
        "",
        "snel: words not understood\n",
    ),
    (
        &["make", "0", "1000001", "m"],
        STEADY,
        2,
        "",
        "snel: words not understood\n",
    ),
    (
        &["make", "0", "1", "--m"],
        STEADY,
        2,
        "",
        "snel: words not understood\n",
    ),
    // The file is made, its block and its index are added, and it is read by the calls behind these.
    (
        &["make", "0", "1", "m"],
        (&[1], &[], &[]),
        9,
        "",
        "snel: write failed\n",
    ),
    (
        &["make", "0", "1", "m"],
        (&[2], &[], &[]),
        9,
        "",
        "snel: write failed\n",
    ),
    (
        &["make", "0", "1", "m"],
        (&[4], &[], &[]),
        8,
        LINE,
        "snel: files: read failed\n",
    ),
    (
        &["make", "0", "1", "m"],
        (&[], &[(1, 4)], &[]),
        9,
        "rows",
        "snel: write failed\n",
    ),
    (
        &["make", "0", "1", "m"],
        (&[], &[(2, 0)], &[]),
        9,
        LINE,
        "snel: write failed\n",
    ),
    (&["make", "0", "1", "m"], (&[], &[(3, 0)], &[]), 0, BOTH, ""),
];

#[test]
fn each_make_ends_so(rt: HostRuntime) {
    for (words, failing, status, out, err) in &CALLS {
        assert!(rt;
            ends(&rt, words, *failing, (*status, out.as_bytes(), err)),
            "{status} {out}"
        );
    }
}

#[test]
fn a_made_log_is_read(rt: HostRuntime) -> Result<(), Fail> {
    let mut files = MemFiles::new(rt.alloc(), &[])?;
    assert!(rt;
        ends_over(
            &rt,
            &["make", "0", "1", "m"],
            &mut files,
            STEADY,
            (0, BOTH.as_bytes(), "")
        )
    );
    assert!(rt;
        ends_over(
            &rt,
            &["query", "SELECT * FROM logs", "m"],
            &mut files,
            STEADY,
            (0, ROW.as_bytes(), "")
        )
    );
    assert!(rt;
        ends_over(
            &rt,
            &["check", "m"],
            &mut files,
            STEADY,
            (0, b"m: blocks 1, rows 1\n", "")
        )
    );
    assert!(rt;
        ends_over(
            &rt,
            &["make", "0", "1", "m"],
            &mut files,
            STEADY,
            (12, b"", "snel: m: exists already\n")
        )
    );
    Ok(())
}
