//! Calls that pack lines, and what they leave of the files.
use command_calls::{ends_with, stored};
use snel_device::MemFiles;
use std::alloc::{AllocError, Global};
use std::test::Fail;

const THREE: &[u8] = b"{\"a\":1,\"b\":\"x\"}\n{\"a\":null}\n{\"b\":7}\n";

const FRACTION: &[u8] = b"{\"a\":1}\n{\"a\":2}\n{\"a\":0.5}\n{\"a\":4}\n";

// No files, of whose calls these fail.
fn no_files(alloc: Global, failing: &[u32]) -> Result<MemFiles, AllocError> {
    MemFiles::new(alloc, failing)
}

// Words, the input, and what the call ends with over no files.
static CALLS: [(&[&str], &[u8], u8, &str, &str); 14] = [
    (&["pack", "p"], b"", 0, "rows 0, blocks 0, dropped 0\n", ""),
    (
        &["pack", "p"],
        THREE,
        0,
        "rows 3, blocks 1, dropped 0\n",
        "",
    ),
    (&["pack", "p"], FRACTION, 11, "", "snel: line 3: number\n"),
    (
        &["pack", "--drop-fractions", "p"],
        FRACTION,
        0,
        "rows 4, blocks 1, dropped 1\n",
        "",
    ),
    (
        &["pack", "--drop-fractions", "p"],
        b"{\"a\":[1,0.5],\"b\":2.5}",
        0,
        "rows 1, blocks 1, dropped 2\n",
        "",
    ),
    (
        &["pack", "p"],
        b"[1]",
        11,
        "",
        "snel: line 1: not an object\n",
    ),
    (
        &["pack", "p"],
        b"\n{}\n{\n",
        11,
        "",
        "snel: line 3: not json\n",
    ),
    (
        &["pack", "--time", "ts", "--block", "1024", "p"],
        b"{}\n \n{}\n",
        0,
        "rows 2, blocks 1, dropped 0\n",
        "",
    ),
    (
        &["pack", "--block", "1023", "p"],
        b"",
        2,
        "",
        "snel: words not understood\n",
    ),
    (
        &["pack", "--block", "1000001", "p"],
        b"",
        2,
        "",
        "snel: words not understood\n",
    ),
    (
        &["pack", "--time", "", "p"],
        b"",
        2,
        "",
        "snel: words not understood\n",
    ),
    (
        &["pack", "--drop-fractions", "--time", "ts", "p"],
        b"",
        2,
        "",
        "snel: words not understood\n",
    ),
    (&["pack"], b"", 2, "", "snel: words not understood\n"),
    (
        &["pack", "p", "q"],
        b"",
        2,
        "",
        "snel: words not understood\n",
    ),
];

#[test]
fn each_pack_ends_so(rt: HostRuntime) -> Result<(), Fail> {
    for (words, lines, status, out, err) in &CALLS {
        let mut files = no_files(rt.alloc(), &[])?;
        assert!(rt;
            ends_with(
                &rt,
                words,
                &mut files,
                (lines, &[]),
                &[],
                (*status, out.as_bytes(), err)
            ),
            "{words:?}"
        );
    }
    Ok(())
}

// Rows of weight 24 fill blocks of weight 1,024: 42, 42 and 16.
#[test]
fn rows_are_cut_by_their_weight(rt: HostRuntime) -> Result<(), Fail> {
    let mut lines = String::new(rt.alloc());
    for number in 0u32..100 {
        let line = format!(in rt.alloc(); "{{\"k\":{number}}}\n")?;
        lines.push_str(line.as_str())?;
    }
    let mut files = no_files(rt.alloc(), &[])?;
    let wanted = (0, b"rows 100, blocks 3, dropped 0\n".as_slice(), "");
    assert!(rt;
        ends_with(
            &rt,
            &["pack", "--block", "1024", "p"],
            &mut files,
            (lines.as_bytes(), &[]),
            &[],
            wanted
        )
    );
    Ok(())
}

// The files of three rows and of none are those that are stored.
#[test]
fn the_bytes_of_the_file_are_these(rt: HostRuntime) -> Result<(), Fail> {
    let mut files = stored(rt.alloc(), &[])?;
    let three = (0, b"rows 3, blocks 1, dropped 0\n".as_slice(), "");
    assert!(rt; ends_with(&rt, &["pack", "p"], &mut files, (THREE, &[]), &[], three));
    assert!(rt; files.bytes("p") == files.bytes("rows"));
    let none = (0, b"rows 0, blocks 0, dropped 0\n".as_slice(), "");
    assert!(rt; ends_with(&rt, &["pack", "q"], &mut files, (b"", &[]), &[], none));
    assert!(rt; files.bytes("q") == files.bytes("none"));
    Ok(())
}

// A file that is there already stays as it is.
#[test]
fn no_file_is_overwritten(rt: HostRuntime) -> Result<(), Fail> {
    let mut files = stored(rt.alloc(), &[])?;
    let exists = (12, b"".as_slice(), "snel: none: exists already\n");
    assert!(rt;
        ends_with(
            &rt,
            &["pack", "none"],
            &mut files,
            (THREE, &[]),
            &[],
            exists
        )
    );
    let same = stored(rt.alloc(), &[])?;
    assert!(rt; files.bytes("none") == same.bytes("none"));
    Ok(())
}

// What was packed is checked, isn't packed again, and is answered.
#[test]
fn what_was_packed_is_read(rt: HostRuntime) -> Result<(), Fail> {
    let mut files = no_files(rt.alloc(), &[])?;
    let three = (0, b"rows 3, blocks 1, dropped 0\n".as_slice(), "");
    assert!(rt; ends_with(&rt, &["pack", "p"], &mut files, (THREE, &[]), &[], three));
    let sound = (0, b"p: blocks 1, rows 3\n".as_slice(), "");
    assert!(rt; ends_with(&rt, &["check", "p"], &mut files, (b"", &[]), &[], sound));
    let exists = (12, b"".as_slice(), "snel: p: exists already\n");
    assert!(rt; ends_with(&rt, &["pack", "p"], &mut files, (THREE, &[]), &[], exists));
    let dropped = (0, b"rows 1, blocks 1, dropped 2\n".as_slice(), "");
    let words = ["pack", "--drop-fractions", "q"];
    let lines = b"{\"a\":[1,0.5],\"b\":2.5}";
    assert!(rt; ends_with(&rt, &words, &mut files, (lines, &[]), &[], dropped));
    let answer = (0, b"{\"a\":[1,null]}\n".as_slice(), "");
    let words = ["query", "SELECT * FROM logs", "q"];
    assert!(rt; ends_with(&rt, &words, &mut files, (b"", &[]), &[], answer));
    Ok(())
}

// Reading the input, making the file, adding to it and the put may fail.
#[test]
fn each_fault_has_its_status(rt: HostRuntime) -> Result<(), Fail> {
    let unread = (8, b"".as_slice(), "snel: input: read failed\n");
    let mut files = no_files(rt.alloc(), &[])?;
    assert!(rt; ends_with(&rt, &["pack", "p"], &mut files, (THREE, &[5]), &[], unread));
    let unwritten = (9, b"".as_slice(), "snel: write failed\n");
    for call in 1u32..3 {
        let mut files = no_files(rt.alloc(), &[call])?;
        assert!(rt;
            ends_with(
                &rt,
                &["pack", "p"],
                &mut files,
                (THREE, &[]),
                &[],
                unwritten
            ),
            "{call}"
        );
    }
    let cut = (9, b"rows".as_slice(), "snel: write failed\n");
    let mut files = no_files(rt.alloc(), &[])?;
    assert!(rt;
        ends_with(
            &rt,
            &["pack", "p"],
            &mut files,
            (THREE, &[]),
            &[(1, 4)],
            cut
        )
    );
    Ok(())
}
