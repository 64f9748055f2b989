//! Calls of `snel` over files and outputs in memory, and what they end with.
use snel_command::snel;
use snel_device::{MemFiles, MemInput, MemOut, OpenGate, SteadyInput};
use snel_values::{OutOfMemory, Words};
use std::alloc::{AllocError, Global};
use std::random::RandomSource;
use std::thread::Threads;

/// The calls of the files that fail, and the puts to the output and to the error output that do, each with what it keeps.
pub type Failing<'a> = (&'a [u32], &'a [(u32, u32)], &'a [(u32, u32)]);

/// Nothing fails.
pub const STEADY: Failing<'static> = (&[], &[], &[]);

/// The status that a call is to end with, what it is to write on the output, and what on the error output.
pub type Wanted<'a> = (u8, &'a [u8], &'a str);

// One block with the rows {"a":1,"b":"x"}, {"a":null} and {"b":7}.
const THREE_ROWS: [u8; 82] = [
    0xe0, 0x01, 0x00, 0xea, 0xe9, 0x81, 0x83, 0xd6, 0x87, 0xb4, 0x81, 0x61, 0x81, 0x62, 0xd6, 0x8a,
    0x21, 0x01, 0x8b, 0x81, 0x78, 0xd2, 0x8a, 0x0f, 0xd3, 0x8b, 0x21, 0x07, 0x53, 0x4e, 0x58, 0x31,
    0x00, 0x00, 0x00, 0x00, 0x00, 0x01, 0x00, 0x00, 0x00, 0x00, 0x00, 0x00, 0x00, 0x00, 0x00, 0x00,
    0x00, 0x1c, 0x00, 0x00, 0x00, 0x03, 0x00, 0x00, 0x00, 0x00, 0x00, 0x00, 0x00, 0x01, 0x00, 0x00,
    0x00, 0x00, 0x00, 0x00, 0x00, 0x00, 0x00, 0x00, 0x00, 0x00, 0x00, 0x00, 0x00, 0x1c, 0x53, 0x4e,
    0x58, 0x31,
];

// A block file without blocks.
const NO_BLOCKS: [u8; 22] = [
    0x53, 0x4e, 0x58, 0x31, 0x00, 0x00, 0x00, 0x00, 0x00, 0x00, 0x00, 0x00, 0x00, 0x00, 0x00, 0x00,
    0x00, 0x00, 0x53, 0x4e, 0x58, 0x31,
];

/// Whether a call of these words over the stored files ends so.
pub fn ends<R: Threads + Sync + RandomSource + AllocGlobal>(
    rt: &R,
    texts: &[&str],
    failing: Failing<'_>,
    wanted: Wanted<'_>,
) -> bool {
    match stored(rt.alloc(), failing.0) {
        Ok(mut files) => ends_over(rt, texts, &mut files, failing, wanted),
        Err(_) => false,
    }
}

/// Whether a query over a file of this name and these bytes ends so.
pub fn ends_on<R: Threads + Sync + RandomSource + AllocGlobal>(
    rt: &R,
    sql: &str,
    bytes: &[u8],
    wanted: Wanted<'_>,
) -> bool {
    match one_file(rt.alloc(), bytes) {
        Ok(mut files) => ends_over(rt, &["query", sql, "rows"], &mut files, STEADY, wanted),
        Err(_) => false,
    }
}

/// Whether a call of these words over these files ends so.
pub fn ends_over<R: Threads + Sync + RandomSource + AllocGlobal>(
    rt: &R,
    texts: &[&str],
    files: &mut MemFiles,
    failing: Failing<'_>,
    wanted: Wanted<'_>,
) -> bool {
    match words_of(rt.alloc(), texts) {
        Ok(words) => ends_by(rt, &words, files, failing, wanted),
        Err(_) => false,
    }
}

fn ends_by<R: Threads + Sync + RandomSource + AllocGlobal>(
    rt: &R,
    words: &Words,
    files: &mut MemFiles,
    failing: Failing<'_>,
    wanted: Wanted<'_>,
) -> bool {
    match MemOut::new(rt.alloc(), failing.1) {
        Ok(mut out) => ends_into(rt, words, files, &mut out, failing.2, wanted),
        Err(_) => false,
    }
}

fn ends_into<R: Threads + Sync + RandomSource + AllocGlobal>(
    rt: &R,
    words: &Words,
    files: &mut MemFiles,
    out: &mut MemOut,
    failing: &[(u32, u32)],
    wanted: Wanted<'_>,
) -> bool {
    match MemOut::new(rt.alloc(), failing) {
        Ok(mut err) => {
            let status = status_of(rt, words, files, out, &mut err);
            status == wanted.0 && out.bytes() == wanted.1 && err.bytes() == wanted.2.as_bytes()
        }
        Err(_) => false,
    }
}

// The status of a call without input.
fn status_of<R: Threads + Sync + RandomSource + AllocGlobal>(
    rt: &R,
    words: &Words,
    files: &mut MemFiles,
    out: &mut MemOut,
    err: &mut MemOut,
) -> u8 {
    let mut input = SteadyInput::new(&[]);
    snel(
        rt,
        rt.alloc(),
        words,
        files,
        &mut input,
        out,
        err,
        &OpenGate,
    )
}

/// Whether a call of these words over these files and this input ends so. One byte comes with each call of the input, or 4,096
/// of a long one; of its calls those of these numbers fail.
pub fn ends_with<R: Threads + Sync + RandomSource + AllocGlobal>(
    rt: &R,
    texts: &[&str],
    files: &mut MemFiles,
    lines: (&[u8], &[u32]),
    puts: &[(u32, u32)],
    wanted: Wanted<'_>,
) -> bool {
    let alloc = rt.alloc();
    let piece = if lines.0.len() < 4096 { 1 } else { 4096 };
    let (Ok(words), Ok(mut input)) = (
        words_of(alloc, texts),
        MemInput::new(alloc, lines.0, piece, lines.1),
    ) else {
        return false;
    };
    let (Ok(mut out), Ok(mut err)) = (MemOut::new(alloc, puts), MemOut::new(alloc, &[])) else {
        return false;
    };
    let status = snel(
        rt, alloc, &words, files, &mut input, &mut out, &mut err, &OpenGate,
    );
    status == wanted.0 && out.bytes() == wanted.1 && err.bytes() == wanted.2.as_bytes()
}

/// These texts as the words of a call.
pub fn words_of(alloc: Global, texts: &[&str]) -> Result<Words, OutOfMemory> {
    let mut words = Words::new(alloc);
    for text in texts {
        words.push(text)?;
    }
    Ok(words)
}

/// The file `rows` has three rows; `cut` is the same less its last byte, and `damaged` has a wrong first byte.
pub fn stored(alloc: Global, failing: &[u32]) -> Result<MemFiles, AllocError> {
    let mut damaged = THREE_ROWS;
    damaged[0] = 0;
    let contents: [(&str, &[u8]); 5] = [
        ("rows", &THREE_ROWS),
        ("cut", &THREE_ROWS[..81]),
        ("damaged", &damaged),
        ("none", &NO_BLOCKS),
        ("empty", &[]),
    ];
    let mut files = MemFiles::new(alloc, failing)?;
    for (name, bytes) in contents {
        files.insert(name, bytes)?;
    }
    Ok(files)
}

// The file `rows` alone.
fn one_file(alloc: Global, bytes: &[u8]) -> Result<MemFiles, AllocError> {
    let mut files = MemFiles::new(alloc, &[])?;
    files.insert("rows", bytes)?;
    Ok(files)
}
