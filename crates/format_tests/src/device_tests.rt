use snel_device::{
    Failed, Files, FreshFault, HostFiles, HostInput, HostOut, Input, MemFiles, MemInput, MemOut,
    Out, SizeFault,
};
use std::alloc::Global;
use std::io::BufWriter;
use std::test::Fail;
use std::{env, fs, process, rt};

const HELD: &str = "held";

const NEW: &str = "new";

fn is_held(files: &MemFiles, wanted: &[u8]) -> bool {
    match files.bytes(HELD) {
        Some(bytes) => bytes == wanted,
        None => false,
    }
}

// The first three calls: the second asks for an absent file and the third makes one that is there, which no schedule
// changes.
fn asks(files: &mut MemFiles, fails: bool) -> bool {
    let size = files.size(HELD);
    let absent = files.size(NEW);
    let exists = files.fresh(HELD);
    let wanted = if fails { Err(SizeFault::Failed) } else { Ok(5) };
    size == wanted && absent == Err(SizeFault::Absent) && exists == Err(FreshFault::Exists)
}

// The fourth call.
fn reads(files: &mut MemFiles, fails: bool) -> bool {
    let Some(held) = files.bytes(HELD) else {
        return false
    };
    if held.len() != 5 {
        return false;
    }
    let mut part = [0u8; 3];
    let read = files.read_at(HELD, 1, &mut part).is_ok();
    read != fails && (fails || part == *b"ell")
}

// The fifth call.
fn makes(files: &mut MemFiles, fails: bool) -> bool {
    let made = files.fresh(NEW).is_ok();
    made != fails && files.bytes(NEW).is_some() == made
}

// The sixth call.
fn grows(files: &mut MemFiles, fails: bool) -> bool {
    if files.bytes(HELD).is_none() {
        return false;
    }
    let grown = files.append(HELD, b" you").is_ok();
    let wanted = if fails {
        b"hello".as_slice()
    } else {
        b"hello you".as_slice()
    };
    grown != fails && is_held(files, wanted)
}

// Whether of six calls in their order these fail.
fn six_calls(files: &mut MemFiles, fails: &[bool; 6]) -> bool {
    asks(files, fails[0])
        && reads(files, fails[3])
        && makes(files, fails[4])
        && grows(files, fails[5])
}

fn calls_fail(alloc: Global, failing: &[u32], fails: &[bool; 6]) -> bool {
    match MemFiles::new(alloc, failing) {
        Ok(mut files) => {
            let right = files.insert(HELD, b"hello").is_ok() && six_calls(&mut files, fails);
            drop(files);
            right
        }
        Err(_) => false,
    }
}

// The calls that are to fail, and which of six calls do.
static FAILING: [(&[u32], [bool; 6]); 8] = [
    (&[], [false; 6]),
    (&[1], [true, false, false, false, false, false]),
    (&[2], [false; 6]),
    (&[3], [false; 6]),
    (&[4], [false, false, false, true, false, false]),
    (&[5], [false, false, false, false, true, false]),
    (&[6], [false, false, false, false, false, true]),
    (&[7, 6, 1, 0], [true, false, false, false, false, true]),
];

#[test]
fn memory_files_fail_at_the_chosen_calls(rt: HostRuntime) {
    for (failing, fails) in &FAILING {
        assert!(rt; calls_fail(rt.alloc(), *failing, fails), "{failing:?}");
    }
}

// What each read answers, and the bytes of its piece; no count where it fails.
static PIECES: [(Option<usize>, &[u8]); 5] = [
    (Some(2), b"he"),
    (None, b""),
    (Some(2), b"ll"),
    (Some(1), b"o"),
    (Some(0), b""),
];

// Whether a read answers so.
fn gives(input: &mut MemInput, count: Option<usize>, bytes: &[u8]) -> bool {
    let mut piece = [0u8; 4];
    input.read(&mut piece).ok() == count && piece.starts_with(bytes)
}

fn gives_all(input: &mut MemInput, pieces: &[(Option<usize>, &[u8])]) -> bool {
    let mut right = true;
    for (count, bytes) in pieces {
        right = gives(input, *count, *bytes) && right;
    }
    right
}

#[test]
fn memory_input_gives_its_bytes_in_pieces(rt: HostRuntime) -> Result<(), Fail> {
    let mut input = MemInput::new(rt.alloc(), b"hello", 2, &[2])?;
    let right = gives_all(&mut input, &PIECES);
    drop(input);
    assert!(rt; right);
    Ok(())
}

// The puts that are to fail, and how many bytes each keeps; whether each of two puts is taken; and what is kept.
static PUTS: [(&[(u32, u32)], bool, bool, &[u8]); 7] = [
    (&[], true, true, b"abcde"),
    (&[(1, 0)], false, true, b"de"),
    (&[(1, 2)], false, true, b"abde"),
    (&[(1, 3)], false, true, b"abcde"),
    (&[(1, 9), (1, 0)], false, true, b"abcde"),
    (&[(2, 1)], true, false, b"abcd"),
    (&[(3, 0), (2, 0), (1, 1)], false, false, b"a"),
];

fn puts_keep(
    alloc: Global,
    failing: &[(u32, u32)],
    first: bool,
    second: bool,
    kept: &[u8],
) -> bool {
    match MemOut::new(alloc, failing) {
        Ok(mut out) => {
            let taken = out.put(b"abc").is_ok() == first;
            let right = out.put(b"de").is_ok() == second && taken && out.bytes() == kept;
            drop(out);
            right
        }
        Err(_) => false,
    }
}

#[test]
fn memory_sink_keeps_what_a_failing_call_says(rt: HostRuntime) {
    for (failing, first, second, kept) in &PUTS {
        assert!(rt;
            puts_keep(rt.alloc(), *failing, *first, *second, *kept),
            "{failing:?}"
        );
    }
}

// Whether a file is made once, and grows.
fn is_made<R: rt::Files>(files: &mut HostFiles<'_, R>, name: &str) -> bool {
    let absent = files.size(name) == Err(SizeFault::Absent);
    let lost = files.append(name, b"lost") == Err(Failed);
    let made = files.fresh(name) == Ok(()) && files.fresh(name) == Err(FreshFault::Exists);
    let grown = files.append(name, b"hel") == Ok(()) && files.append(name, b"lo") == Ok(());
    absent && lost && made && grown && files.size(name) == Ok(5)
}

// Whether the file of `hello` is read within its end and not past it.
fn is_read<R: rt::Files>(files: &mut HostFiles<'_, R>, name: &str) -> bool {
    let mut part = [0u8; 3];
    let read = files.read_at(name, 1, &mut part) == Ok(()) && part == *b"ell";
    let past = files.read_at(name, 3, &mut part) == Err(Failed);
    let again = files.read_at(name, 2, &mut part) == Ok(()) && part == *b"llo";
    let grown = files.append(name, b"!") == Ok(());
    read && past && again && grown && files.read_at(name, 3, &mut part) == Ok(()) && part == *b"lo!"
}

// Whether a read of another file reads that file, and one of the first the first again.
fn is_told_apart<R: rt::Files>(files: &mut HostFiles<'_, R>, name: &str, other: &str) -> bool {
    let mut part = [0u8; 3];
    let made = files.fresh(other) == Ok(()) && files.append(other, b"other") == Ok(());
    let read = files.read_at(other, 1, &mut part) == Ok(()) && part == *b"the";
    made && read && files.read_at(name, 1, &mut part) == Ok(()) && part == *b"ell"
}

#[test]
fn host_files_make_grow_and_read_a_file(rt: HostRuntime) -> Result<(), Fail> {
    let alloc = rt.alloc();
    let temporary = env::temp_dir(&rt)?;
    let id = process::id(rt.process());
    let folder = format!(in alloc; "{}/format_tests_{id}", temporary.display())?;
    let _ = fs::remove_dir_all(&rt, folder.as_str());
    fs::create_dir_all(&rt, folder.as_str())?;
    let name = format!(in alloc; "{folder}/made")?;
    let other = format!(in alloc; "{folder}/other")?;
    let below = format!(in alloc; "{folder}/none/made")?;
    let under = format!(in alloc; "{name}/below")?;
    let mut files = HostFiles::new(&rt, alloc);
    let right = is_made(&mut files, &name) && is_read(&mut files, &name);
    assert!(rt; right);
    assert!(rt; is_told_apart(&mut files, &name, &other));
    assert_eq!(rt; files.fresh(&below), Err(FreshFault::Failed));
    assert_eq!(rt; files.size(&under), Err(SizeFault::Failed));
    fs::remove_dir_all(&rt, folder.as_str())?;
    Ok(())
}

// Whether a read answers so many bytes, these.
fn is_given(input: &mut HostInput<&[u8]>, count: usize, bytes: &[u8]) -> bool {
    let mut piece = [0u8; 4];
    input.read(&mut piece) == Ok(count) && piece.starts_with(bytes)
}

#[test]
fn host_input_reads_to_the_end(rt: HostRuntime) {
    let mut input = HostInput::new(b"hello".as_slice());
    let first = is_given(&mut input, 4, b"hell");
    let last = is_given(&mut input, 1, b"o");
    let end = is_given(&mut input, 0, b"");
    assert!(rt; first && last && end);
}

#[test]
fn host_sink_fails_where_a_write_takes_nothing(rt: HostRuntime) {
    let mut room = [0u8; 4];
    let mut out = HostOut::new(room.as_mut_slice());
    let taken = out.put(b"abc") == Ok(()) && out.put(b"") == Ok(());
    let fails = out.put(b"de") == Err(Failed) && out.put(b"") == Ok(());
    drop(out);
    assert!(rt; taken && fails && room == *b"abcd");
}

#[test]
fn host_sink_gathers_what_it_is_given(rt: HostRuntime) -> Result<(), Fail> {
    let mut room = [0u8; 4];
    let held = BufWriter::with_capacity(rt.alloc(), 16, room.as_mut_slice())?;
    let mut out = HostOut::new(held);
    let gathered = out.put(b"ab") == Ok(()) && out.put(b"cd") == Ok(()) && out.end() == Ok(());
    let ended = out.put(b"ef") == Ok(()) && out.end() == Err(Failed);
    drop(out);
    assert!(rt; gathered && ended && room == *b"abcd");
    Ok(())
}
