use snel_device::MemFiles;
use std::alloc::{AllocError, Global};
use time_index::{Entries, Entry, Index, IndexFault, read_index};

// No blocks and no field.
static EMPTY: [u8; 22] = [
    0x53, 0x4E, 0x58, 0x31, 0, 0, 0, 0, 0, 0, 0, 0, 0, 0, 0, 0, 0, 0, 0x53, 0x4E, 0x58, 0x31,
];

// One block of 21 bytes and one row, no field: the index from byte 21 on, its entry from byte 31
// on, the tail from byte 63 on.
static ONE_BLOCK: [u8; 75] = [
    0xE0, 0x01, 0x00, 0xEA, 0xE9, 0x81, 0x83, 0xD6, 0x87, 0xB4, 0x81, 0x61, 0x81, 0x62, 0xD6, 0x8A,
    0x21, 0x01, 0x8B, 0x81, 0x78, 0x53, 0x4E, 0x58, 0x31, 0, 0, 0, 0, 0, 1, 0, 0, 0, 0, 0, 0, 0, 0,
    0, 0, 0, 21, 0, 0, 0, 1, 0, 0, 0, 0, 0, 0, 0, 1, 0, 0, 0, 0, 0, 0, 0, 0, 0, 0, 0, 0, 0, 0, 0,
    21, 0x53, 0x4E, 0x58, 0x31,
];

// What reading the index of a file of these bytes answers, where the calls with these numbers fail.
fn read_of(alloc: Global, bytes: &[u8], failing: &[u32]) -> Result<Index, IndexFault> {
    match MemFiles::new(alloc, failing) {
        Ok(mut files) => {
            let held = files.insert("logs", bytes).is_ok();
            let read = if held {
                read_index(alloc, &mut files, "logs")
            } else {
                Err(IndexFault::OutOfMemory)
            };
            drop(files);
            read
        }
        Err(_) => Err(IndexFault::OutOfMemory),
    }
}

// The fault, if it is one.
fn fault_of(alloc: Global, bytes: &[u8], failing: &[u32]) -> Option<IndexFault> {
    read_of(alloc, bytes, failing).err()
}

// A file of three bytes and two blocks, with the field `ts`; the second block's entry starts there.
fn two_blocks(alloc: Global, second: u64) -> Result<Vec<u8>, AllocError> {
    let mut file = Vec::new(alloc);
    file.extend_from_slice(&[1, 2, 3])?;
    file.extend_from_slice(b"SNX1\0\x02ts\0\0\0\x02")?;
    file.extend_from_slice(&[0, 0, 0, 0, 0, 0, 0, 0, 0, 0, 0, 2, 0, 0, 0, 1])?;
    file.extend_from_slice(&(-2i64).to_be_bytes())?;
    file.extend_from_slice(&(5i64).to_be_bytes())?;
    file.extend_from_slice(&second.to_be_bytes())?;
    file.extend_from_slice(&[0, 0, 0, 1, 0, 1, 0, 0])?;
    file.extend_from_slice(&i64::MIN.to_be_bytes())?;
    file.extend_from_slice(&i64::MAX.to_be_bytes())?;
    file.extend_from_slice(&[0, 0, 0, 0, 0, 0, 0, 3, 0x53, 0x4E, 0x58, 0x31])?;
    Ok(file)
}

fn is_index(index: &Index, field: &str, entries: &[Entry]) -> bool {
    index.field.as_str() == field && index.entries.as_slice() == entries
}

// Whether this is the index of the bytes.
fn has_index(alloc: Global, bytes: &[u8], field: &str, entries: &[Entry]) -> bool {
    match read_of(alloc, bytes, &[]) {
        Ok(index) => {
            let right = is_index(&index, field, entries);
            drop(index);
            right
        }
        Err(_) => false,
    }
}

// The same of the file of two blocks.
fn two_have_index(alloc: Global, second: u64, field: &str, entries: &[Entry]) -> bool {
    match two_blocks(alloc, second) {
        Ok(file) => {
            let right = has_index(alloc, file.as_slice(), field, entries);
            drop(file);
            right
        }
        Err(_) => false,
    }
}

fn one() -> Entry {
    Entry {
        start: 0,
        length: 21,
        rows: 1,
        least: 1,
        greatest: 0,
    }
}

fn two() -> [Entry; 2] {
    [
        Entry {
            start: 0,
            length: 2,
            rows: 1,
            least: -2,
            greatest: 5,
        },
        Entry {
            start: 2,
            length: 1,
            rows: 65_536,
            least: i64::MIN,
            greatest: i64::MAX,
        },
    ]
}

#[test]
fn reads_files(rt: HostRuntime) {
    assert!(rt; has_index(rt.alloc(), &EMPTY, "", &[]));
    assert!(rt; has_index(rt.alloc(), &ONE_BLOCK, "", &[one()]));
    assert!(rt; two_have_index(rt.alloc(), 2, "ts", &two()));
}

// Whether the file of two blocks is refused.
fn two_are_refused(alloc: Global, second: u64) -> bool {
    match two_blocks(alloc, second) {
        Ok(file) => {
            let fault = fault_of(alloc, file.as_slice(), &[]);
            drop(file);
            fault == Some(IndexFault::NotAFile)
        }
        Err(_) => false,
    }
}

// Nothing, one with a byte behind its tail, and a name that isn't UTF-8; and the last with a name that is.
static OTHERS: [(&[u8], Option<IndexFault>); 4] = [
    (&[], Some(IndexFault::NotAFile)),
    (
        b"SNX1\0\0\0\0\0\0\0\0\0\0\0\0\0\0SNX1\0",
        Some(IndexFault::NotAFile),
    ),
    (
        b"SNX1\0\x01\xFF\0\0\0\0\0\0\0\0\0\0\0\0SNX1",
        Some(IndexFault::NotAFile),
    ),
    (b"SNX1\0\x01t\0\0\0\0\0\0\0\0\0\0\0\0SNX1", None),
];

#[test]
fn refuses_other_files(rt: HostRuntime) {
    for (bytes, wanted) in &OTHERS {
        assert!(rt; fault_of(rt.alloc(), *bytes, &[]) == *wanted, "{bytes:?}");
    }
    // a file less its last byte, and one less its first
    let last = fault_of(rt.alloc(), &ONE_BLOCK[..74], &[]);
    let first = fault_of(rt.alloc(), &EMPTY[1..], &[]);
    assert!(rt; last == Some(IndexFault::NotAFile) && first == Some(IndexFault::NotAFile));
    // blocks that overlap, and blocks that lie apart
    assert!(rt; two_are_refused(rt.alloc(), 1));
    assert!(rt; two_are_refused(rt.alloc(), 3));
}

// The fault of the one block's file with one byte changed.
fn fault_with(alloc: Global, place: usize, byte: u8) -> Option<IndexFault> {
    let mut bytes = ONE_BLOCK;
    if let Some(there) = bytes.get_mut(place) {
        *there = byte;
    }
    fault_of(alloc, &bytes, &[])
}

// Places, and bytes that a file of the one block may not have there: the magic of the index; a longer name; fewer and
// more entries than lie there; a first start of 1; blocks of no bytes, of 20 and of 22; no rows and 65,537 rows; a tail
// that names 20, 22 and a start past the end; the magic of the tail.
static CHANGES: [(usize, u8); 14] = [
    (24, 0x32),
    (26, 1),
    (30, 0),
    (30, 2),
    (38, 1),
    (42, 0),
    (42, 20),
    (42, 22),
    (46, 0),
    (44, 1),
    (70, 20),
    (70, 22),
    (63, 0x80),
    (74, 0x32),
];

#[test]
fn refuses_each_changed_byte(rt: HostRuntime) {
    for (place, byte) in &CHANGES {
        let fault = fault_with(rt.alloc(), *place, *byte);
        assert!(rt; fault == Some(IndexFault::NotAFile), "{place}");
    }
    // a block's first byte and a least time are another matter
    assert!(rt; fault_with(rt.alloc(), 0, 0).is_none());
    assert!(rt; fault_with(rt.alloc(), 47, 0x80).is_none());
}

// The call that fails, and the fault. There is no fourth call.
static FAILING: [(u32, Option<IndexFault>); 4] = [
    (1, Some(IndexFault::Failed)),
    (2, Some(IndexFault::Failed)),
    (3, Some(IndexFault::Failed)),
    (4, None),
];

// The fault where there is no file.
fn absent(alloc: Global) -> Option<IndexFault> {
    match MemFiles::new(alloc, &[1]) {
        Ok(mut files) => {
            let fault = read_index(alloc, &mut files, "logs").err();
            drop(files);
            fault
        }
        Err(_) => None,
    }
}

#[test]
fn tells_what_fails(rt: HostRuntime) {
    for (call, wanted) in &FAILING {
        assert!(rt;
            fault_of(rt.alloc(), &ONE_BLOCK, &[*call]) == *wanted,
            "{call}"
        );
    }
    // of 21 bytes no tail is read
    let short = fault_of(rt.alloc(), &EMPTY[1..], &[2]);
    assert!(rt; short == Some(IndexFault::NotAFile));
    assert!(rt; absent(rt.alloc()) == Some(IndexFault::Absent));
}

fn keeps(alloc: Global, entry: Entry) -> bool {
    let mut entries = Entries::new(alloc);
    let empty = entries.is_empty();
    let kept = entries.push(entry).is_ok() && entries.len() == 1;
    let right = kept && entries.get(0).copied() == Some(entry) && entries.get(1).is_none();
    drop(entries);
    empty && right
}

#[test]
fn keeps_entries(rt: HostRuntime) {
    assert!(rt; keeps(rt.alloc(), one()));
}
