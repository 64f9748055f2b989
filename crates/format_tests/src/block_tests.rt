use block_file::{Block, BlockFault, open_block};
use ion_cells::{Cell, Kind};
use std::alloc::{AllocError, Global};

// The label, the kind, the number and the text of a pair.
type Shown = (u32, Kind, Option<i64>, Option<&'static str>);

fn is_pair(wanted: Option<&Shown>, label: u32, cell: &Cell<'_>) -> bool {
    match wanted {
        Some(one) => {
            let (of, kind, number, text) = *one;
            label == of && cell.kind() == kind && cell.int() == number && cell.text() == text
        }
        None => false,
    }
}

// Whether the row has these pairs.
fn shows(row: &Cell<'_>, wanted: &[Shown]) -> bool {
    let Some(fields) = row.fields() else {
        return false
    };
    let mut count = 0usize;
    let mut same = true;
    for (label, cell) in fields {
        same = is_pair(wanted.get(count), label, &cell) && same;
        count = count.saturating_add(1);
    }
    same && count == wanted.len()
}

// The pairs of the rows `{"a":1,"b":"x"}`, `{"a":null}` and `{"b":7}`.
static PAIRS: [&[Shown]; 3] = [
    &[
        (10, Kind::Int, Some(1), None),
        (11, Kind::Text, None, Some("x")),
    ],
    &[(10, Kind::Null, None, None)],
    &[(11, Kind::Int, Some(7), None)],
];

fn is_block(block: &Block<'_>) -> bool {
    if block.rows() != 3 {
        return false;
    }
    let mut right = block.table().last() == 11 && block.table().number_of("b") == Some(11);
    for at in 0..3u32 {
        right = shows(&block.row(at), PAIRS[at as usize]) && right;
    }
    right
}

fn opens_rightly(alloc: Global, bytes: &[u8]) -> bool {
    match open_block(alloc, bytes, 3) {
        Ok(block) => {
            let right = is_block(&block);
            drop(block);
            right
        }
        Err(_) => false,
    }
}

// The marker, the table of `a` and `b`, and these rows.
static BLOCK: [u8; 28] = [
    0xE0, 0x01, 0x00, 0xEA, 0xE9, 0x81, 0x83, 0xD6, 0x87, 0xB4, 0x81, 0x61, 0x81, 0x62, 0xD6, 0x8A,
    0x21, 0x01, 0x8B, 0x81, 0x78, 0xD2, 0x8A, 0x0F, 0xD3, 0x8B, 0x21, 0x07,
];

#[test]
fn opens_a_block_of_three_rows(rt: HostRuntime) {
    assert!(rt; opens_rightly(rt.alloc(), &BLOCK));
}

// How many rows the block has of which so many are asked for; none where it is damaged, and 0 where memory is wanting.
fn rows_of(alloc: Global, bytes: &[u8], rows: u32) -> Option<u32> {
    match open_block(alloc, bytes, rows) {
        Ok(block) => {
            let count = block.rows();
            drop(block);
            Some(count)
        }
        Err(BlockFault::Damaged) => None,
        Err(BlockFault::OutOfMemory) => Some(0),
    }
}

// Counts that aren't those of the block.
static COUNTS: [u32; 7] = [0, 1, 2, 4, 65_536, 65_537, 4_294_967_295];

#[test]
fn refuses_a_wrong_count(rt: HostRuntime) {
    for rows in &COUNTS {
        assert!(rt; rows_of(rt.alloc(), &BLOCK, *rows).is_none(), "{rows}");
    }
}

// The bytes behind a front, and so many times one byte.
fn joined(
    alloc: Global,
    front: &[u8],
    rest: &[u8],
    byte: u8,
    times: u32,
) -> Result<Vec<u8>, AllocError> {
    let mut bytes = Vec::from_slice(alloc, front)?;
    bytes.extend_from_slice(rest)?;
    for _ in 0..times {
        bytes.push(byte)?;
    }
    Ok(bytes)
}

// The rows of the bytes behind a front, where these are asked for.
fn rows_behind(alloc: Global, front: &[u8], rest: &[u8], rows: u32) -> Option<u32> {
    rows_of_long(alloc, front, (rest, 0, 0), rows)
}

// The same with so many times one byte behind both.
fn rows_of_long(
    alloc: Global,
    front: &[u8],
    (rest, byte, times): (&[u8], u8, u32),
    rows: u32,
) -> Option<u32> {
    match joined(alloc, front, rest, byte, times) {
        Ok(bytes) => {
            let count = rows_of(alloc, bytes.as_slice(), rows);
            drop(bytes);
            count
        }
        Err(_) => Some(0),
    }
}

// The marker and the table of `a` and `b`.
static HEAD: [u8; 14] = [
    0xE0, 0x01, 0x00, 0xEA, 0xE9, 0x81, 0x83, 0xD6, 0x87, 0xB4, 0x81, 0x61, 0x81, 0x62,
];

// Rows that are no rows of a block, behind a sound head, and how many are asked for.
static DAMAGED_ROWS: [(&str, &[u8], u32); 12] = [
    (
        "falling labels",
        &[
            0xD6, 0x8A, 0x21, 0x01, 0x8B, 0x81, 0x78, 0xD2, 0x8A, 0x0F, 0xD6, 0x8B, 0x81, 0x78,
            0x8A, 0x21, 0x01,
        ],
        3,
    ),
    (
        "a label twice",
        &[0xD6, 0x8A, 0x21, 0x01, 0x8A, 0x21, 0x01],
        1,
    ),
    ("a label past the table", &[0xD3, 0x8C, 0x21, 0x01], 1),
    ("a label below 10", &[0xD3, 0x89, 0x21, 0x01], 1),
    ("a negative zero", &[0xD3, 0x8A, 0x31, 0x00], 1),
    ("a null row", &[0xDF], 1),
    ("a list for a row", &[0xB0], 1),
    ("a number for a row", &[0x21, 0x01], 1),
    ("a byte behind the last row", &[0xD0, 0x0F], 1),
    ("a row behind the last row", &[0xD0, 0xD0], 1),
    ("a row cut short", &[0xD3, 0x8A, 0x21], 1),
    ("no row", &[], 1),
];

#[test]
fn refuses_damaged_rows(rt: HostRuntime) {
    for (what, rest, rows) in &DAMAGED_ROWS {
        let count = rows_behind(rt.alloc(), &HEAD, *rest, *rows);
        assert!(rt; count.is_none(), "{what}");
    }
}

// Heads that are none, of a block of one row or none.
static DAMAGED_HEADS: [(&str, &[u8]); 6] = [
    ("the marker alone", &[0xE0, 0x01, 0x00, 0xEA]),
    (
        "no marker",
        &[0xE9, 0x81, 0x83, 0xD6, 0x87, 0xB4, 0x81, 0x61, 0x81, 0x62],
    ),
    (
        "another version",
        &[
            0xE0, 0x01, 0x01, 0xEA, 0xE9, 0x81, 0x83, 0xD6, 0x87, 0xB4, 0x81, 0x61, 0x81, 0x62,
        ],
    ),
    (
        "falling texts",
        &[
            0xE0, 0x01, 0x00, 0xEA, 0xE9, 0x81, 0x83, 0xD6, 0x87, 0xB4, 0x81, 0x62, 0x81, 0x61,
        ],
    ),
    (
        "equal texts",
        &[
            0xE0, 0x01, 0x00, 0xEA, 0xE9, 0x81, 0x83, 0xD6, 0x87, 0xB4, 0x81, 0x61, 0x81, 0x61,
        ],
    ),
    ("no table", &[0xE0, 0x01, 0x00, 0xEA, 0xD0]),
];

#[test]
fn refuses_damaged_heads(rt: HostRuntime) {
    for (what, head) in &DAMAGED_HEADS {
        let end = rows_of(rt.alloc(), *head, 1);
        let count = rows_behind(rt.alloc(), *head, &[0xD0], 1);
        assert!(rt; end.is_none() && count.is_none(), "{what}");
    }
    assert!(rt; rows_behind(rt.alloc(), &HEAD, &[0xD0], 1) == Some(1));
}

// As many rows as there may be, and one more; as many bytes, 1,048,576, and one more: what stands behind the head, what
// stands behind it so many times, the rows that are asked for, and the rows of the block.
static LONG: [(&[u8], u8, u32, u32, Option<u32>); 4] = [
    (&[], 0xD0, 65_536, 65_536, Some(65_536)),
    (&[], 0xD0, 65_537, 65_537, None),
    (
        &[0xDE, 0x3F, 0x7F, 0xEE, 0x8A, 0x8E, 0x3F, 0x7F, 0xE9],
        0,
        1_048_553,
        1,
        Some(1),
    ),
    (
        &[0xDE, 0x3F, 0x7F, 0xEF, 0x8A, 0x8E, 0x3F, 0x7F, 0xEA],
        0,
        1_048_554,
        1,
        None,
    ),
];

#[test]
fn opens_as_many_rows_and_bytes_as_there_may_be(rt: HostRuntime) {
    for (rest, byte, times, rows, wanted) in &LONG {
        let count = rows_of_long(rt.alloc(), &HEAD, (*rest, *byte, *times), *rows);
        assert!(rt; count == *wanted, "{times}");
    }
}

// Places from which a chunk begins, the lanes that hold a row, a lane, and the number in its row.
static CHUNKS: [(u32, u16, u32, u8); 3] = [
    (0, 0xFFFF, 0, 1),
    (0, 0xFFFF, 15, 16),
    (16, 0x000F, 3, 20),
];

fn has_chunk(block: &Block<'_>, first: u32, live: u16, lane: u32, number: u8) -> bool {
    if first % 16 != 0 || first >= block.rows() || lane >= 16 || lane >= block.rows() - first {
        return false;
    }
    let chunk = block.chunk(first);
    let row = [0xD3, 0x8A, 0x21, number];
    chunk.live() == live && chunk.row(lane) == row.as_slice()
}

fn has_chunks(alloc: Global, bytes: &[u8]) -> bool {
    match open_block(alloc, bytes, 20) {
        Ok(block) => {
            let mut right = true;
            for (first, live, lane, number) in &CHUNKS {
                right = has_chunk(&block, *first, *live, *lane, *number) && right;
            }
            drop(block);
            right
        }
        Err(_) => false,
    }
}

// A block of twenty rows, `{"a":1}` to `{"a":20}`.
fn twenty(alloc: Global) -> Result<Vec<u8>, AllocError> {
    let mut bytes = Vec::from_slice(alloc, &HEAD)?;
    for i in 0..20u8 {
        bytes.extend_from_slice(&[0xD3, 0x8A, 0x21, i + 1])?;
    }
    Ok(bytes)
}

#[test]
fn hands_out_sixteen_rows_at_a_time(rt: HostRuntime) -> Result<(), AllocError> {
    let bytes = twenty(rt.alloc())?;
    let right = has_chunks(rt.alloc(), bytes.as_slice());
    drop(bytes);
    assert!(rt; right);
    Ok(())
}
