use ion_cells::{
    BadCell, Cell, CellHead, Kind, cell_at, check_cell, head, magnitude, only_payload, payload,
    var_uint,
};
use std::alloc::{AllocError, Global};

// The place after the cell at the front, under a table whose last number is 12.
fn end_of(cell: &[u8], depth: u8) -> Option<u32> {
    if cell.len() < 1 << 31 {
        check_cell(cell, 0, 12, depth).ok()
    } else {
        None
    }
}

// Whether the bytes are one cell.
fn is_cell(cell: &[u8], depth: u8) -> bool {
    match end_of(cell, depth) {
        Some(end) => end as usize == cell.len(),
        None => false,
    }
}

// One cell for each first byte that begins one, where texts have the numbers 10 to 12. No other byte begins a cell.
static CELLS: [&[u8]; 93] = [
    &[0x0F],
    &[0x10],
    &[0x11],
    &[0x1F],
    &[0x20],
    &[0x21, 1],
    &[0x22, 1, 1],
    &[0x23, 1, 1, 1],
    &[0x24, 1, 1, 1, 1],
    &[0x25, 1, 1, 1, 1, 1],
    &[0x26, 1, 1, 1, 1, 1, 1],
    &[0x27, 1, 1, 1, 1, 1, 1, 1],
    &[0x28, 0x7F, 0xFF, 0xFF, 0xFF, 0xFF, 0xFF, 0xFF, 0xFF],
    &[0x2E, 0x81, 1],
    &[0x2F],
    &[0x31, 1],
    &[0x32, 1, 1],
    &[0x33, 1, 1, 1],
    &[0x34, 1, 1, 1, 1],
    &[0x35, 1, 1, 1, 1, 1],
    &[0x36, 1, 1, 1, 1, 1, 1],
    &[0x37, 1, 1, 1, 1, 1, 1, 1],
    &[0x38, 0x80, 0, 0, 0, 0, 0, 0, 0],
    &[0x3E, 0x81, 1],
    &[0x3F],
    &[0x62, 0x80, 0x81],
    &[0x63, 0xC0, 0x0F, 0xB2],
    &[0x64, 0x80, 0x0F, 0xB2, 0x81],
    &[0x65, 0x80, 0x0F, 0xB2, 0x81, 0x82],
    &[0x66, 0x80, 0x00, 0x0F, 0xB2, 0x81, 0x82],
    &[0x67, 0x80, 0x0F, 0xB2, 0x81, 0x82, 0x80, 0xBB],
    &[0x68, 0x80, 0x0F, 0xB2, 0x81, 0x82, 0x97, 0xBB, 0xBB],
    &[0x69, 0x80, 0x0F, 0xB2, 0x81, 0x82, 0x80, 0x80, 0x80, 0xC1],
    &[
        0x6A, 0x80, 0x0F, 0xB2, 0x81, 0x82, 0x80, 0x80, 0x80, 0xC1, 9,
    ],
    &[
        0x6B, 0x80, 0x0F, 0xB2, 0x81, 0x82, 0x80, 0x80, 0x80, 0xC3, 0x03, 0xE7,
    ],
    &[
        0x6C, 0x80, 0x0F, 0xB2, 0x81, 0x82, 0x80, 0x80, 0x80, 0xC6, 0x0F, 0x42, 0x3F,
    ],
    &[
        0x6D, 0x80, 0x0F, 0xB2, 0x81, 0x82, 0x80, 0x80, 0x80, 0xD2, 0, 0, 0, 1,
    ],
    &[0x6E, 0x82, 0x80, 0x81],
    &[0x6F],
    &[0x71, 10],
    &[0x72, 0, 11],
    &[0x73, 0, 0, 12],
    &[0x74, 0, 0, 0, 10],
    &[0x7E, 0x81, 12],
    &[0x7F],
    &[0x80],
    b"\x81a",
    b"\x82\xC3\xA9",
    b"\x83abc",
    b"\x84abcd",
    b"\x85abcde",
    b"\x86abcdef",
    b"\x87abcdefg",
    b"\x88abcdefgh",
    b"\x89abcdefghi",
    b"\x8Aabcdefghij",
    b"\x8Babcdefghijk",
    b"\x8Cabcdefghijkl",
    b"\x8Dabcdefghijklm",
    b"\x8E\x81a",
    &[0x8F],
    &[0xB0],
    &[0xB1, 0x0F],
    &[0xB2, 0x0F, 0x11],
    &[0xB3, 0x0F, 0x0F, 0xB0],
    &[0xB4, 0x21, 1, 0x11, 0x0F],
    &[0xB5, 0x0F, 0x0F, 0x0F, 0x0F, 0x0F],
    &[0xB6, 0x0F, 0x0F, 0x0F, 0x0F, 0x0F, 0x0F],
    &[0xB7, 0x0F, 0x0F, 0x0F, 0x0F, 0x0F, 0x0F, 0x0F],
    &[0xB8, 0x0F, 0x0F, 0x0F, 0x0F, 0x0F, 0x0F, 0x0F, 0x0F],
    &[0xB9, 0x0F, 0x0F, 0x0F, 0x0F, 0x0F, 0x0F, 0x0F, 0x0F, 0x0F],
    &[
        0xBA, 0x0F, 0x0F, 0x0F, 0x0F, 0x0F, 0x0F, 0x0F, 0x0F, 0x0F, 0x0F,
    ],
    &[
        0xBB, 0x0F, 0x0F, 0x0F, 0x0F, 0x0F, 0x0F, 0x0F, 0x0F, 0x0F, 0x0F, 0x0F,
    ],
    &[
        0xBC, 0x0F, 0x0F, 0x0F, 0x0F, 0x0F, 0x0F, 0x0F, 0x0F, 0x0F, 0x0F, 0x0F, 0x0F,
    ],
    &[
        0xBD, 0x0F, 0x0F, 0x0F, 0x0F, 0x0F, 0x0F, 0x0F, 0x0F, 0x0F, 0x0F, 0x0F, 0x0F, 0x0F,
    ],
    &[0xBE, 0x81, 0x0F],
    &[0xBF],
    &[0xD0],
    &[0xD1, 0x82, 0x8A, 0x0F],
    &[0xD2, 0x8A, 0x2F],
    &[0xD3, 0x8A, 0x71, 11],
    &[0xD4, 0x8A, 0x0F, 0x8C, 0x11],
    b"\xD5\x8A\x83abc",
    b"\xD6\x8A\x84abcd",
    b"\xD7\x8A\x85abcde",
    b"\xD8\x8A\x86abcdef",
    b"\xD9\x8A\x87abcdefg",
    b"\xDA\x8A\x88abcdefgh",
    b"\xDB\x8A\x89abcdefghi",
    b"\xDC\x8A\x8Aabcdefghij",
    b"\xDD\x8A\x8Babcdefghijk",
    b"\xDE\x82\x8A\x0F",
    &[0xDF],
];

// The cell of a first byte.
fn with_first(first: u8) -> Option<&'static [u8]> {
    for cell in &CELLS {
        if cell.first() == Some(&first) {
            return Some(*cell);
        }
    }
    None
}

// What may follow a first byte: as many bytes as its low nibble may ask for, of several kinds.
static TAILS: [[u8; 14]; 8] = [
    [0; 14],
    [1; 14],
    [0x0F; 14],
    [0x80; 14],
    [
        0x81, 0x0B, 0x81, 0x0B, 0x81, 0x0B, 0x81, 0x0B, 0x81, 0x0B, 0x81, 0x0B, 0x81, 0x0B,
    ],
    [
        0x82, 0x8A, 0x0F, 0x8A, 0x0F, 0x8A, 0x0F, 0x8A, 0x0F, 0x8A, 0x0F, 0x8A, 0x0F, 0x8A,
    ],
    [
        0x80, 0x0F, 0xB2, 0x81, 0x82, 0x80, 0x80, 0x80, 0xC6, 0, 0, 0, 0, 0,
    ],
    *b"aaaaaaaaaaaaaa",
];

// Whether no cell begins with the byte.
fn begins_none(first: u8) -> bool {
    let mut none = true;
    for tail in &TAILS {
        let mut cell = [first; 15];
        cell[1..].copy_from_slice(tail);
        none = end_of(&cell, 0).is_none() && none;
    }
    none
}

// Whether the bytes are one cell, and none where they are cut short.
fn is_whole(cell: &[u8]) -> bool {
    if cell.is_empty() {
        return false;
    }
    is_cell(cell, 0) && end_of(&cell[..cell.len() - 1], 0).is_none()
}

#[test]
fn each_first_byte_begins_a_cell_or_none(rt: HostRuntime) {
    let mut count = 0usize;
    for first in 0..=255u8 {
        match with_first(first) {
            Some(cell) => {
                count = count.saturating_add(1);
                assert!(rt; is_whole(cell), "{first}");
            }
            None => assert!(rt; begins_none(first), "{first}"),
        }
    }
    assert_eq!(rt; count, CELLS.len());
}

static DAMAGED: [&[u8]; 29] = [
    // A label that doesn't rise, that is past the table's last, and that is below 10.
    b"\xD6\x8B\x81x\x8A\x21\x01",
    b"\xD4\x8A\x0F\x8A\x0F",
    b"\xD2\x8D\x0F",
    b"\xD2\x89\x0F",
    // No pair where the low nibble is 1, a label alone, and a cell that passes the end of the struct.
    b"\xD1\x80",
    b"\xD1\x81\x8A",
    b"\xD2\x8A\x21\x01",
    // A negative zero, and numbers out of range.
    b"\xD3\x8A\x31\x00",
    b"\x28\x80\x00\x00\x00\x00\x00\x00\x00",
    b"\x38\x80\x00\x00\x00\x00\x00\x00\x01",
    b"\x29\x00\x00\x00\x00\x00\x00\x00\x00\x01",
    // Symbols outside the table, and one of five bytes.
    b"\x71\x09",
    b"\x71\x0D",
    b"\x75\x00\x00\x00\x00\x0A",
    // A text that isn't UTF-8, the null of a type that has none, and a length that says too much.
    b"\x82\xC3\x28",
    b"\xD2\x8A\x40",
    b"\xDE\xFF",
    b"\xDE\x00\x00\x00\x00\x84\x8A\x0F\x8B\x0F",
    // 29 February of a common year, hour 24, minute 60, second 60, an hour alone, and year 0.
    b"\x65\x80\x0F\xE7\x82\x9D",
    b"\x67\x80\x0F\xB2\x81\x82\x98\x80",
    b"\x67\x80\x0F\xB2\x81\x82\x80\xBC",
    b"\x68\x80\x0F\xB2\x81\x82\x80\x80\xBC",
    b"\x66\x80\x0F\xB2\x81\x82\x80",
    b"\x62\x80\x80",
    // An offset of 1440 minutes, exponents of 1 and -19, a set sign bit, and a coefficient of a whole second.
    b"\x64\x0B\xA0\x0F\xB2",
    b"\x6A\x80\x0F\xB2\x81\x82\x80\x80\x80\x81\x00",
    b"\x6A\x80\x0F\xB2\x81\x82\x80\x80\x80\xD3\x00",
    b"\x6A\x80\x0F\xB2\x81\x82\x80\x80\x80\xC3\x81",
    b"\x6A\x80\x0F\xB2\x81\x82\x80\x80\x80\xC1\x0A",
];

#[test]
fn damage_within_a_cell_is_found(rt: HostRuntime) {
    for cell in &DAMAGED {
        assert!(rt; end_of(*cell, 0).is_none(), "{cell:?}");
    }
}

// Writes the head of a cell that holds what was written, all from back to front.
fn wrap(back: &mut Vec<u8>, kind: u8) -> Result<(), AllocError> {
    let count = back.len();
    if count <= 13 {
        back.push((kind % 16) * 16 + count as u8)?;
        return Ok(());
    }
    back.push(128 + (count % 128) as u8)?;
    back.push((count / 128 % 128) as u8)?;
    back.push((kind % 16) * 16 + 14)?;
    Ok(())
}

// A row of so many lists, each in the one before, from back to front.
fn nested(alloc: Global, lists: u32) -> Result<Vec<u8>, AllocError> {
    let mut back: Vec<u8> = Vec::new(alloc);
    for _ in 0..lists {
        wrap(&mut back, 11)?;
    }
    back.push(0x8A)?;
    wrap(&mut back, 13)?;
    Ok(back)
}

// Whether a row of so many lists, each in the one before, is a cell at a depth.
fn nests(alloc: Global, lists: u32, depth: u8) -> bool {
    match nested(alloc, lists) {
        Ok(mut row) => {
            row.as_mut_slice().reverse();
            let right = is_cell(row.as_slice(), depth);
            drop(row);
            right
        }
        Err(_) => false,
    }
}

#[test]
fn lists_nest_to_depth_128(rt: HostRuntime) {
    assert!(rt; nests(rt.alloc(), 127, 0));
    assert!(rt; !nests(rt.alloc(), 127, 1));
    assert!(rt; !nests(rt.alloc(), 128, 0));
    assert!(rt; end_of(&[0x21, 5], 255) == Some(2));
}

fn cell(bytes: &[u8]) -> Option<Cell<'_>> {
    if bytes.len() < 1 << 31 {
        cell_at(bytes, 0, 12).ok()
    } else {
        None
    }
}

// What the readers of a cell show, where it isn't null: a number, a truth, a text, a symbol.
#[derive(Clone, Copy)]
enum Shown {
    Int(Option<i64>),
    Bool(Option<bool>),
    Text(Option<&'static str>),
    Symbol(Option<u32>),
    Kind(Kind),
    Micros(Option<i64>),
}

// Cells, and what a reader shows.
static READ: [(&[u8], Shown); 21] = [
    (
        b"\x28\x7F\xFF\xFF\xFF\xFF\xFF\xFF\xFF",
        Shown::Int(Some(9_223_372_036_854_775_807)),
    ),
    (
        b"\x38\x80\x00\x00\x00\x00\x00\x00\x00",
        Shown::Int(Some(-9_223_372_036_854_775_808)),
    ),
    (b"\x20", Shown::Int(Some(0))),
    (b"\x32\x01\x00", Shown::Int(Some(-256))),
    (b"\x10", Shown::Bool(Some(false))),
    (b"\x11", Shown::Bool(Some(true))),
    (b"\x1F", Shown::Bool(None)),
    (b"\x83abc", Shown::Text(Some("abc"))),
    (b"\x71\x0B", Shown::Text(None)),
    (b"\x71\x0B", Shown::Symbol(Some(11))),
    (b"\x81a", Shown::Symbol(None)),
    (b"\x0F", Shown::Kind(Kind::Null)),
    (b"\xDF", Shown::Kind(Kind::Null)),
    (b"\x11", Shown::Kind(Kind::Bool)),
    (b"\x20", Shown::Kind(Kind::Int)),
    (b"\x31\x01", Shown::Kind(Kind::Int)),
    (b"\x62\x80\x81", Shown::Kind(Kind::Time)),
    (b"\x71\x0A", Shown::Kind(Kind::Symbol)),
    (b"\x80", Shown::Kind(Kind::Text)),
    (b"\xB0", Shown::Kind(Kind::List)),
    (b"\xD1\x82\x8A\x0F", Shown::Kind(Kind::Struct)),
];

fn cell_shows(cell: &Cell<'_>, wanted: Shown) -> bool {
    match wanted {
        Shown::Int(number) => cell.int() == number,
        Shown::Bool(truth) => cell.boolean() == truth,
        Shown::Text(text) => cell.text() == text,
        Shown::Symbol(number) => cell.symbol() == number,
        Shown::Kind(kind) => cell.kind() == kind,
        Shown::Micros(micros) => cell.micros() == micros,
    }
}

fn shows(bytes: &[u8], wanted: Shown) -> bool {
    match cell(bytes) {
        Some(cell) => cell_shows(&cell, wanted),
        None => false,
    }
}

// Whether a cell ends before the byte behind it.
fn ends_early(bytes: &[u8]) -> bool {
    if bytes.is_empty() {
        return false;
    }
    match cell(bytes) {
        Some(cell) => cell.bytes() == &bytes[..bytes.len() - 1],
        None => false,
    }
}

#[test]
fn readers_show_the_value(rt: HostRuntime) {
    for (bytes, wanted) in &READ {
        assert!(rt; shows(*bytes, *wanted), "{bytes:?}");
    }
    assert!(rt; ends_early(b"\x83abc!"));
}

// Times, and their microseconds since 1970-01-01T00:00:00Z.
static TIMES: [(&[u8], i64); 6] = [
    (
        b"\x6C\x80\x0F\xE8\x82\x9D\x97\xBB\xBB\xC6\x0F\x42\x3F",
        1_709_251_199_999_999,
    ),
    (b"\x63\xC0\x0F\xB2", 0),
    (b"\x64\x04\xE2\x0F\xB2", 0),
    (b"\x62\x80\x81", -62_135_596_800_000_000),
    (
        b"\x6D\x80\x4E\x8F\x8C\x9F\x97\xBB\xBB\xC9\x3B\x9A\xC9\xFF",
        253_402_300_799_999_999,
    ),
    (
        b"\x6D\x80\x0F\xB2\x81\x81\x80\x80\x80\xC9\x00\x00\x07\xCF",
        1,
    ),
];

#[test]
fn times_are_cut_to_microseconds(rt: HostRuntime) {
    for (bytes, micros) in &TIMES {
        assert!(rt; shows(*bytes, Shown::Micros(Some(*micros))), "{bytes:?}");
    }
    assert!(rt; shows(b"\x6F", Shown::Micros(None)));
}

// Whether the list's cells are 1, true and null.
fn gives_items(list: &Cell<'_>) -> bool {
    let Some(mut items) = list.items() else {
        return false
    };
    let first = items.next().and_then(|item| item.int());
    let second = items.next().and_then(|item| item.boolean());
    let third = items.next().map(|item| item.kind());
    let whole = first == Some(1) && second == Some(true) && third == Some(Kind::Null);
    whole && items.next().is_none() && list.fields().is_none()
}

// Whether the row has these pairs and no others: 10 and such a list, 12 and the symbol 11.
fn gives_pairs(row: &Cell<'_>) -> bool {
    let Some(mut fields) = row.fields() else {
        return false
    };
    let Some((first, list)) = fields.next() else {
        return false
    };
    let Some((second, text)) = fields.next() else {
        return false
    };
    let labels = first == 10 && second == 12 && fields.next().is_none();
    labels && text.symbol() == Some(11) && gives_items(&list) && row.items().is_none()
}

#[test]
fn a_row_gives_its_pairs_and_a_list_its_cells(rt: HostRuntime) -> Result<(), BadCell> {
    let row = cell(b"\xD9\x8A\xB4\x21\x01\x11\x0F\x8C\x71\x0B").ok_or(BadCell)?;
    assert!(rt; gives_pairs(&row));
    Ok(())
}

// Bytes, a place, and the number that stands there and the place after it.
static NUMBERS: [(&[u8], usize, Option<(u32, usize)>); 4] = [
    (&[0x0F, 0xE8, 0x82], 0, Some((2024, 2))),
    (&[0x0F, 0xE8, 0x82], 2, Some((2, 3))),
    (&[0, 0, 0, 0x84], 0, Some((4, 4))),
    (&[0, 0, 0, 0, 0x84], 0, None),
];

fn has_number(bytes: &[u8], at: usize, wanted: Option<(u32, usize)>) -> bool {
    at <= bytes.len() && var_uint(bytes, at) == wanted
}

fn parts_are(parts: Option<(&[u8], &[u8])>, first: &[u8], second: &[u8]) -> bool {
    match parts {
        Some((payload, rest)) => payload == first && rest == second,
        None => false,
    }
}

#[test]
fn numbers_and_heads_are_read(rt: HostRuntime) {
    for (bytes, at, wanted) in &NUMBERS {
        assert!(rt; has_number(*bytes, *at, *wanted), "{bytes:?}");
    }
    let list = CellHead {
        kind: 11,
        count: 3,
        start: 2,
    };
    assert!(rt; magnitude(&[1, 2, 3]) == 66_051);
    assert!(rt; head(&[0xBE, 0x83, 1, 2, 3], 0) == Some(list));
    assert!(rt; parts_are(payload(8, b"\x82ab!"), b"ab", b"!"));
    assert!(rt; only_payload(8, b"\x82ab").is_some_and(|part| part == b"ab".as_slice()));
    assert!(rt; only_payload(8, b"\x82ab!").is_none());
}
