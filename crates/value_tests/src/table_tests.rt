use crate::sample::{Sample, made};
use crate::standing::{cell_of, table_of};
use ion_symtab::{SymTab, TabFault, read, value_of};
use snel_values::same;
use std::alloc::Global;

// Numbers, and the texts that they stand for.
static NUMBERS: [(u32, Option<&str>); 6] = [
    (10, Some("a")),
    (11, Some("b")),
    (0, None),
    (9, None),
    (12, None),
    (4_294_967_295, None),
];

// Texts, and their numbers.
static TEXTS: [(&str, Option<u32>); 6] = [
    ("a", Some(10)),
    ("b", Some(11)),
    ("", None),
    ("A", None),
    ("aa", None),
    ("c", None),
];

fn looks_up(table: &SymTab<'_>) -> bool {
    let mut right = table.last() == 11;
    for (number, text) in &NUMBERS {
        right = table.text_of(*number) == *text && right;
    }
    for (text, number) in &TEXTS {
        right = table.number_of(text) == *number && right;
    }
    right
}

fn is_empty(table: &SymTab<'_>) -> bool {
    table.last() == 9 && table.number_of("a").is_none() && table.text_of(10).is_none()
}

// Whether a table begins at a place and ends at another, and is that of `a` and `b` or else the empty one.
fn is_table(alloc: Global, bytes: &[u8], at: u32, wanted: u32, full: bool) -> bool {
    if bytes.len() > 1000 || at as usize > bytes.len() {
        return false;
    }
    match read(alloc, bytes, at) {
        Ok((table, end)) => {
            let right = if full {
                looks_up(&table)
            } else {
                is_empty(&table)
            };
            drop(table);
            right && end == wanted
        }
        Err(_) => false,
    }
}

// The table of `a` and `b` behind a marker, and a struct behind it.
static BLOCK: [u8; 21] = [
    0xE0, 0x01, 0x00, 0xEA, 0xE9, 0x81, 0x83, 0xD6, 0x87, 0xB4, 0x81, 0x61, 0x81, 0x62, 0xD6, 0x8A,
    0x21, 0x01, 0x8B, 0x81, 0x78,
];

#[test]
fn reads_the_table_of_a_block(rt: HostRuntime) {
    assert!(rt; is_table(rt.alloc(), &BLOCK, 4, 14, true));
}

#[test]
fn reads_an_empty_table(rt: HostRuntime) {
    assert!(rt;
        is_table(
            rt.alloc(),
            &[0xE5, 0x81, 0x83, 0xD2, 0x87, 0xB0],
            0,
            6,
            false
        )
    );
}

// Whether the bytes are refused as no table.
fn is_bad(alloc: Global, bytes: &[u8]) -> bool {
    if bytes.len() > 1000 {
        return false;
    }
    match read(alloc, bytes, 0) {
        Ok((table, _)) => {
            drop(table);
            false
        }
        Err(fault) => fault == TabFault::BadTable,
    }
}

static BAD: [(&str, &[u8]); 16] = [
    ("nothing", &[]),
    (
        "cut short",
        &[0xE9, 0x81, 0x83, 0xD6, 0x87, 0xB4, 0x81, 0x61, 0x81],
    ),
    ("a null", &[0xEF]),
    (
        "a struct without annotation",
        &[0xD6, 0x87, 0xB4, 0x81, 0x61, 0x81, 0x62],
    ),
    (
        "falling texts",
        &[0xE9, 0x81, 0x83, 0xD6, 0x87, 0xB4, 0x81, 0x62, 0x81, 0x61],
    ),
    (
        "equal texts",
        &[0xE9, 0x81, 0x83, 0xD6, 0x87, 0xB4, 0x81, 0x61, 0x81, 0x61],
    ),
    (
        "a text below its prefix",
        &[
            0xEA, 0x81, 0x83, 0xD7, 0x87, 0xB5, 0x82, 0x61, 0x61, 0x81, 0x61,
        ],
    ),
    (
        "another annotation",
        &[0xE9, 0x81, 0x84, 0xD6, 0x87, 0xB4, 0x81, 0x61, 0x81, 0x62],
    ),
    (
        "a wrong count of annotation bytes",
        &[0xE9, 0x82, 0x83, 0xD6, 0x87, 0xB4, 0x81, 0x61, 0x81, 0x62],
    ),
    (
        "two annotations",
        &[
            0xEA, 0x82, 0x83, 0x83, 0xD6, 0x87, 0xB4, 0x81, 0x61, 0x81, 0x62,
        ],
    ),
    (
        "another label",
        &[0xE9, 0x81, 0x83, 0xD6, 0x88, 0xB4, 0x81, 0x61, 0x81, 0x62],
    ),
    (
        "a second pair",
        &[
            0xEB, 0x81, 0x83, 0xD8, 0x87, 0xB4, 0x81, 0x61, 0x81, 0x62, 0x88, 0x20,
        ],
    ),
    ("no pair", &[0xE3, 0x81, 0x83, 0xD0]),
    ("a null text", &[0xE6, 0x81, 0x83, 0xD3, 0x87, 0xB1, 0x8F]),
    (
        "a symbol for a text",
        &[0xE7, 0x81, 0x83, 0xD4, 0x87, 0xB2, 0x71, 0x0A],
    ),
    (
        "a text that is no UTF-8",
        &[0xE7, 0x81, 0x83, 0xD4, 0x87, 0xB2, 0x81, 0xFF],
    ),
];

#[test]
fn refuses_what_is_no_table(rt: HostRuntime) {
    for (what, bytes) in &BAD {
        assert!(rt; is_bad(rt.alloc(), *bytes), "{what}");
    }
}

static CELL: [u8; 21] = [
    0xDE, 0x93, 0x8A, 0xB8, 0x21, 0x01, 0x11, 0x0F, 0x71, 0x0B, 0x31, 0x03, 0x8B, 0xD7, 0x8A, 0x62,
    0x80, 0x81, 0x8B, 0x81, 0x78,
];

// `{"a":[1,true,null,"b",-3],"b":{"a":0001-01-01T00:00:00Z,"b":"x"}}`
static SHOWN: Sample = Sample::Struct(&[
    (
        "a",
        Sample::List(&[
            Sample::Int(1),
            Sample::Bool(true),
            Sample::Null,
            Sample::Text("b"),
            Sample::Int(-3),
        ]),
    ),
    (
        "b",
        Sample::Struct(&[
            ("a", Sample::Time(-62_135_596_800_000_000)),
            ("b", Sample::Text("x")),
        ]),
    ),
]);

// Whether the cell's value is this one.
fn has_value(alloc: Global, table: &SymTab<'_>, bytes: &[u8], sample: &Sample) -> bool {
    let Some(cell) = cell_of(table, bytes) else {
        return false
    };
    match value_of(alloc, &cell, table) {
        Ok(value) => {
            let wanted = made(alloc, sample);
            let equal = same(&value, &wanted);
            drop(value);
            drop(wanted);
            equal
        }
        Err(_) => false,
    }
}

// The same under the table that the bytes before are.
fn shows(alloc: Global, table: &[u8], bytes: &[u8], sample: &Sample) -> bool {
    match table_of(alloc, table) {
        Some(table) => {
            let right = has_value(alloc, &table, bytes, sample);
            drop(table);
            right
        }
        None => false,
    }
}

#[test]
fn makes_the_value_of_a_cell(rt: HostRuntime) {
    assert!(rt; shows(rt.alloc(), &BLOCK[4..14], &CELL, &SHOWN));
}
