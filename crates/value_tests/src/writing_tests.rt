ghost use Rattle.std.specs.Prelude.{IsTrue};
ghost use Rattle.snel_values.specs.View.{views};
ghost use Rattle.value_tests.specs.Light.{AreLight};

use crate::sample::{Sample, made};
use ion_write::{block_of, weight, writable};
use snel_values::{Bytes, Items, OutOfMemory, Pairs, Text, Value};
use std::alloc::{AllocError, Global};
use std::process::Abort;

/// Whether each row may be written and weighs at most 10,000.
fn are_light(rows: &[Value]) -> bool
    ensures { IsTrue result → AreLight (views rows.now) }
{
    for row in rows {
        if !writable(row) || weight(row) > 10_000 {
            return false;
        }
    }
    true
}

/// Whether the rows may be written, are 1 to 100, each light, and have this block.
#[tactic(auto, using(crate::proofs::Light::light_writable, crate::proofs::Light::light_sum))]
fn is_block(alloc: Global, rows: &[Value], wanted: &[u8]) -> bool {
    if rows.is_empty() || rows.len() > 100 || !are_light(rows) {
        return false;
    }
    match block_of(alloc, rows) {
        Ok(block) => block.as_slice() == wanted,
        Err(_) => false,
    }
}

/// The front of a block whose rows name `a` alone: its marker and its symbol table.
static OF_A: [u8; 12] = [
    0xE0, 0x01, 0x00, 0xEA, 0xE7, 0x81, 0x83, 0xD4, 0x87, 0xB2, 0x81, 0x61,
];

/// That front, and a row behind it.
fn behind_front(alloc: Global, row: &[u8]) -> Result<Bytes, OutOfMemory> {
    let mut block = Bytes::new(alloc);
    block.push_all(&OF_A)?;
    block.push_all(row)?;
    Ok(block)
}

/// A row of the one pair `a` and this value.
fn row_of(alloc: Global, value: Value) -> Result<Value, OutOfMemory> {
    let mut pairs = Pairs::new(alloc);
    let name = Text::of(alloc, "a")?;
    if pairs.is_above_last(name.as_str()) {
        pairs.push(name, value)?;
    }
    Ok(Value::Struct(pairs))
}

/// Whether the row of `a` and this value is written as these bytes.
fn is_written(alloc: Global, value: Value, wanted: &[u8]) -> bool {
    match (row_of(alloc, value), behind_front(alloc, wanted)) {
        (Ok(row), Ok(block)) => is_block(alloc, &[row], block.as_slice()),
        _ => false,
    }
}

fn are_written(rt: &impl Abort, alloc: Global, cases: &[(Sample, &[u8])]) {
    for (value, wanted) in cases {
        assert!(rt; is_written(alloc, made(alloc, value), wanted), "{wanted:?}");
    }
}

/// The numbers' ends, and the lengths of magnitudes.
static NUMBERS: [(Sample, &[u8]); 9] = [
    (Sample::Int(0), &[0xD2, 0x8A, 0x20]),
    (Sample::Int(1), &[0xD3, 0x8A, 0x21, 0x01]),
    (Sample::Int(-1), &[0xD3, 0x8A, 0x31, 0x01]),
    (Sample::Int(255), &[0xD3, 0x8A, 0x21, 0xFF]),
    (Sample::Int(256), &[0xD4, 0x8A, 0x22, 0x01, 0x00]),
    (Sample::Int(-256), &[0xD4, 0x8A, 0x32, 0x01, 0x00]),
    (Sample::Int(65_536), &[0xD5, 0x8A, 0x23, 0x01, 0x00, 0x00]),
    (
        Sample::Int(9_223_372_036_854_775_807),
        &[
            0xDA, 0x8A, 0x28, 0x7F, 0xFF, 0xFF, 0xFF, 0xFF, 0xFF, 0xFF, 0xFF,
        ],
    ),
    (
        Sample::Int(-9_223_372_036_854_775_808),
        &[
            0xDA, 0x8A, 0x38, 0x80, 0x00, 0x00, 0x00, 0x00, 0x00, 0x00, 0x00,
        ],
    ),
];

#[test]
fn writes_numbers(rt: HostRuntime) {
    are_written(&rt, rt.alloc(), &NUMBERS);
}

/// 2023-11-14T22:13:20Z, a fraction whose first bit is set, and both ends.
static TIMES: [(Sample, &[u8]); 4] = [
    (
        Sample::Time(1_700_000_000_000_000),
        &[
            0xDA, 0x8A, 0x68, 0x80, 0x0F, 0xE7, 0x8B, 0x8E, 0x96, 0x8D, 0x94,
        ],
    ),
    (
        Sample::Time(40_000),
        &[
            0xDE, 0x8E, 0x8A, 0x6C, 0x80, 0x0F, 0xB2, 0x81, 0x81, 0x80, 0x80, 0x80, 0xC6, 0x00,
            0x9C, 0x40,
        ],
    ),
    (
        Sample::Time(-62_135_596_800_000_000),
        &[0xD9, 0x8A, 0x67, 0x80, 0x81, 0x81, 0x81, 0x80, 0x80, 0x80],
    ),
    (
        Sample::Time(253_402_300_799_999_999),
        &[
            0xDE, 0x8E, 0x8A, 0x6C, 0x80, 0x4E, 0x8F, 0x8C, 0x9F, 0x97, 0xBB, 0xBB, 0xC6, 0x0F,
            0x42, 0x3F,
        ],
    ),
];

#[test]
fn writes_times(rt: HostRuntime) {
    are_written(&rt, rt.alloc(), &TIMES);
}

static TEXTS: [(Sample, &[u8]); 4] = [
    (Sample::Text(""), &[0xD2, 0x8A, 0x80]),
    (Sample::Text("x"), &[0xD3, 0x8A, 0x81, 0x78]),
    (
        Sample::Text("0123456789abc"),
        b"\xDE\x8F\x8A\x8D0123456789abc",
    ),
    (
        Sample::Text("0123456789abcd"),
        b"\xDE\x91\x8A\x8E\x8E0123456789abcd",
    ),
];

#[test]
fn writes_texts(rt: HostRuntime) {
    are_written(&rt, rt.alloc(), &TEXTS);
}

/// Lists of none, two and fourteen NULLs.
static LISTS: [(Sample, &[u8]); 3] = [
    (Sample::List(&[]), &[0xD2, 0x8A, 0xB0]),
    (
        Sample::List(&[Sample::Null, Sample::Null]),
        &[0xD4, 0x8A, 0xB2, 0x0F, 0x0F],
    ),
    (
        Sample::List(&[
            Sample::Null,
            Sample::Null,
            Sample::Null,
            Sample::Null,
            Sample::Null,
            Sample::Null,
            Sample::Null,
            Sample::Null,
            Sample::Null,
            Sample::Null,
            Sample::Null,
            Sample::Null,
            Sample::Null,
            Sample::Null,
        ]),
        &[
            0xDE, 0x91, 0x8A, 0xBE, 0x8E, 0x0F, 0x0F, 0x0F, 0x0F, 0x0F, 0x0F, 0x0F, 0x0F, 0x0F,
            0x0F, 0x0F, 0x0F, 0x0F, 0x0F,
        ],
    ),
];

#[test]
fn writes_lists(rt: HostRuntime) {
    are_written(&rt, rt.alloc(), &LISTS);
}

/// Rows, their block and their weights. In the second a text of three bytes stands twice, in the third texts of two bytes
/// do, and a text of three stands once.
static BLOCKS: [(&[Sample], &[u8], &[u64]); 3] = [
    (
        &[
            Sample::Struct(&[("a", Sample::Int(1)), ("b", Sample::Text("x"))]),
            Sample::Struct(&[("a", Sample::Null)]),
            Sample::Struct(&[("b", Sample::Int(7))]),
        ],
        &[
            0xE0, 0x01, 0x00, 0xEA, 0xE9, 0x81, 0x83, 0xD6, 0x87, 0xB4, 0x81, 0x61, 0x81, 0x62,
            0xD6, 0x8A, 0x21, 0x01, 0x8B, 0x81, 0x78, 0xD2, 0x8A, 0x0F, 0xD3, 0x8B, 0x21, 0x07,
        ],
        &[40, 16, 24],
    ),
    (
        &[
            Sample::Struct(&[("a", Sample::Text("xyz"))]),
            Sample::Struct(&[("a", Sample::Text("xyz"))]),
        ],
        &[
            0xE0, 0x01, 0x00, 0xEA, 0xEB, 0x81, 0x83, 0xD8, 0x87, 0xB6, 0x81, 0x61, 0x83, 0x78,
            0x79, 0x7A, 0xD3, 0x8A, 0x71, 0x0B, 0xD3, 0x8A, 0x71, 0x0B,
        ],
        &[23, 23],
    ),
    (
        &[
            Sample::Struct(&[("a", Sample::Text("xy"))]),
            Sample::Struct(&[("a", Sample::Text("xy")), ("b", Sample::Text("xyz"))]),
        ],
        &[
            0xE0, 0x01, 0x00, 0xEA, 0xE9, 0x81, 0x83, 0xD6, 0x87, 0xB4, 0x81, 0x61, 0x81, 0x62,
            0xD4, 0x8A, 0x82, 0x78, 0x79, 0xD9, 0x8A, 0x82, 0x78, 0x79, 0x8B, 0x83, 0x78, 0x79,
            0x7A,
        ],
        &[22, 40],
    ),
];

fn rows(alloc: Global, samples: &[Sample]) -> Result<Vec<Value>, AllocError> {
    let mut rows = Vec::new(alloc);
    for sample in samples {
        rows.push(made(alloc, sample))?;
    }
    Ok(rows)
}

/// Whether the rows are written and weighed so, and each may be written.
fn is_block_of(alloc: Global, samples: &[Sample], wanted: &[u8], weights: &[u64]) -> bool {
    match rows(alloc, samples) {
        Ok(rows) => {
            is_block(alloc, rows.as_slice(), wanted)
                && rows.len() == weights.len()
                && rows
                    .iter()
                    .zip(weights.iter())
                    .all(|(row, wanted)| weight(row) == *wanted && writable(row))
        }
        Err(_) => false,
    }
}

#[test]
fn writes_blocks(rt: HostRuntime) {
    for (samples, block, weights) in &BLOCKS {
        assert!(rt;
            is_block_of(rt.alloc(), samples, block, weights),
            "{block:?}"
        );
    }
}

/// So many lists within one another.
fn nested(alloc: Global, count: usize) -> Result<Value, OutOfMemory> {
    let mut value = Value::Null;
    for _ in 0..count {
        let mut items = Items::new(alloc);
        items.push(value)?;
        value = Value::List(items);
    }
    Ok(value)
}

/// Values, and whether a row may hold them.
static STANDING: [(&str, Sample, bool); 7] = [
    (
        "the greatest number",
        Sample::Int(9_223_372_036_854_775_807),
        true,
    ),
    ("past it", Sample::Int(9_223_372_036_854_775_808), false),
    (
        "the least number",
        Sample::Int(-9_223_372_036_854_775_808),
        true,
    ),
    ("below it", Sample::Int(-9_223_372_036_854_775_809), false),
    ("the last time", Sample::Time(253_402_300_799_999_999), true),
    ("past it", Sample::Time(253_402_300_800_000_000), false),
    ("MISSING", Sample::Missing, false),
];

#[test]
fn tells_which_rows_may_be_written(rt: HostRuntime) -> Result<(), OutOfMemory> {
    let alloc = rt.alloc();
    for (what, value, wanted) in &STANDING {
        let row = row_of(alloc, made(alloc, value))?;
        assert_eq!(rt; writable(&row), *wanted, "{what}");
    }
    for (count, wanted) in [(127, true), (128, false)] {
        let row = row_of(alloc, nested(alloc, count)?)?;
        assert_eq!(rt; writable(&row), wanted, "{count} lists");
    }
    assert!(rt; !writable(&Value::Null));
    Ok(())
}
