use crate::standing::{LETTERS, cell_of, table_of};
use ion_cells::Kind;
use ion_symtab::SymTab;
use json_out::{LineMaker, append_row, row_line};
use snel_values::Bytes;
use std::alloc::Global;

// The line of a row.
fn line_of(alloc: Global, table: &SymTab<'_>, row: &[u8]) -> Option<Bytes> {
    let cell = cell_of(table, row)?;
    if cell.kind() != Kind::Struct {
        return None;
    }
    row_line(alloc, table, &cell).ok()
}

/// Whether this is the line.
pub(crate) fn is_line(line: Option<Bytes>, wanted: &str) -> bool {
    match line {
        Some(made) => {
            let same = made.as_slice() == wanted.as_bytes();
            drop(made);
            same
        }
        None => false,
    }
}

// Whether a row has this line under the table that the other bytes are.
fn has_line(alloc: Global, table: &[u8], row: &[u8], wanted: &str) -> bool {
    match table_of(alloc, table) {
        Some(table) => {
            let right = is_line(line_of(alloc, &table, row), wanted);
            drop(table);
            right
        }
        None => false,
    }
}

// Rows under the table of `a` and `b`, and their lines.
static ROWS: [(&[u8], &str); 16] = [
    (&[0xD0], "{}\n"),
    (&[0xD2, 0x8A, 0x0F], "{\"a\":null}\n"),
    (&[0xD3, 0x8B, 0x71, 0x0A], "{\"b\":\"a\"}\n"),
    (
        &[0xD6, 0x8A, 0xB4, 0x21, 0x01, 0x11, 0x0F],
        "{\"a\":[1,true,null]}\n",
    ),
    (
        &[
            0xDE, 0x8F, 0x8A, 0xB6, 0xB0, 0xD0, 0xB3, 0xB2, 0x21, 0x02, 0x8B, 0xD5, 0x8A, 0xD3,
            0x8B, 0xB1, 0x10,
        ],
        "{\"a\":[[],{},[[2]]],\"b\":{\"a\":{\"b\":[false]}}}\n",
    ),
    (
        &[0xD5, 0x8A, 0x20, 0x8B, 0x31, 0x05],
        "{\"a\":0,\"b\":-5}\n",
    ),
    (
        &[
            0xDA, 0x8A, 0x28, 0x7F, 0xFF, 0xFF, 0xFF, 0xFF, 0xFF, 0xFF, 0xFF,
        ],
        "{\"a\":9223372036854775807}\n",
    ),
    (
        &[0xDA, 0x8A, 0x38, 0x80, 0, 0, 0, 0, 0, 0, 0],
        "{\"a\":-9223372036854775808}\n",
    ),
    (&[0xD2, 0x8A, 0x80], "{\"a\":\"\"}\n"),
    (
        &[
            0xDE, 0xA3, 0x8A, 0x8E, 0xA0, 0, 1, 2, 3, 4, 5, 6, 7, 8, 9, 10, 11, 12, 13, 14, 15, 16,
            17, 18, 19, 20, 21, 22, 23, 24, 25, 26, 27, 28, 29, 30, 31,
        ],
        "{\"a\":\"\\u0000\\u0001\\u0002\\u0003\\u0004\\u0005\\u0006\\u0007\\b\\t\\n\\u000b\\f\\r\\u000e\\u000f\\u0010\\u0011\\u0012\\u0013\\u0014\\u0015\\u0016\\u0017\\u0018\\u0019\\u001a\\u001b\\u001c\\u001d\\u001e\\u001f\"}\n",
    ),
    (
        &[
            0xDE, 0x8F, 0x8A, 0x8D, 0x22, 0x5C, 0xC3, 0xA9, 0xE2, 0x82, 0xAC, 0xF0, 0x9F, 0x98,
            0x80, 0x2F, 0x7F,
        ],
        "{\"a\":\"\\\"\\\\é€😀/\u{7f}\"}\n",
    ),
    (
        &[
            0xDE, 0x8E, 0x8A, 0x6C, 0x80, 0x0F, 0xB1, 0x8C, 0x9F, 0x97, 0xBB, 0xBB, 0xC6, 0x0F,
            0x42, 0x3F,
        ],
        "{\"a\":\"1969-12-31T23:59:59.999999Z\"}\n",
    ),
    (
        &[
            0xDE, 0x8E, 0x8A, 0x6C, 0x80, 0x0F, 0xE8, 0x82, 0x9D, 0x97, 0xBB, 0xBB, 0xC6, 0x0F,
            0x42, 0x3F,
        ],
        "{\"a\":\"2024-02-29T23:59:59.999999Z\"}\n",
    ),
    (
        &[
            0xDC, 0x8A, 0x6A, 0x80, 0x0F, 0xE8, 0x82, 0x9D, 0x80, 0x80, 0x80, 0xC6, 0x07,
        ],
        "{\"a\":\"2024-02-29T00:00:00.000007Z\"}\n",
    ),
    (
        &[0xD9, 0x8A, 0x67, 0x80, 0x81, 0x81, 0x81, 0x80, 0x80, 0x80],
        "{\"a\":\"0001-01-01T00:00:00Z\"}\n",
    ),
    (
        &[
            0xDA, 0x8A, 0x68, 0x80, 0x4E, 0x8F, 0x8C, 0x9F, 0x97, 0xBB, 0xBB,
        ],
        "{\"a\":\"9999-12-31T23:59:59Z\"}\n",
    ),
];

#[test]
fn rows_have_their_lines(rt: HostRuntime) {
    for (row, line) in &ROWS {
        assert!(rt; has_line(rt.alloc(), &LETTERS, *row, line), "{line}");
    }
    assert!(rt;
        has_line(
            rt.alloc(),
            &[0xE7, 0x81, 0x83, 0xD4, 0x87, 0xB2, 0x81, 0x22],
            &[0xD2, 0x8A, 0x10],
            "{\"\\\"\":false}\n"
        ),
        "the table of a quote"
    );
}

// Adds the line of a row; whether it was added.
fn add_row(lines: &mut Bytes, table: &SymTab<'_>, row: &[u8]) -> bool {
    match cell_of(table, row) {
        Some(cell) => cell.kind() == Kind::Struct && append_row(lines, table, &cell).is_ok(),
        None => false,
    }
}

// Whether the line of a row is added to lines that stand before, and to none.
fn grows(alloc: Global, table: &SymTab<'_>, row: &[u8], line: &[u8], twice: &[u8]) -> bool {
    let mut lines = Bytes::new(alloc);
    let added = add_row(&mut lines, table, row) && add_row(&mut lines, table, row);
    let both = added && lines.as_slice() == twice;
    lines.clear();
    let right = add_row(&mut lines, table, row) && lines.as_slice() == line && both;
    drop(lines);
    right
}

#[test]
fn adds_rows_to_lines_that_stand_before(rt: HostRuntime) {
    let Some(table) = table_of(rt.alloc(), &LETTERS) else {
        panic!(rt; "no table");
    };
    let row = &[0xD3, 0x8A, 0x21, 0x07];
    let right = grows(
        rt.alloc(),
        &table,
        row,
        b"{\"a\":7}\n",
        b"{\"a\":7}\n{\"a\":7}\n",
    );
    drop(table);
    assert!(rt; right);
}

// Adds a pair of the name and the cell; whether it was added.
fn put_cell(maker: &mut LineMaker, table: &SymTab<'_>, name: &str, bytes: &[u8]) -> bool {
    match cell_of(table, bytes) {
        Some(cell) => maker.put_cell(name, table, &cell).is_ok(),
        None => false,
    }
}

fn put_cells(maker: &mut LineMaker, table: &SymTab<'_>, pairs: &[(&str, &[u8])]) -> bool {
    let mut whole = true;
    for (name, bytes) in pairs {
        whole = put_cell(maker, table, name, *bytes) && whole;
    }
    whole
}

/// The line of a maker, if it is whole.
pub(crate) fn finished(maker: LineMaker, whole: bool) -> Option<Bytes> {
    if whole {
        maker.finish().ok()
    } else {
        drop(maker);
        None
    }
}

// The line of these pairs of names and cells.
fn cells_line(alloc: Global, table: &SymTab<'_>, pairs: &[(&str, &[u8])]) -> Option<Bytes> {
    match LineMaker::new(alloc) {
        Ok(mut maker) => {
            let whole = put_cells(&mut maker, table, pairs);
            finished(maker, whole)
        }
        Err(_) => None,
    }
}

// Names and cells under the table of `a` and `b`, and their lines.
static CELLS: [(&[(&str, &[u8])], &str); 2] = [
    (&[], "{}\n"),
    (
        &[("z", &[0x71, 0x0B]), ("", &[0x0F]), ("a\n", &[0xB1, 0x11])],
        "{\"z\":\"b\",\"\":null,\"a\\n\":[true]}\n",
    ),
];

#[test]
fn makes_lines_pair_by_pair(rt: HostRuntime) {
    let Some(table) = table_of(rt.alloc(), &LETTERS) else {
        panic!(rt; "no table");
    };
    for (pairs, line) in &CELLS {
        assert!(rt;
            is_line(cells_line(rt.alloc(), &table, *pairs), line),
            "{line}"
        );
    }
}
