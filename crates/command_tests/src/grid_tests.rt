use block_file::open_block;
use command_calls::{OF_A_AND_B, block_of, ends_on, file_around, file_of};
use eval_row::eval_row;
use ion_symtab::value_of;
use json_out::LineMaker;
use query_tree::{Item, Operand, OutItems, Outputs, Query};
use snel_values::{Bytes, Items, Value};
use sql_reader::read;
use std::alloc::Global;
use std::random::RandomSource;
use std::test::Fail;
use std::thread::Threads;

// Rows of every kind: {}, and `a` as NULL, truth values, numbers, a text, a time, lists and structs, and pairs of these in `a`
// and `b`.
static ROWS: [&[u8]; 20] = [
    b"\xd0",
    b"\xd2\x8a\x0f",
    b"\xd2\x8a\x11",
    b"\xd2\x8a\x10",
    b"\xd3\x8a\x21\x01",
    b"\xd3\x8a\x31\x01",
    b"\xd3\x8a\x81\x78",
    b"\xde\x8e\x8a\x6c\x80\x0f\xe8\x82\x9d\x97\xbb\xbb\xc6\x0f\x42\x3f",
    b"\xd6\x8a\xb4\x21\x01\x11\x0f",
    b"\xd7\x8a\xd5\x8a\x21\x05\x8b\x11",
    b"\xd4\x8a\x11\x8b\x10",
    b"\xd4\x8a\x10\x8b\x0f",
    b"\xd4\x8a\x0f\x8b\x11",
    b"\xd5\x8a\x21\x01\x8b\x11",
    b"\xd2\x8b\x11",
    b"\xd4\x8a\x11\x8b\x11",
    b"\xdc\x8a\xb7\xb2\x21\x01\xd3\x8a\x21\x02\x8b\x81\x79",
    b"\xd5\x8a\x11\x8b\x21\x01",
    b"\xd4\x8a\x10\x8b\x10",
    b"\xd4\x8a\x0f\x8b\x0f",
];

// A cell of each kind: NULL, truth values, numbers and both ends of their range, texts, times, a list and a struct. The empty
// one stands for a field that is absent.
static CELLS: [&[u8]; 16] = [
    b"",
    b"\x0f",
    b"\x11",
    b"\x10",
    b"\x20",
    b"\x21\x01",
    b"\x31\x02",
    b"\x28\x7f\xff\xff\xff\xff\xff\xff\xff",
    b"\x38\x80\x00\x00\x00\x00\x00\x00\x00",
    b"\x80",
    b"\x82-7",
    b"\x84a\xc3\xa9X",
    b"\x6c\x80\x0f\xe8\x82\x9d\x97\xbb\xbb\xc6\x0f\x42\x3f",
    b"\x68\x80\x0f\xb1\x8c\x9f\x97\xbb\xbb",
    b"\xb2\x21\x01",
    b"\xd3\x8b\x21\x05",
];

// Each form of one operand.
static FORMS: [(&str, &str); 9] = [
    ("", ""),
    ("-", ""),
    ("NOT ", ""),
    ("", " IS NULL"),
    ("", " IS NOT NULL"),
    ("", " IS MISSING"),
    ("", " IS NOT MISSING"),
    ("", " IS TRUE"),
    ("NOT ", " IS FALSE"),
];

static OPERANDS: [&str; 13] = [
    "a",
    "b",
    "a.a",
    "a.b",
    "a[0]",
    "a[1].a",
    "NULL",
    "MISSING",
    "TRUE",
    "FALSE",
    "1",
    "'x'",
    "`2024-02-29T23:59:59.999999Z`",
];

// The operands of AND and OR: one of each class that the tables of truth tell apart, and paths.
static SIDES: [&str; 7] = ["a", "b", "a.b", "NULL", "MISSING", "TRUE", "FALSE"];

static NESTED: [&str; 6] = [
    "NOT (a AND NOT b)",
    "(a IS NULL OR b) AND NOT (a.b IS MISSING)",
    "a AND b OR NOT a AND NOT b",
    "(a OR b) IS NULL",
    "(NOT a) IS MISSING",
    "NOT NOT NOT a",
];

// The operators between two operands.
static OPERATORS: [&str; 13] = [
    " = ", " <> ", " < ", " <= ", " > ", " >= ", " + ", " - ", " * ", " / ", " % ", " AND ", " OR ",
];

// Each other form of numbers, choice, texts and times over two operands.
static OF_TWO: [&str; 53] = [
    "a IN (b)",
    "a IN (1, b, NULL)",
    "a NOT IN (b, 'x', MISSING)",
    "a BETWEEN b AND 5",
    "a NOT BETWEEN -2 AND b",
    "a BETWEEN 'a' AND 'b'",
    "a BETWEEN a AND b AND b BETWEEN a AND a",
    "CASE WHEN a THEN b END",
    "CASE WHEN a THEN 1 WHEN b THEN 2 ELSE a END",
    "CASE WHEN a = b THEN 'same' WHEN a < b THEN 'below' WHEN a > b THEN 'above' ELSE b END",
    "CASE WHEN a IS NULL THEN CASE WHEN b THEN a ELSE b END ELSE CASE WHEN a > 0 THEN a + 1 END END",
    "COALESCE(a)",
    "COALESCE(a, b)",
    "COALESCE(b, NULL, a, 7)",
    "NULLIF(a, b)",
    "NULLIF(b, 1)",
    "CAST(a AS INTEGER)",
    "CAST(a AS BOOLEAN)",
    "CAST(CAST(a AS BOOLEAN) AS INTEGER)",
    "- -a",
    "-(a + b) * 2",
    "a + b = b + a",
    "a LIKE '%X'",
    "a LIKE 'a_X'",
    "a LIKE ''",
    "a NOT LIKE '%'",
    "a ILIKE 'A%x'",
    "a NOT ILIKE '_é_'",
    "STARTS_WITH(a, 'a')",
    "ENDS_WITH(a, '7')",
    "CONTAINS(a, 'é')",
    "CONTAINS(a, '')",
    "CHAR_LENGTH(a)",
    "CHAR_LENGTH(a) + b",
    "TO_UNIX_EPOCH(a)",
    "TO_UNIX_MICRO(a)",
    "DATE_TRUNC(SECOND, a)",
    "DATE_TRUNC(MINUTE, a)",
    "DATE_TRUNC(HOUR, a)",
    "DATE_TRUNC(DAY, a)",
    "DATE_TRUNC(WEEK, a)",
    "DATE_TRUNC(MONTH, a)",
    "DATE_TRUNC(QUARTER, a)",
    "DATE_TRUNC(YEAR, a)",
    "EXTRACT(MICROSECOND FROM a) + EXTRACT(SECOND FROM a)",
    "EXTRACT(MINUTE FROM a) * 100 + EXTRACT(HOUR FROM a)",
    "EXTRACT(DAY FROM a) * 100 + EXTRACT(MONTH FROM a)",
    "EXTRACT(QUARTER FROM a) * 10000 + EXTRACT(YEAR FROM a)",
    "DATE_ADD(MICROSECOND, b, a)",
    "DATE_ADD(MINUTE, b, a)",
    "DATE_ADD(HOUR, b, a)",
    "DATE_ADD(WEEK, b, a)",
    "DATE_ADD(DAY, 1, DATE_ADD(SECOND, b, a)) > a",
];

// Rows, as a block and as a file.
#[derive(Drop)]
struct Stored {
    count: u32,
    block: Vec<u8>,
    file: Vec<u8>,
}

fn stored_rows(alloc: Global) -> Result<Stored, Fail> {
    Ok(Stored {
        count: 20,
        block: block_of(alloc, OF_A_AND_B, &ROWS)?,
        file: file_of(alloc, OF_A_AND_B, &ROWS)?,
    })
}

// The rows with each pair of cells in `a` and `b`.
fn stored_pairs(alloc: Global) -> Option<Stored> {
    let mut block = OF_A_AND_B.to_vec(alloc).ok()?;
    for first in &CELLS {
        for second in &CELLS {
            add_row(alloc, &mut block, first, second)?;
        }
    }
    let file = file_around(alloc, block.as_slice(), 256).ok()?;
    Some(Stored {
        count: 256,
        block,
        file,
    })
}

// Adds the pair of a label and a cell, if there is a cell.
fn add_field(row: &mut Vec<u8>, label: u8, cell: &[u8]) -> Option<()> {
    if !cell.is_empty() {
        row.push(label).ok()?;
        row.extend_from_slice(cell).ok()?;
    }
    Some(())
}

// Adds the row with these cells in `a` and `b`.
fn add_row(alloc: Global, block: &mut Vec<u8>, first: &[u8], second: &[u8]) -> Option<()> {
    let mut pairs = Vec::new(alloc);
    add_field(&mut pairs, 0x8a, first)?;
    add_field(&mut pairs, 0x8b, second)?;
    match u8::try_from(pairs.len()).ok()? {
        0 => block.push(0xd0).ok(),
        length => {
            block.extend_from_slice(&[0xde, 0x80 | length]).ok()?;
            block.extend_from_slice(pairs.as_slice()).ok()
        }
    }
}

#[test]
fn forms_of_one_operand_agree(rt: HostRuntime) -> Result<(), Fail> {
    let stored = stored_rows(rt.alloc())?;
    for operand in &OPERANDS {
        for (before, behind) in &FORMS {
            assert!(rt;
                agrees_on(&rt, &stored, before, operand, behind),
                "{before}{operand}{behind}"
            );
        }
    }
    Ok(())
}

// Whether an operator agrees on all pairs of operands.
fn pairs_agree<R: Threads + Sync + RandomSource + AllocGlobal>(
    rt: &R,
    stored: &Stored,
    op: &str,
) -> bool {
    for left in &SIDES {
        for right in &SIDES {
            if !agrees_on(rt, stored, left, op, right) {
                return false;
            }
        }
    }
    true
}

#[test]
fn conjunctions_and_disjunctions_agree(rt: HostRuntime) -> Result<(), Fail> {
    let stored = stored_rows(rt.alloc())?;
    assert!(rt; pairs_agree(&rt, &stored, " AND "));
    assert!(rt; pairs_agree(&rt, &stored, " OR "));
    Ok(())
}

#[test]
fn nested_forms_agree(rt: HostRuntime) -> Result<(), Fail> {
    let stored = stored_rows(rt.alloc())?;
    for expr in &NESTED {
        assert!(rt; agrees_on(&rt, &stored, "", expr, ""), "{expr}");
    }
    Ok(())
}

#[test]
fn operators_agree_on_each_pair_of_kinds(rt: HostRuntime) {
    let found = stored_pairs(rt.alloc());
    assert!(rt; found.is_some());
    let Some(stored) = found else { return };
    for op in &OPERATORS {
        assert!(rt; agrees_on(&rt, &stored, "a", op, "b"), "{op}");
    }
}

#[test]
fn forms_agree_on_each_pair_of_kinds(rt: HostRuntime) {
    let found = stored_pairs(rt.alloc());
    assert!(rt; found.is_some());
    let Some(stored) = found else { return };
    for expr in &OF_TWO {
        assert!(rt; agrees_on(&rt, &stored, "", expr, ""), "{expr}");
    }
}

// Whether an expression, as an output and in WHERE, is answered as the plain evaluator answers it.
fn agrees_on<R: Threads + Sync + RandomSource + AllocGlobal>(
    rt: &R,
    stored: &Stored,
    before: &str,
    middle: &str,
    behind: &str,
) -> bool {
    let alloc = rt.alloc();
    let (Ok(output), Ok(filter)) = (
        format!(in alloc; "SELECT {before}{middle}{behind} AS v FROM t"),
        format!(in alloc; "SELECT a AS a, b AS b FROM t WHERE {before}{middle}{behind}"),
    ) else {
        return false;
    };
    agrees(rt, stored, output.as_str()) && agrees(rt, stored, filter.as_str())
}

// Whether a query over the rows is answered with the lines of the plain evaluator.
fn agrees<R: Threads + Sync + RandomSource + AllocGlobal>(
    rt: &R,
    stored: &Stored,
    sql: &str,
) -> bool {
    match plain_lines(rt.alloc(), stored, sql) {
        Some(wanted) => ends_on(rt, sql, &stored.file, (0, wanted.as_slice(), "")),
        None => false,
    }
}

// The lines of a query over the rows, by the plain evaluator.
fn plain_lines(alloc: Global, stored: &Stored, sql: &str) -> Option<Bytes> {
    match read(alloc, sql) {
        Ok(query) => {
            let lines = lines_of(alloc, stored, &query);
            drop(query);
            lines
        }
        Err(_) => None,
    }
}

fn lines_of(alloc: Global, stored: &Stored, query: &Query) -> Option<Bytes> {
    let Outputs::Named(items) = &query.outputs else {
        return None;
    };
    let rows = values_in(alloc, stored)?;
    let mut lines = Bytes::new(alloc);
    for row in rows.as_slice() {
        add_line(alloc, &mut lines, items, &query.filter, row)?;
    }
    Some(lines)
}

// The rows of a block, as values.
fn values_in(alloc: Global, stored: &Stored) -> Option<Items> {
    let block = open_block(alloc, stored.block.as_slice(), stored.count).ok()?;
    let mut rows = Items::new(alloc);
    for at in 0..block.rows() {
        let row = value_of(alloc, &block.row(at), block.table()).ok()?;
        rows.push(row).ok()?;
    }
    Some(rows)
}

// Adds the line of a row, if WHERE keeps it.
fn add_line(
    alloc: Global,
    lines: &mut Bytes,
    items: &OutItems,
    filter: &Option<Operand>,
    row: &Value,
) -> Option<()> {
    if is_kept(alloc, filter, row)? {
        let line = line_of(alloc, items, row)?;
        lines.push_all(line.as_slice()).ok()?;
    }
    Some(())
}

fn is_kept(alloc: Global, filter: &Option<Operand>, row: &Value) -> Option<bool> {
    match filter {
        None => Some(true),
        Some(test) => {
            let value = eval_row(alloc, test, row, &Value::Missing).ok()?;
            Some(matches!(&value, Value::Bool(true)))
        }
    }
}

// The line of named outputs on a row.
fn line_of(alloc: Global, items: &OutItems, row: &Value) -> Option<Bytes> {
    let mut line = LineMaker::new(alloc).ok()?;
    for at in 0..items.len() {
        let Some(item) = items.get(at) else { continue };
        add_pair(alloc, &mut line, item, row)?;
    }
    line.finish().ok()
}

fn add_pair(alloc: Global, line: &mut LineMaker, item: &Item, row: &Value) -> Option<()> {
    let Some(name) = &item.name else { return None };
    let value = eval_row(alloc, &item.expr, row, &Value::Missing).ok()?;
    if !LineMaker::takes(&value) {
        return None;
    }
    line.put_value(name.as_str(), &value).ok()
}
