ghost use Rattle.std.specs.Prelude.{ℕ, IfSome};
ghost use Rattle.ion_cells.specs.Shown.{Fits};
ghost use Rattle.lane_field.specs.CellsOf.{AreCellsOf};

use crate::looks::is_look;
use ion_cells::{Cell, cell_at};
use ion_symtab::{SymTab, read};
use lane_base::{LaneMask, Lanes, Look};
use lane_field::{CellLanes, bools16, find16, ints16, item16, kinds16, load16, micros16, texts16};
use std::process::Abort;
use std::test::Fail;

/// The table of `a` and `b`.
const TABLE: &[u8] = &[0xE9, 0x81, 0x83, 0xD6, 0x87, 0xB4, 0x81, 0x61, 0x81, 0x62];

/// `{"a":1,"b":"x"}`, `{"a":null}`, `{"b":-7}`, `{}`, `{"a":"a"}` by a symbol, `{"a":[false,true]}`, `{"a":{"b":3}}`, a typed
/// null, the list `[1,null,"a"]`, 42, and 2023-11-14T22:13:20Z as `{"b": ..}`.
const ROWS: [&[u8]; 11] = [
    &[0xD6, 0x8A, 0x21, 0x01, 0x8B, 0x81, 0x78],
    &[0xD2, 0x8A, 0x0F],
    &[0xD3, 0x8B, 0x31, 0x07],
    &[0xD0],
    &[0xD3, 0x8A, 0x71, 0x0A],
    &[0xD4, 0x8A, 0xB2, 0x10, 0x11],
    &[0xD5, 0x8A, 0xD3, 0x8B, 0x21, 0x03],
    &[0xDF],
    &[0xB5, 0x21, 0x01, 0x2F, 0x71, 0x0A],
    &[0x21, 0x2A],
    &[
        0xDA, 0x8B, 0x68, 0x80, 0x0F, 0xE7, 0x8B, 0x8E, 0x96, 0x8D, 0x94,
    ],
];

/// The cell that the bytes begin with, if there is one.
fn checked<'b>(row: &'b [u8], table: &SymTab<'b>) -> Option<Cell<'b>>
    ensures { IfSome result (Fits table.now) }
{
    if row.len() > 1000 {
        return None;
    }
    match cell_at(row, 0, table.last()) {
        Ok(cell) => Some(cell),
        Err(_) => None,
    }
}

/// The rows in the first lanes.
fn lanes_of<'b>(rows: &[&'b [u8]], table: &SymTab<'b>) -> CellLanes<'b>
    ensures { (mask : ℕ) → AreCellsOf table.now mask result }
{
    let mut cells = CellLanes::none();
    for i in 0..16u32 {
        if (i as usize) < rows.len() {
            cells.put(i, checked(rows[i as usize], table));
        }
    }
    cells
}

/// The lanes show these in order, and MISSING after them.
fn shows(rt: &impl Abort, lanes: &Lanes<'_>, wanted: &[Look<'_>]) {
    for lane in 0..16u32 {
        let look = lanes.look(lane);
        let want = if (lane as usize) < wanted.len() {
            wanted[lane as usize]
        } else {
            Look::Missing
        };
        assert!(rt; is_look(look, want), "lane {lane}");
    }
}

#[test]
fn finds_and_loads_every_kind(rt: HostRuntime) -> Result<(), Fail> {
    let Ok((table, _)) = read(rt.alloc(), TABLE, 0) else {
        return Err("no table".into());
    };
    let all = LaneMask::all();
    let rows = lanes_of(&ROWS, &table);
    let lanes = load16(&rows, &table, all);
    let a = find16(&lanes, table.number_of("a"), all);
    shows(
        &rt,
        &load16(&a, &table, all),
        &[
            Look::Int(1),
            Look::Null,
            Look::Missing,
            Look::Missing,
            Look::Text(b"a"),
            Look::Tree(&[0xB2, 0x10, 0x11]),
            Look::Tree(&[0xD3, 0x8B, 0x21, 0x03]),
        ],
    );
    let b = find16(&lanes, table.number_of("b"), all);
    shows(
        &rt,
        &load16(&b, &table, all),
        &[
            Look::Text(b"x"),
            Look::Missing,
            Look::Int(-7),
            Look::Missing,
            Look::Missing,
            Look::Missing,
            Look::Missing,
            Look::Missing,
            Look::Missing,
            Look::Missing,
            Look::Time(1_700_000_000_000_000),
        ],
    );
    shows(
        &rt,
        &load16(&find16(&lanes, table.number_of("c"), all), &table, all),
        &[],
    );
    Ok(())
}

#[test]
fn loads_rows_and_items(rt: HostRuntime) -> Result<(), Fail> {
    let Ok((table, _)) = read(rt.alloc(), TABLE, 0) else {
        return Err("no table".into());
    };
    let rows = lanes_of(&ROWS, &table);
    let all = LaneMask::all();
    let lanes = load16(&rows, &table, all);
    assert!(rt; is_look(lanes.look(7), Look::Null), "a typed null");
    assert!(rt; is_look(lanes.look(9), Look::Int(42)), "a number");
    for (place, want) in [
        (0, Look::Int(1)),
        (1, Look::Null),
        (2, Look::Text(b"a")),
        (3, Look::Missing),
    ] {
        let items = load16(&item16(&lanes, place, all), &table, all);
        assert!(rt; is_look(items.look(8), want), "item {place}");
        assert!(rt; is_look(items.look(0), Look::Missing), "no list");
    }
    let none = load16(&item16(&lanes, 0, LaneMask(0x00FF)), &table, all);
    assert!(rt;
        is_look(none.look(8), Look::Missing),
        "a lane outside the mask"
    );
    Ok(())
}

#[test]
fn reads_the_parts_of_cells(rt: HostRuntime) -> Result<(), Fail> {
    let Ok((table, _)) = read(rt.alloc(), TABLE, 0) else {
        return Err("no table".into());
    };
    let cells = lanes_of(
        &[
            &[0x0F],
            &[0x11],
            &[0x10],
            &[0x21, 0x05],
            &[0x68, 0x80, 0x0F, 0xE7, 0x8B, 0x8E, 0x96, 0x8D, 0x94],
            &[0x71, 0x0B],
            &[0x81, 0x79],
            &[0xB0],
            &[0xD0],
        ],
        &table,
    );
    let m = LaneMask(0xFFFF);
    let kinds = kinds16(&cells, m);
    let masks = [
        kinds.nulls,
        kinds.bools,
        kinds.ints,
        kinds.times,
        kinds.symbols,
        kinds.texts,
        kinds.lists,
        kinds.structs,
    ];
    assert_eq!(rt;
        masks,
        [
            LaneMask(1),
            LaneMask(6),
            LaneMask(8),
            LaneMask(16),
            LaneMask(32),
            LaneMask(64),
            LaneMask(128),
            LaneMask(256),
        ]
    );
    assert_eq!(rt; bools16(&cells, m), LaneMask(2));
    assert_eq!(rt; ints16(&cells, m).lanes[3], 5);
    assert_eq!(rt; micros16(&cells, m).lanes[4], 1_700_000_000_000_000);
    let texts = texts16(&cells, &table, m);
    let symbol = texts.lanes[5];
    assert!(rt; symbol == b"b".as_slice(), "a symbol");
    let text = texts.lanes[6];
    assert!(rt; text == b"y".as_slice(), "a text");
    assert!(rt; cells.get(8).is_some(), "a cell");
    assert!(rt; cells.get(9).is_none(), "no cell");
    Ok(())
}
