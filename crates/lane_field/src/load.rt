//! Loading: what lanes show whose cells are given.

ghost use Rattle.std.specs.Prelude.{◌≡◌, ◌<◌, ℕ, [], IfSome, cond, nat_eq, unwrap_or, true};
ghost use Rattle.std.specs.Str.{IsUtf8};
ghost use Rattle.block_meaning.specs.Tables.{Table};
ghost use Rattle.block_meaning.specs.CellReading.{is_cell};
ghost use Rattle.ion_cells.specs.Values.{text_in};
ghost use Rattle.ion_cells.specs.Shown.{Fits, cell_bytes};
ghost use Rattle.ion_cells.specs.Shown as cells;
ghost use Rattle.lane_base.specs.Bits.{has};
ghost use Rattle.lane_base.specs.Shown.{IsLegal, value_under};
ghost use Rattle.lane_base.specs.Shown as to;
ghost use Rattle.lane_base.specs.Registers.{seen, shown, value_at, number_at, span_at, AreLegal};
ghost use Rattle.lane_field.specs.CellsOf.{cell_in, cell_within, denoted, IsCellOf, AreCellsOf};
ghost use Rattle.lane_field.specs.Loaded.{TextsAre};
ghost use Rattle.lane_field.specs.Steps.{AreUnder};

use crate::cells::CellLanes;
use crate::masks::and_lane;
use ion_cells::{Cell, Content};
use ion_symtab::SymTab;
use lane_base::{IntLanes, LaneMask, Lanes, Look, SpanLanes};

/// The same cell, under the tables of this table's last number.
#[inline(always)]
fn under_table<'b>(cell: Cell<'b>, table: &SymTab<'_>) -> Cell<'b>
    requires { IsCellOf table.now cell }
    ensures fits { Fits table.now result }
    ensures bytes { cell_bytes result ≡ cell_bytes cell.entry }
    ensures legal { is_cell table.now (cell_bytes result) ≡ true }
{
    cell.under(table.last())
}

/// What a lane shows that the cell is loaded into.
#[inline(always)]
fn look_of<'b>(cell: &Cell<'b>, table: &SymTab<'b>) -> Look<'b>
    requires fits { Fits table.now cell.now }
    requires legal { is_cell table.now (cell_bytes cell.now) ≡ true }
    ensures value { value_under table.now (seen result) ≡ cells.shown table.now cell.now }
    ensures legal { IsLegal table.now (seen result) }
{
    match cell.content() {
        Content::Null => Look::Null,
        Content::Bool(truth) => Look::Bool(truth),
        Content::Int(number) => Look::Int(number),
        Content::Time(micros) => Look::Time(micros),
        Content::Symbol(number) => Look::Text(table.name_of(number).as_bytes()),
        Content::Text(text) => Look::Text(text.as_bytes()),
        Content::List(_) => Look::Tree(cell.bytes()),
        Content::Struct(_) => Look::Tree(cell.bytes()),
    }
}

/// What a lane shows that the cell is loaded into, MISSING where there is none.
#[inline(always)]
pub(crate) fn look_in<'b>(cell: Option<Cell<'b>>, table: &SymTab<'b>) -> Look<'b>
    requires { IfSome cell (IsCellOf table.now) }
    ensures value { value_under table.now (seen result) ≡ denoted table.now cell.entry }
    ensures legal { IsLegal table.now (seen result) }
{
    match cell {
        Some(cell) => look_of(&under_table(cell, table), table),
        None => Look::Missing,
    }
}

/// Lanes that are all MISSING.
#[inline(always)]
pub(crate) fn all_missing<'b>() -> Lanes<'b>
    ensures { (i : ℕ) → shown result i ≡ to.Missing }
{
    Lanes {
        null: LaneMask(0),
        yes: LaneMask(0),
        no: LaneMask(0),
        int: LaneMask(0),
        time: LaneMask(0),
        text: LaneMask(0),
        tree: LaneMask(0),
        nums: IntLanes { lanes: [0; 16] },
        spans: SpanLanes { lanes: [&[]; 16] },
    }
}

/// Puts a number into the lane, which is below 16.
#[inline(always)]
#[tactic(auto, using(crate::proofs::Putting::put_at))]
fn put_number(nums: &mut IntLanes, lane: u32, number: i64)
    requires { lane < 16 }
    ensures { (i : ℕ) → number_at nums.new.lanes i
        ≡ cond (nat_eq i lane) number (number_at nums.old.lanes i) }
{
    nums.lanes[lane as usize] = number;
}

/// Puts bytes into the lane, which is below 16.
#[inline(always)]
fn put_span<'b>(spans: &mut SpanLanes<'b>, lane: u32, bytes: &'b [u8])
    requires { lane < 16 }
    ensures { (i : ℕ) → span_at spans.new.lanes i
        ≡ cond (nat_eq i lane) bytes.now (span_at spans.old.lanes i) }
{
    spans.lanes[lane as usize] = bytes;
}

/// Lets a lane that is MISSING show this. The lane is below 16.
#[inline(always)]
pub(crate) fn put<'b>(lanes: &mut Lanes<'b>, lane: u32, look: Look<'b>)
    requires within { lane < 16 }
    requires missing { shown lanes.old lane ≡ to.Missing }
    ensures { (i : ℕ) → i < 16 → shown lanes.new i
        ≡ cond (nat_eq i lane) (seen look.entry) (shown lanes.old i) }
{
    match look {
        Look::Missing => {}
        Look::Null => lanes.null = and_lane(lanes.null, lane),
        Look::Bool(true) => lanes.yes = and_lane(lanes.yes, lane),
        Look::Bool(false) => lanes.no = and_lane(lanes.no, lane),
        Look::Int(number) => {
            put_number(&mut lanes.nums, lane, number);
            lanes.int = and_lane(lanes.int, lane);
        }
        Look::Time(micros) => {
            put_number(&mut lanes.nums, lane, micros);
            lanes.time = and_lane(lanes.time, lane);
        }
        Look::Text(bytes) => {
            put_span(&mut lanes.spans, lane, bytes);
            lanes.text = and_lane(lanes.text, lane);
        }
        Look::Tree(bytes) => {
            put_span(&mut lanes.spans, lane, bytes);
            lanes.tree = and_lane(lanes.tree, lane);
        }
    }
}

/// The bytes of the cell's text, none where there is no cell or it is of another kind.
#[inline(always)]
fn span_in<'b>(cell: Option<Cell<'b>>, table: &SymTab<'b>) -> &'b [u8]
    requires { IfSome cell (IsCellOf table.now) }
    ensures { result.now ≡ unwrap_or (text_in (denoted table.now cell.entry)) [] }
{
    match look_in(cell, table) {
        Look::Text(bytes) => bytes,
        _ => &[],
    }
}

/// The bytes of the lanes of `m` whose cells are of the kinds Text and Symbol, and none in every other lane. A symbol cell
/// has the table's text. Each cell in a lane of `m` is one under the table.
pub fn texts16<'b>(c: &CellLanes<'b>, table: &SymTab<'b>, m: LaneMask) -> SpanLanes<'b>
    requires { AreCellsOf table.now m.0 c.now }
    ensures { TextsAre table.now m.0 c.now result.lanes }
{
    let mut lanes: [&'b [u8]; 16] = [&[]; 16];
    for i in 0..16usize {
        lanes[i] = span_in(c.get_in(i as u32, m), table);
    }
    SpanLanes { lanes }
}

/// Lanes that show what the cells of the lanes of `m` denote under the table. A lane without a cell is MISSING, and so is
/// each lane outside `m`. Each cell in a lane of `m` is one under the table.
#[inline(always)]
pub fn load16<'b>(c: &CellLanes<'b>, table: &SymTab<'b>, m: LaneMask) -> Lanes<'b>
    requires { AreCellsOf table.now m.0 c.now }
    ensures value { (i : ℕ) → i < 16
        → value_at table.now result i ≡ denoted table.now (cell_within m.0 c.now i) }
    ensures legal { AreLegal table.now result }
    ensures under { (mask : ℕ) → AreUnder table.now mask result }
{
    let _last = table.last();
    let mut lanes = all_missing();
    for i in 0..16u32 {
        put(&mut lanes, i, look_in(c.get_in(i, m), table));
    }
    lanes
}
