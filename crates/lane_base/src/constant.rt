ghost use Rattle.std.specs.Prelude.{◌≡◌, ◌<◌, ℕ};
ghost use Rattle.std.specs.Str.{IsUtf8};
ghost use Rattle.value_meaning.specs.Val.{time, text};
ghost use Rattle.time_meaning.specs.Moments.{IsTime};
ghost use Rattle.block_meaning.specs.Tables.{Table};
ghost use Rattle.block_meaning.specs.CellReading.{cell_value};
ghost use Rattle.lane_base.specs.Bits.{has};
ghost use Rattle.lane_base.specs.Shown.{value_under, IsLegal, IsTree};
ghost use Rattle.lane_base.specs.Registers.{value_at, under, seen, AreLegal};

use crate::lanes::{IntLanes, Lanes, Look, SpanLanes};
use crate::mask::LaneMask;

/// The same value in each lane of `m`.
pub fn const16<'b>(value: Look<'b>, m: LaneMask) -> Lanes<'b>
    ensures value { (table : Table) (i : ℕ) → i < 16
        → value_at table result i ≡ under (has m.0 i) (value_under table (seen value.entry)) }
    ensures legal { (table : Table) → IsLegal table (seen value.entry) → AreLegal table result }
{
    let none = LaneMask::none();
    match value {
        Look::Missing => Lanes::truths(none, none, none),
        Look::Null => Lanes::truths(m, none, none),
        Look::Bool(true) => Lanes::truths(none, m, none),
        Look::Bool(false) => Lanes::truths(none, none, m),
        Look::Int(number) => Lanes::ints(
            none,
            m,
            IntLanes {
                lanes: [number; 16],
            },
        ),
        Look::Time(moment) => one_time(moment, m),
        Look::Text(bytes) => one_text(bytes, m),
        Look::Tree(cell) => one_tree(cell, m),
    }
}

// One time in each lane of `m`.
fn one_time<'b>(moment: i64, m: LaneMask) -> Lanes<'b>
    ensures value { (table : Table) (i : ℕ) → i < 16
        → value_at table result i ≡ under (has m.0 i) (time moment) }
    ensures legal { (table : Table) → IsTime moment → AreLegal table result }
{
    Lanes::times(
        LaneMask::none(),
        m,
        IntLanes {
            lanes: [moment; 16],
        },
    )
}

// One text in each lane of `m`.
fn one_text<'b>(bytes: &'b [u8], m: LaneMask) -> Lanes<'b>
    ensures value { (table : Table) (i : ℕ) → i < 16
        → value_at table result i ≡ under (has m.0 i) (text bytes.now) }
    ensures legal { (table : Table) → IsUtf8 bytes.now → AreLegal table result }
{
    Lanes::texts(m, SpanLanes { lanes: [bytes; 16] })
}

// One list or struct in each lane of `m`.
fn one_tree<'b>(cell: &'b [u8], m: LaneMask) -> Lanes<'b>
    ensures value { (table : Table) (i : ℕ) → i < 16
        → value_at table result i ≡ under (has m.0 i) (cell_value table cell.now) }
    ensures legal { (table : Table) → IsTree table cell.now → AreLegal table result }
{
    Lanes::trees(m, SpanLanes { lanes: [cell; 16] })
}
