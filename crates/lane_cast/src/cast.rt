ghost use Rattle.std.specs.Prelude.{◌≡◌, ◌<◌, ℕ, true, false};
ghost use Rattle.tree_meaning.specs.declared.CastTo.TheVariants as target;
ghost use Rattle.block_meaning.specs.Tables.{Table};
ghost use Rattle.eval_meaning.specs.Casts.{cast_of, to_integer, to_boolean};
ghost use Rattle.lane_base.specs.Bits.{has};
ghost use Rattle.lane_base.specs.Shown.{value_under, IsLegal};
ghost use Rattle.lane_base.specs.Registers.{value_at, under, seen, truth_as, AreLegal, AreLegalIn};
ghost use Rattle.lane_cast.specs.Made.{made_at};
ghost use Rattle.lane_cast.specs.Spelled.{integer_or_missing, truth_or_missing};

use crate::numbers::Made;
use crate::spelled::{spelled_number, spelled_truth};
use lane_base::{IntLanes, LaneMask, Lanes, Look};
use tree_meaning::CastTo;

/// `CAST(a AS to)` in the lanes of `m`.
pub fn cast16<'b>(to: CastTo, a: &Lanes<'b>, m: LaneMask) -> Lanes<'b>
    ensures value { (table : Table) → AreLegalIn table m.0 a.now → (i : ℕ) → i < 16
        → value_at table result i ≡ under (has m.0 i) (cast_of to (value_at table a.now i)) }
    ensures legal { (table : Table) → AreLegal table result }
{
    match to {
        CastTo::Integer => integer16(a, m),
        CastTo::Boolean => boolean16(a, m),
    }
}

// `CAST(a AS INTEGER)` in the lanes of `m`.
fn integer16<'b>(a: &Lanes<'b>, m: LaneMask) -> Lanes<'b>
    ensures value { (table : Table) → AreLegalIn table m.0 a.now → (i : ℕ) → i < 16
        → value_at table result i
        ≡ under (has m.0 i) (cast_of target.Integer (value_at table a.now i)) }
    ensures legal { (table : Table) → AreLegal table result }
{
    let rest = m.minus(a.null);
    let made = integers_of(a, rest);
    Lanes::ints(m.and(a.null), rest.and(made.ok), made.nums)
}

// `CAST(a AS BOOLEAN)` in the lanes of `m`.
fn boolean16<'b>(a: &Lanes<'b>, m: LaneMask) -> Lanes<'b>
    ensures value { (table : Table) → AreLegalIn table m.0 a.now → (i : ℕ) → i < 16
        → value_at table result i
        ≡ under (has m.0 i) (cast_of target.Boolean (value_at table a.now i)) }
    ensures legal { (table : Table) → AreLegal table result }
{
    let rest = m.minus(a.null);
    let made = truths_of(a, rest);
    let yes = rest.and(made.yes);
    Lanes::truths(m.and(a.null), yes, rest.and(made.no).minus(yes))
}

// The numbers that the values in the lanes of `m` are cast to.
fn integers_of(a: &Lanes<'_>, m: LaneMask) -> Made
    ensures { (table : Table) → AreLegalIn table m.0 a.now → (k : ℕ) → k < 16 → has m.0 k ≡ true
        → made_at result k ≡ to_integer (value_at table a.now k) }
{
    let mut nums = [0i64; 16];
    let mut ok = 0u16;
    for i in 0..16u32 {
        if m.has(i) {
            if let Some(number) = integer_of(a.look(i)) {
                nums[i as usize] = number;
                ok |= 1 << i;
            }
        }
    }
    Made {
        nums: IntLanes { lanes: nums },
        ok: LaneMask(ok),
    }
}

// The lanes that are true and those that are false.
#[derive(Clone, Copy)]
struct Truths {
    yes: LaneMask,
    no: LaneMask,
}

// The truth values that the values in the lanes of `m` are cast to.
fn truths_of(a: &Lanes<'_>, m: LaneMask) -> Truths
    ensures { (table : Table) → AreLegalIn table m.0 a.now → (k : ℕ) → k < 16 → has m.0 k ≡ true
        → truth_as false (has result.yes.0 k) (has result.no.0 k)
        ≡ to_boolean (value_at table a.now k) }
{
    let mut yes = 0u16;
    let mut no = 0u16;
    for i in 0..16u32 {
        if m.has(i) {
            match truth_of(a.look(i)) {
                Some(true) => yes |= 1 << i,
                Some(false) => no |= 1 << i,
                None => {}
            }
        }
    }
    Truths {
        yes: LaneMask(yes),
        no: LaneMask(no),
    }
}

// The number that a value is cast to, none where it is MISSING or NULL.
#[inline(always)]
fn integer_of(value: Look<'_>) -> Option<i64>
    ensures { (table : Table) → IsLegal table (seen value.entry)
        → integer_or_missing result ≡ to_integer (value_under table (seen value.entry)) }
{
    match value {
        Look::Int(number) => Some(number),
        Look::Bool(true) => Some(1),
        Look::Bool(false) => Some(0),
        Look::Text(bytes) => spelled_number(bytes),
        _ => None,
    }
}

// The truth value that a value is cast to, none where it is MISSING or NULL.
#[inline(always)]
fn truth_of(value: Look<'_>) -> Option<bool>
    ensures { (table : Table) → IsLegal table (seen value.entry)
        → truth_or_missing result ≡ to_boolean (value_under table (seen value.entry)) }
{
    match value {
        Look::Bool(truth) => Some(truth),
        Look::Int(number) => Some(number != 0),
        Look::Text(bytes) => spelled_truth(bytes),
        _ => None,
    }
}
