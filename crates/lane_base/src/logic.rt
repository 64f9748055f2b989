//! AND, OR, NOT and IS, sixteen lanes at once, by the words of the masks alone.

ghost use Rattle.std.specs.Prelude.{◌≡◌, ◌<◌, ℕ, ◌&&◌};
ghost use Rattle.block_meaning.specs.Tables.{Table};
ghost use Rattle.eval_meaning.specs.Logic.{and_of, or_of, not_of, is_of, is_true};
ghost use Rattle.lane_base.specs.Bits.{has};
ghost use Rattle.lane_base.specs.Asking.{is_so};
ghost use Rattle.lane_base.specs.Registers.{value_at, under, AreLegal, AreLegalIn};

use crate::lanes::Lanes;
use crate::mask::LaneMask;
use tree_meaning::IsWhat;

/// `a AND b` in the lanes of `m`.
pub fn and16<'b>(a: &Lanes<'b>, b: &Lanes<'b>, m: LaneMask) -> Lanes<'b>
    ensures value { (table : Table) → AreLegalIn table m.0 a.now → AreLegalIn table m.0 b.now
        → (i : ℕ) → i < 16
        → value_at table result i ≡ under (has m.0 i)
        (and_of (value_at table a.now i) (value_at table b.now i)) }
    ensures legal { (table : Table) → AreLegal table result }
{
    let null = ((a.null.0 & (b.null.0 | b.yes.0)) | (a.yes.0 & b.null.0)) & m.0;
    let yes = a.yes.0 & b.yes.0 & m.0;
    let no = (a.no.0 | b.no.0) & m.0;
    Lanes::truths(LaneMask(null), LaneMask(yes), LaneMask(no))
}

/// `a OR b` in the lanes of `m`.
pub fn or16<'b>(a: &Lanes<'b>, b: &Lanes<'b>, m: LaneMask) -> Lanes<'b>
    ensures value { (table : Table) → AreLegalIn table m.0 a.now → AreLegalIn table m.0 b.now
        → (i : ℕ) → i < 16
        → value_at table result i ≡ under (has m.0 i)
        (or_of (value_at table a.now i) (value_at table b.now i)) }
    ensures legal { (table : Table) → AreLegal table result }
{
    let null = ((a.null.0 & (b.null.0 | b.no.0)) | (a.no.0 & b.null.0)) & m.0;
    let yes = (a.yes.0 | b.yes.0) & m.0;
    let no = a.no.0 & b.no.0 & m.0;
    Lanes::truths(LaneMask(null), LaneMask(yes), LaneMask(no))
}

/// `NOT a` in the lanes of `m`.
pub fn not16<'b>(a: &Lanes<'b>, m: LaneMask) -> Lanes<'b>
    ensures value { (table : Table) → AreLegalIn table m.0 a.now → (i : ℕ) → i < 16
        → value_at table result i ≡ under (has m.0 i) (not_of (value_at table a.now i)) }
    ensures legal { (table : Table) → AreLegal table result }
{
    let null = a.null.0 & m.0;
    let yes = a.no.0 & m.0;
    let no = a.yes.0 & m.0;
    Lanes::truths(LaneMask(null), LaneMask(yes), LaneMask(no))
}

/// `a IS what` in the lanes of `m`.
pub fn is16<'b>(what: IsWhat, a: &Lanes<'b>, m: LaneMask) -> Lanes<'b>
    ensures value { (table : Table) → AreLegalIn table m.0 a.now → (i : ℕ) → i < 16
        → value_at table result i ≡ under (has m.0 i) (is_of what (value_at table a.now i)) }
    ensures legal { (table : Table) → AreLegal table result }
{
    let yes = asked(what, a, m);
    Lanes::truths(LaneMask::none(), yes, m.minus(yes))
}

// The lanes of `m` in which `a IS what`.
fn asked(what: IsWhat, a: &Lanes<'_>, m: LaneMask) -> LaneMask
    ensures { (table : Table) → AreLegalIn table m.0 a.now → (i : ℕ) → i < 16
        → has result.0 i ≡ (has m.0 i && is_so what (value_at table a.now i)) }
{
    match what {
        IsWhat::Null => m.and(a.null),
        IsWhat::Missing => m.minus(a.present()),
        IsWhat::True => m.and(a.yes),
        IsWhat::False => m.and(a.no),
    }
}

/// The lanes of `m` in which `a` is true.
pub fn true16(a: &Lanes<'_>, m: LaneMask) -> LaneMask
    ensures value { (table : Table) → AreLegalIn table m.0 a.now → (i : ℕ) → i < 16
        → has result.0 i ≡ (has m.0 i && is_true (value_at table a.now i)) }
    ensures within { (i : ℕ) → has result.0 i ≡ (has m.0 i && has result.0 i) }
{
    m.and(a.yes)
}
