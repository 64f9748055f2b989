ghost use Rattle.std.specs.Prelude.{◌≡◌, ◌<◌, ℕ, true};
ghost use Rattle.block_meaning.specs.Tables.{Table};
ghost use Rattle.eval_meaning.specs.Comparisons.{compare};
ghost use Rattle.lane_base.specs.Bits.{has};
ghost use Rattle.lane_base.specs.Registers.{value_at, under, AreLegal, AreLegalIn};
ghost use Rattle.lane_compare.specs.Comparing.{is_comparison};

use crate::numbers::numbers_meet;
use crate::strict::null16;
use crate::texts::texts_meet;
use crate::truths::truths_meet;
use lane_base::{LaneMask, Lanes};
use tree_meaning::BinOp;

/// `a op b` in the lanes of `m`, where `op` is `=`, `<>`, `<`, `<=`, `>` or `>=`.
pub fn compare16<'b>(op: BinOp, a: &Lanes<'b>, b: &Lanes<'b>, m: LaneMask) -> Lanes<'b>
    requires { is_comparison op ≡ true }
    ensures value { (table : Table) → AreLegalIn table m.0 a.now → AreLegalIn table m.0 b.now
        → (i : ℕ) → i < 16 → value_at table result i
        ≡ under (has m.0 i) (compare op (value_at table a.now i) (value_at table b.now i)) }
    ensures legal { (table : Table) → AreLegal table result }
{
    let null = null16(a, b, m);
    let truths = (a.yes.0 | a.no.0) & (b.yes.0 | b.no.0);
    let numbers = (a.int.0 & b.int.0) | (a.time.0 & b.time.0);
    let texts = a.text.0 & b.text.0;
    let rest = m.minus(null);
    let both = LaneMask(truths | numbers | texts).and(rest);
    let truths_met = LaneMask(truths).and(truths_meet(op, a.yes, b.yes));
    let numbers_met = LaneMask(numbers).and(numbers_meet(op, &a.nums, &b.nums));
    let texts_met = texts_meet(op, &a.spans, &b.spans, rest.and(LaneMask(texts)));
    let yes = both.and(truths_met.or(numbers_met).or(texts_met));
    Lanes::truths(null, yes, both.minus(yes))
}
