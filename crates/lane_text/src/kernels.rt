//! The kernels: the masks of the lanes that are texts, and a loop over those lanes alone.

ghost use Rattle.std.specs.Prelude.{◌≡◌, ◌<◌, ℕ, true, ◌&&◌, length, pos};
ghost use Rattle.std.specs.Str.{IsUtf8, chars};
ghost use Rattle.block_meaning.specs.Tables.{Table};
ghost use Rattle.eval_meaning.specs.Matching.{matches, matching_of, char_length};
ghost use Rattle.lane_base.specs.Bits.{has};
ghost use Rattle.lane_base.specs.Registers.{value_at, under, number_at, span_at, AreLegal, AreLegalIn};

use crate::count::char_count;
use crate::pattern::Pattern;
use lane_base::{IntLanes, LaneMask, Lanes, SpanLanes};

/// `a LIKE pattern` in the lanes of `m`, or another of the five ways to match.
pub fn match16<'b>(pattern: &Pattern, a: &Lanes<'b>, m: LaneMask) -> Lanes<'b>
    ensures value { (table : Table) → AreLegalIn table m.0 a.now → (i : ℕ) → i < 16
        → value_at table result i ≡ under (has m.0 i)
        (matching_of pattern.now.how pattern.now.text (value_at table a.now i)) }
    ensures legal { (table : Table) → AreLegal table result }
{
    let texts = m.and(a.text);
    let yes = matching(pattern, &a.spans, texts);
    Lanes::truths(m.and(a.null), yes, texts.minus(yes))
}

/// `CHAR_LENGTH(a)` in the lanes of `m`.
pub fn length16<'b>(a: &Lanes<'b>, m: LaneMask) -> Lanes<'b>
    ensures value { (table : Table) → AreLegalIn table m.0 a.now → (i : ℕ) → i < 16
        → value_at table result i ≡ under (has m.0 i) (char_length (value_at table a.now i)) }
    ensures legal { (table : Table) → AreLegal table result }
{
    let texts = m.and(a.text);
    Lanes::ints(m.and(a.null), texts, lengths(&a.spans, texts))
}

/// The lanes of `texts` whose spans match.
fn matching(pattern: &Pattern, spans: &SpanLanes<'_>, texts: LaneMask) -> LaneMask
    ensures value { (i : ℕ) → i < 16 → (has texts.0 i ≡ true → IsUtf8 (span_at spans.now.lanes i))
        → has result.0 i ≡ (has texts.0 i
        && matches pattern.now.how pattern.now.text (span_at spans.now.lanes i)) }
    ensures within { (i : ℕ) → has result.0 i ≡ (has texts.0 i && has result.0 i) }
{
    let mut yes = LaneMask::none();
    for i in 0..16u32 {
        yes = yes.with_lane(i, matches_in(pattern, spans, texts, i));
    }
    yes
}

/// Whether the lane, which is below 16, is in `texts` and its span matches.
fn matches_in(pattern: &Pattern, spans: &SpanLanes<'_>, texts: LaneMask, lane: u32) -> bool
    requires { lane < 16 }
    ensures value { (has texts.0 lane ≡ true → IsUtf8 (span_at spans.now.lanes lane))
        → result ≡ (has texts.0 lane
        && matches pattern.now.how pattern.now.text (span_at spans.now.lanes lane)) }
    ensures within { result ≡ (has texts.0 lane && result) }
{
    texts.has(lane) && pattern.matches(spans.lanes[lane as usize])
}

/// The count of the characters of each span in a lane of `texts`.
fn lengths(spans: &SpanLanes<'_>, texts: LaneMask) -> IntLanes
    ensures { (i : ℕ) → i < 16 → has texts.0 i ≡ true → IsUtf8 (span_at spans.now.lanes i)
        → number_at result.lanes i ≡ pos (length (chars (span_at spans.now.lanes i))) }
{
    let mut lanes = [0i64; 16];
    for i in 0..16usize {
        lanes[i] = length_in(spans, texts, i as u32);
    }
    IntLanes { lanes }
}

/// The count of the characters of the span of the lane, which is below 16, where it is in `texts`.
fn length_in(spans: &SpanLanes<'_>, texts: LaneMask, lane: u32) -> i64
    requires { lane < 16 }
    ensures { has texts.0 lane ≡ true → IsUtf8 (span_at spans.now.lanes lane)
        → result ≡ pos (length (chars (span_at spans.now.lanes lane))) }
{
    if texts.has(lane) {
        char_count(spans.lanes[lane as usize])
    } else {
        0
    }
}
