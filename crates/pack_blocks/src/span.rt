//! The times that rows hold in their own pair of a field.
ghost use Rattle.std.specs.Prelude.{◌≡◌, ℕ, ℤ, List, [], ◌∷◌, ◌++◌, Some};
ghost use Rattle.std.specs.Option.{option_map};
ghost use Rattle.std.specs.Int.{int_min, int_max};
ghost use Rattle.snel_values.specs.View.{view, views};
ghost use Rattle.tree_meaning.specs.Tree.{name as by_name};
ghost use Rattle.eval_meaning.specs.Paths.{step_of};
ghost use Rattle.pack_meaning.specs.PackedFiles.{as_moment, times_in, least_of, greatest_of};
ghost use Rattle.pack_blocks.specs.Spans.{IsSpan, grown};

use snel_values::Value;

/// The least and the greatest of times, and whether there are any.
#[derive(Clone, Copy)]
pub(crate) struct Span {
    pub(crate) any: bool,
    pub(crate) least: i64,
    pub(crate) greatest: i64,
}

/// The least and the greatest time that the rows hold in their own pair of the field, 1 and 0 where there are none.
pub(crate) fn span_of(rows: &[Value], field: Option<&str>) -> (i64, i64)
    ensures least { result.0 ≡ least_of (times_in (option_map (λ s. s.now) field.entry) (views rows.now)) }
    ensures greatest { result.1 ≡ greatest_of (times_in (option_map (λ s. s.now) field.entry) (views rows.now)) }
{
    match field {
        Some(field) => {
            let span = field_span(rows, field);
            (span.least, span.greatest)
        }
        None => (1, 0),
    }
}

fn field_span(rows: &[Value], field: &str) -> Span
    ensures { IsSpan (times_in (Some field.now) (views rows.now)) result }
{
    let mut span = Span {
        any: false,
        least: 1,
        greatest: 0,
    };
    for row in rows {
        span = with_own(span, row, field);
    }
    span
}

/// The span with the time of one more row, if it holds one.
fn with_own(span: Span, row: &Value, field: &str) -> Span
    ensures { (ts : List ℤ) → IsSpan ts span → IsSpan (grown (as_moment (step_of (by_name field.now) (view row.now))) ts) result }
{
    match own_time(row, field) {
        Some(time) => with_time(span, time),
        None => span,
    }
}

/// The span with one more time.
#[tactic(auto, using(crate::proofs::Spans::span_first, crate::proofs::Spans::span_wider))]
fn with_time(span: Span, time: i64) -> Span
    ensures { (ts : List ℤ) → IsSpan ts span → IsSpan (ts ++ time ∷ []) result }
{
    if span.any {
        raised(lowered(span, time), time)
    } else {
        Span {
            any: true,
            least: time,
            greatest: time,
        }
    }
}

/// The span with the time as its least, where it is below that.
fn lowered(span: Span, time: i64) -> Span
    ensures { result ≡ record span { least = int_min span.least time } }
{
    if time < span.least {
        let mut lower = span;
        lower.least = time;
        return lower;
    }
    span
}

/// The span with the time as its greatest, where it is above that.
fn raised(span: Span, time: i64) -> Span
    ensures { result ≡ record span { greatest = int_max span.greatest time } }
{
    if span.greatest < time {
        let mut higher = span;
        higher.greatest = time;
        return higher;
    }
    span
}

/// The time that the row holds in its own pair of the field.
#[tactic(auto, using(crate::proofs::Spans::own_found, crate::proofs::Spans::own_absent))]
fn own_time(row: &Value, field: &str) -> Option<i64>
    ensures { result ≡ as_moment (step_of (by_name field.now) (view row.now)) }
{
    match row {
        Value::Struct(pairs) => match pairs.get(field) {
            Some(value) => moment_of(value),
            None => None,
        },
        _ => None,
    }
}

/// The value, if it is a time.
fn moment_of(value: &Value) -> Option<i64>
    ensures { result ≡ as_moment (view value.now) }
{
    match value {
        Value::Time(time) => Some(*time),
        _ => None,
    }
}
