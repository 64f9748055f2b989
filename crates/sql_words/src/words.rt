ghost use Rattle.std.specs.Prelude.{◌≡◌};
ghost use Rattle.std.specs.Array.Iter.{array_into_iter_items};
ghost use Rattle.query_meaning.specs.Words as spec;

use std::array;
use tree_meaning::{CastTo, Part};

/// The part of a time that a word names, in any case.
pub fn part_word(word: &str) -> Option<Part>
    ensures { result ≡ spec.part_word word.now }
{
    for candidate in parts() {
        if part_text(candidate).eq_ignore_ascii_case(word) {
            return Some(candidate);
        }
    }
    None
}

/// The parts, in the order in which they are tried.
fn parts() -> array::IntoIter<Part, 9>
    ensures { array_into_iter_items result ≡ spec.parts }
{
    [
        Part::Microsecond,
        Part::Second,
        Part::Minute,
        Part::Hour,
        Part::Day,
        Part::Week,
        Part::Month,
        Part::Quarter,
        Part::Year,
    ]
    .into_iter()
}

/// A part of a time, as it is printed.
fn part_text(part: Part) -> &'static str
    ensures { result.now ≡ spec.part_text part }
{
    match part {
        Part::Microsecond => "MICROSECOND",
        Part::Second => "SECOND",
        Part::Minute => "MINUTE",
        Part::Hour => "HOUR",
        Part::Day => "DAY",
        Part::Week => "WEEK",
        Part::Month => "MONTH",
        Part::Quarter => "QUARTER",
        Part::Year => "YEAR",
    }
}

/// What the word behind AS in a CAST names, in any case.
#[tactic(auto, unfolding(query_meaning::specs::Words::cast_word))]
pub fn cast_word(word: &str) -> Option<CastTo>
    ensures { result ≡ spec.cast_word word.now }
{
    if "INTEGER".eq_ignore_ascii_case(word) {
        return Some(CastTo::Integer);
    }
    if "BOOLEAN".eq_ignore_ascii_case(word) {
        return Some(CastTo::Boolean);
    }
    None
}
