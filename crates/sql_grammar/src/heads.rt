ghost use Rattle.std.specs.Prelude.{◌≡◌};
ghost use Rattle.query_meaning.specs.declared.Mark.TheVariants as m;
ghost use Rattle.query_meaning.specs.Reading as spec;
ghost use Rattle.tree_meaning.specs.Parts as parts;
ghost use Rattle.sql_words.specs.ReadsAt.{MayPassAt, ReadsAs, ReadsAt};
ghost use Rattle.sql_grammar.specs.HeadView.{head_view};

use query_meaning::{FunctionWord, Mark};
use sql_words::{Look, ParseFault, after, expect, part_word, word_at};
use tree_meaning::{AggName, Func, How, Part};

/// What a call of expressions makes: its function or aggregate, and its part of a time.
#[derive(Clone, Copy)]
pub(crate) enum Head {
    Function(Func),
    Aggregate(AggName),
    Truncation(Part),
    Extraction(Part),
    Addition(Part),
}

/// Whether DATE_TRUNC takes the part.
fn is_cut_to(part: Part) -> bool
    ensures { result ≡ parts.is_cut_to part }
{
    !matches!(part, Part::Microsecond)
}

/// Whether EXTRACT takes the part.
fn is_extracted(part: Part) -> bool
    ensures { result ≡ parts.is_extracted part }
{
    !matches!(part, Part::Week)
}

/// Whether DATE_ADD takes the part.
fn is_added(part: Part) -> bool
    ensures { result ≡ parts.is_added part }
{
    !matches!(part, Part::Month | Part::Quarter | Part::Year)
}

/// The part that stands here and that DATE_TRUNC takes, and the place behind the comma.
#[tactic(auto, unfolding(query_meaning::specs::Reading::part_at))]
fn cut_at(looks: &[Look<'_>], at: usize) -> Result<(Part, usize), ParseFault>
    ensures { ReadsAt looks.now at result (spec.part_at parts.is_cut_to m.Comma) }
{
    let (word, rest) = word_at(looks, at)?;
    match part_word(word) {
        Some(part) if is_cut_to(part) => Ok((part, expect(looks, rest, Mark::Comma)?)),
        _ => Err(ParseFault::NotAQuery),
    }
}

/// The part that stands here and that EXTRACT takes, and the place behind FROM.
#[tactic(auto, unfolding(query_meaning::specs::Reading::part_at))]
fn extracted_at(looks: &[Look<'_>], at: usize) -> Result<(Part, usize), ParseFault>
    ensures { ReadsAt looks.now at result (spec.part_at parts.is_extracted m.From) }
{
    let (word, rest) = word_at(looks, at)?;
    match part_word(word) {
        Some(part) if is_extracted(part) => Ok((part, expect(looks, rest, Mark::From)?)),
        _ => Err(ParseFault::NotAQuery),
    }
}

/// The part that stands here and that DATE_ADD takes, and the place behind the comma.
#[tactic(auto, unfolding(query_meaning::specs::Reading::part_at))]
fn added_at(looks: &[Look<'_>], at: usize) -> Result<(Part, usize), ParseFault>
    ensures { ReadsAt looks.now at result (spec.part_at parts.is_added m.Comma) }
{
    let (word, rest) = word_at(looks, at)?;
    match part_word(word) {
        Some(part) if is_added(part) => Ok((part, expect(looks, rest, Mark::Comma)?)),
        _ => Err(ParseFault::NotAQuery),
    }
}

/// What stands before the expressions of a call, behind its word and `(`, and the place of the
/// first of them.
#[tactic(auto, unfolding(query_meaning::specs::Reading::head_at))]
pub(crate) fn head_at(
    word: FunctionWord,
    looks: &[Look<'_>],
    at: usize,
) -> Result<(Head, usize), ParseFault>
    ensures { ReadsAs head_view looks.now at result (spec.head_at word) }
{
    match word {
        FunctionWord::DateTrunc => {
            let (part, rest) = cut_at(looks, at)?;
            Ok((Head::Truncation(part), rest))
        }
        FunctionWord::Extract => {
            let (part, rest) = extracted_at(looks, at)?;
            Ok((Head::Extraction(part), rest))
        }
        FunctionWord::DateAdd => {
            let (part, rest) = added_at(looks, at)?;
            Ok((Head::Addition(part), rest))
        }
        FunctionWord::Coalesce => Ok((Head::Function(Func::Coalesce), at)),
        FunctionWord::NullIf => Ok((Head::Function(Func::NullIf), at)),
        FunctionWord::CharLength => Ok((Head::Function(Func::CharLength), at)),
        FunctionWord::ToUnixEpoch => Ok((Head::Function(Func::UnixEpoch), at)),
        FunctionWord::ToUnixMicro => Ok((Head::Function(Func::UnixMicro), at)),
        FunctionWord::StartsWith | FunctionWord::EndsWith | FunctionWord::Contains => {
            Err(ParseFault::NotAQuery)
        }
        FunctionWord::Count => Ok((Head::Aggregate(AggName::Count), at)),
        FunctionWord::Sum => Ok((Head::Aggregate(AggName::Sum), at)),
        FunctionWord::Min => Ok((Head::Aggregate(AggName::Min), at)),
        FunctionWord::Max => Ok((Head::Aggregate(AggName::Max), at)),
        FunctionWord::Avg => Ok((Head::Aggregate(AggName::Avg), at)),
        FunctionWord::Earliest => Ok((Head::Aggregate(AggName::Earliest), at)),
        FunctionWord::Latest => Ok((Head::Aggregate(AggName::Latest), at)),
        FunctionWord::BoolAnd => Ok((Head::Aggregate(AggName::BoolAnd), at)),
        FunctionWord::BoolOr => Ok((Head::Aggregate(AggName::BoolOr), at)),
    }
}

/// How a word matches, if it does.
pub(crate) fn match_of(word: FunctionWord) -> Option<How>
    ensures { result ≡ spec.match_of word }
{
    match word {
        FunctionWord::StartsWith => Some(How::Starts),
        FunctionWord::EndsWith => Some(How::Ends),
        FunctionWord::Contains => Some(How::Contains),
        _ => None,
    }
}

/// The place behind `*`, if it stands behind COUNT and `(`.
#[tactic(auto, unfolding(query_meaning::specs::Reading::rows_at))]
pub(crate) fn rows_at(word: FunctionWord, looks: &[Look<'_>], at: usize) -> Option<usize>
    ensures { MayPassAt looks.now at result (spec.rows_at word) }
{
    match word {
        FunctionWord::Count => after(looks, at, Mark::Star),
        _ => None,
    }
}
