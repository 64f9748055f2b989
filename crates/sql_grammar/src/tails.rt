ghost use Rattle.query_meaning.specs.Reading as spec;
ghost use Rattle.sql_words.specs.ReadsAt.{ReadsAt};

use query_meaning::Mark;
use query_tree::Operand;
use sql_forms::{cast, is, matching, not};
use sql_words::{Look, ParseFault, after, cast_word, expect, how_at, string_at, what_at, word_at};
use std::alloc::Global;
use tree_meaning::How;

/// What follows IS.
#[tactic(auto, unfolding(query_meaning::specs::Reading::is_at))]
pub(crate) fn is_at(
    alloc: Global,
    of: Operand,
    looks: &[Look<'_>],
    at: usize,
) -> Result<(Operand, usize), ParseFault>
    ensures { ReadsAt looks.now at result (spec.is_at of) }
{
    match after(looks, at, Mark::Not) {
        None => {
            let (what, behind) = what_at(looks, at)?;
            Ok((is(alloc, what, of)?, behind))
        }
        Some(rest) => {
            let (what, behind) = what_at(looks, rest)?;
            let test = is(alloc, what, of)?;
            Ok((not(alloc, test)?, behind))
        }
    }
}

/// LIKE or ILIKE and a text.
#[tactic(auto, unfolding(query_meaning::specs::Reading::like_at))]
pub(crate) fn like_at(
    alloc: Global,
    of: Operand,
    looks: &[Look<'_>],
    at: usize,
) -> Result<(Operand, usize), ParseFault>
    ensures { ReadsAt looks.now at result (spec.like_at of) }
{
    let (how, rest) = how_at(looks, at)?;
    let (text, behind) = string_at(alloc, looks, rest)?;
    Ok((matching(alloc, how, of, text)?, behind))
}

/// What follows the operand of a CAST.
#[tactic(auto, unfolding(query_meaning::specs::Reading::cast_end))]
pub(crate) fn cast_end(
    alloc: Global,
    of: Operand,
    looks: &[Look<'_>],
    at: usize,
) -> Result<(Operand, usize), ParseFault>
    ensures { ReadsAt looks.now at result (spec.cast_end of) }
{
    let rest = expect(looks, at, Mark::As)?;
    let (word, rest) = word_at(looks, rest)?;
    let Some(to) = cast_word(word) else {
        return Err(ParseFault::NotAQuery);
    };
    let behind = expect(looks, rest, Mark::Close)?;
    Ok((cast(alloc, of, to)?, behind))
}

/// What follows the expression that STARTS_WITH, ENDS_WITH or CONTAINS matches.
#[tactic(auto, unfolding(query_meaning::specs::Reading::match_end))]
pub(crate) fn match_end(
    alloc: Global,
    how: How,
    of: Operand,
    looks: &[Look<'_>],
    at: usize,
) -> Result<(Operand, usize), ParseFault>
    ensures { ReadsAt looks.now at result (spec.match_end how of) }
{
    let rest = expect(looks, at, Mark::Comma)?;
    let (text, rest) = string_at(alloc, looks, rest)?;
    let behind = expect(looks, rest, Mark::Close)?;
    Ok((matching(alloc, how, of, text)?, behind))
}
