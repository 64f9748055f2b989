ghost use Rattle.query_meaning.specs.Reading as spec;
ghost use Rattle.sql_words.specs.ReadsAt.{ReadsAs, ReadsAt};

use crate::fault::ParseFault;
use crate::look::Look;
use crate::quotes::undoubled;
use crate::steps::token;
use snel_values::Text;
use std::alloc::Global;

/// The name that stands here, a word or in quotes, and the place behind.
#[tactic(auto, unfolding(query_meaning::specs::Reading::name_at))]
pub fn name_at(alloc: Global, looks: &[Look<'_>], at: usize) -> Result<(Text, usize), ParseFault>
    ensures { ReadsAt looks.now at result spec.name_at }
{
    match token(looks, at) {
        Some(Look::Word(word)) => Ok((Text::of(alloc, word)?, at + 1)),
        Some(Look::Quoted(inner)) => Ok((undoubled(alloc, inner, b'"')?, at + 1)),
        _ => Err(ParseFault::NotAQuery),
    }
}

/// The word that stands here, and the place behind.
#[tactic(auto, unfolding(query_meaning::specs::Reading::word_at))]
pub fn word_at<'t>(looks: &[Look<'t>], at: usize) -> Result<(&'t str, usize), ParseFault>
    ensures { ReadsAs (λ w. w.now) looks.now at result spec.word_at }
{
    match token(looks, at) {
        Some(Look::Word(word)) => Ok((word, at + 1)),
        _ => Err(ParseFault::NotAQuery),
    }
}

/// The text between quotes that stands here, and the place behind.
#[tactic(auto, unfolding(query_meaning::specs::Reading::string_at))]
pub fn string_at(alloc: Global, looks: &[Look<'_>], at: usize) -> Result<(Text, usize), ParseFault>
    ensures { ReadsAt looks.now at result spec.string_at }
{
    match token(looks, at) {
        Some(Look::Str(inner)) => Ok((undoubled(alloc, inner, b'\'')?, at + 1)),
        _ => Err(ParseFault::NotAQuery),
    }
}

/// The number that stands here, and the place behind.
#[tactic(auto, unfolding(query_meaning::specs::Reading::num_at))]
pub fn num_at(looks: &[Look<'_>], at: usize) -> Result<(u64, usize), ParseFault>
    ensures { ReadsAt looks.now at result spec.num_at }
{
    match token(looks, at) {
        Some(Look::Number(number)) => Ok((number, at + 1)),
        _ => Err(ParseFault::NotAQuery),
    }
}
