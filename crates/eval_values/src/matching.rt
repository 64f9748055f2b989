ghost use Rattle.std.specs.Prelude.{◌≡◌, ◌==◌, ◌||◌, IfOk, map};
ghost use Rattle.std.specs.Str.{chars};
ghost use Rattle.std.specs.Char.{to_ascii_lowercase};
ghost use Rattle.snel_values.specs.View.{view};
ghost use Rattle.eval_meaning.specs.Matching as spec;

use snel_values::{OutOfMemory, Value};
use std::alloc::Global;
use tree_meaning::How;

/// Whether the value, if it is a text, matches.
pub fn matching_of(
    alloc: Global,
    how: How,
    pattern: &str,
    value: &Value,
) -> Result<Value, OutOfMemory>
    ensures { IfOk result (λ v. view v ≡ spec.matching_of how pattern.now (view value.now)) }
{
    match value {
        Value::Null => Ok(Value::Null),
        Value::Text(text) => Ok(Value::Bool(matches(alloc, how, pattern, text.as_str())?)),
        _ => Ok(Value::Missing),
    }
}

/// `CHAR_LENGTH(value)`
pub(crate) fn char_length(alloc: Global, value: &Value) -> Result<Value, OutOfMemory>
    ensures { IfOk result (λ v. view v ≡ spec.char_length (view value.now)) }
{
    match value {
        Value::Null => Ok(Value::Null),
        Value::Text(text) => {
            let characters = characters(alloc, text.as_str())?;
            Ok(Value::Int(characters.len() as i128))
        }
        _ => Ok(Value::Missing),
    }
}

/// Whether a text matches.
fn matches(alloc: Global, how: How, pattern: &str, text: &str) -> Result<bool, OutOfMemory>
    ensures { IfOk result (λ b. b ≡ spec.matches how pattern.now text.now) }
{
    match how {
        How::Like => {
            let pattern = characters(alloc, pattern)?;
            let text = characters(alloc, text)?;
            Ok(likes(&pattern, &text))
        }
        How::ILike => {
            let pattern = lowered(alloc, pattern)?;
            let text = lowered(alloc, text)?;
            Ok(likes(&pattern, &text))
        }
        How::Starts => Ok(text.as_bytes().starts_with(pattern.as_bytes())),
        How::Ends => Ok(text.as_bytes().ends_with(pattern.as_bytes())),
        How::Contains => Ok(stands_in(pattern.as_bytes(), text.as_bytes())),
    }
}

/// The characters of a text.
#[tactic(auto, using(std::proofs::lemmas::Str::chars_from_encodes))]
fn characters(alloc: Global, text: &str) -> Result<Vec<char>, OutOfMemory>
    ensures { IfOk result (λ v. v.items ≡ chars text.now) }
{
    Ok(text.chars().collect(alloc)?)
}

/// The characters of a text, A-Z as a-z.
fn lowered(alloc: Global, text: &str) -> Result<Vec<char>, OutOfMemory>
    ensures { IfOk result (λ v. v.items ≡ map to_ascii_lowercase (chars text.now)) }
{
    let characters = characters(alloc, text)?;
    Ok(
        characters
            .iter()
            .map(|c| c.to_ascii_lowercase())
            .collect(alloc)?,
    )
}

/// Whether a text matches a pattern, of which `%` stands for any run of characters and `_` for one.
#[cycle(likes)]
#[tactic(auto, unfolding(eval_meaning::specs::Matching::likes))]
fn likes(pattern: &[char], text: &[char]) -> bool
    ensures { result ≡ spec.likes pattern.now text.now }
{
    match pattern {
        [] => text.is_empty(),
        [sign, later @ ..] => {
            if *sign == '%' {
                some_suffix_likes(later, text)
            } else {
                match text {
                    [] => false,
                    [first, rest @ ..] => stands_for(*sign, *first) && likes(later, rest),
                }
            }
        }
    }
}

/// Whether the text or a suffix of it matches the pattern.
#[cycle(likes)]
fn some_suffix_likes(pattern: &[char], text: &[char]) -> bool
    ensures { result ≡ spec.some_suffix (spec.likes pattern.now) text.now }
{
    match text {
        [] => likes(pattern, text),
        [_, rest @ ..] => likes(pattern, text) || some_suffix_likes(pattern, rest),
    }
}

/// Whether a sign of a pattern other than `%` stands for the character.
fn stands_for(sign: char, character: char) -> bool
    ensures { result ≡ (sign == 95 || sign == character) }
{
    sign == '_' || sign == character
}

/// Whether the bytes stand somewhere in others.
#[tactic(auto, unfolding(eval_meaning::specs::Matching::stands_in))]
fn stands_in(part: &[u8], whole: &[u8]) -> bool
    ensures { result ≡ spec.stands_in part.now whole.now }
{
    match whole {
        [] => whole.starts_with(part),
        [_, rest @ ..] => whole.starts_with(part) || stands_in(part, rest),
    }
}
