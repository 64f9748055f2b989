ghost use Rattle.std.specs.Prelude.{◌≡◌, ◌+◌, ◌-◌, ◌≤◌, map, drop, take, IfOk};
ghost use Rattle.time_meaning.specs.Texts.{time_of};
ghost use Rattle.query_meaning.specs.Words as spec;
ghost use Rattle.query_meaning.specs.Lexing.{number_of, sign_of};
ghost use Rattle.query_meaning.specs.Tokens.{word, no_token, inner, bytes_at, meaning, tokens_in, if_mark, if_moment, if_num};
ghost use Rattle.sql_tree.specs.Lexes.{span_view};
ghost use Rattle.sql_words.specs.Seen.{seen, toks};
ghost use Rattle.sql_words.specs.Slices.{AreTokensOf, IsTokenOf};

use crate::look::Look;
use crate::reserved::reserved_word;
use query_meaning::TokenKind;
use snel_values::OutOfMemory;
use sql_tree::{Token, number_of, sign_of};
use std::alloc::Global;
use time_text::read_time;

/// What the tokens of a text are.
pub fn looks_of<'t>(
    alloc: Global,
    text: &'t str,
    tokens: &[Token],
) -> Result<Vec<Look<'t>>, OutOfMemory>
    requires { AreTokensOf text.now tokens.now }
    ensures { IfOk result (λ l. toks l.items ≡ tokens_in text.now (map span_view tokens.now)) }
{
    let mut looks = Vec::new(alloc);
    for token in tokens {
        looks.push(look_of(text, *token))?;
    }
    Ok(looks)
}

/// What a token is.
#[tactic(auto, unfolding(query_meaning::specs::Tokens::token_of))]
fn look_of<'t>(text: &'t str, token: Token) -> Look<'t>
    requires { IsTokenOf text.now token }
    ensures { seen result ≡ meaning text.now (span_view token) }
{
    match token.kind {
        TokenKind::Word => word_of(whole(text, token)),
        TokenKind::Quoted => Look::Quoted(inside(text, token)),
        TokenKind::Str => Look::Str(inside(text, token)),
        TokenKind::Moment => moment_of(inside(text, token)),
        TokenKind::Number => number_in(whole(text, token)),
        TokenKind::Sign => sign_in(whole(text, token)),
    }
}

/// A reserved word, or another word.
fn word_of(text: &str) -> Look<'_>
    ensures { seen result ≡ if_mark (spec.reserved_word text.now) (word text.now) }
{
    match reserved_word(text) {
        Some(mark) => Look::Mark(mark),
        None => Look::Word(text),
    }
}

/// A time.
fn moment_of(text: &str) -> Look<'_>
    ensures { seen result ≡ if_moment (time_of text.now) }
{
    match read_time(text.as_bytes()) {
        Some(time) => Look::Moment(time),
        None => Look::NoToken,
    }
}

/// A number.
fn number_in(text: &str) -> Look<'_>
    ensures { seen result ≡ if_num (number_of text.now) }
{
    match number_of(text.as_bytes()) {
        Some(number) => Look::Number(number),
        None => Look::NoToken,
    }
}

/// A sign.
fn sign_in(text: &str) -> Look<'_>
    ensures { seen result ≡ if_mark (sign_of text.now) no_token }
{
    match sign_of(text.as_bytes()) {
        Some(mark) => Look::Mark(mark),
        None => Look::NoToken,
    }
}

/// The text of a token.
pub(crate) fn whole(text: &str, token: Token) -> &str
    requires { IsTokenOf text.now token }
    ensures { result.now ≡ bytes_at text.now (span_view token) }
{
    &text[token.from as usize..token.to as usize]
}

/// The text of a token without its first and its last byte.
fn inside(text: &str, token: Token) -> &str
    requires token { IsTokenOf text.now token }
    requires wide { token.from + 2 ≤ token.to }
    ensures { result.now ≡ inner (bytes_at text.now (span_view token)) }
{
    &text[token.from as usize + 1..token.to as usize - 1]
}
