ghost use Rattle.std.specs.Prelude.{◌≡◌, ◌+◌, ◌≤◌, ◌<◌, length, IfOk, IfErr};
ghost use Rattle.query_meaning.specs.Lexing as spec;
ghost use Rattle.sql_tree.specs.Cuts.{IsCutOf};

use crate::classes::{Class, is_digit, run, starts_word};
use crate::numbers::number_of;
use crate::quotes::closing;
use crate::signs::{one_sign, two_sign};
use query_meaning::TokenKind;
use time_text::read_time;

/// Whether a number runs into no word and no dot.
#[tactic(auto, unfolding(query_meaning::specs::Lexing::is_ended))]
fn is_ended(rest: &[u8]) -> bool
    ensures { result ≡ spec.is_ended rest.now }
{
    if rest.is_empty() {
        return true;
    }
    !(starts_word(rest[0]) || rest[0] == b'.')
}

/// The number at the front.
#[tactic(auto, unfolding(query_meaning::specs::Lexing::number_cut))]
fn number_cut(bytes: &[u8]) -> Result<(TokenKind, usize), usize>
    requires { 0 < spec.run spec.is_digit bytes.now }
    ensures value { result ≡ spec.number_cut bytes.now }
    ensures within { IfOk result (λ c. c.1 ≤ length bytes.now) }
    ensures some { IfOk result (λ c. 0 < c.1) }
    ensures fault { IfErr result (λ n. n ≤ length bytes.now) }
{
    let count = run(Class::Digit, bytes);
    if number_of(&bytes[..count]).is_none() {
        return Err(0);
    }
    if is_ended(&bytes[count..]) {
        Ok((TokenKind::Number, count))
    } else {
        Err(count)
    }
}

/// The name whose opening quote stands before the bytes.
#[tactic(auto, unfolding(query_meaning::specs::Lexing::name_cut))]
fn name_cut(bytes: &[u8]) -> Result<(TokenKind, usize), usize>
    ensures value { result ≡ spec.name_cut bytes.now }
    ensures within { IfOk result (λ c. c.1 ≤ length bytes.now + 1) }
    ensures some { IfOk result (λ c. 0 < c.1) }
    ensures fault { IfErr result (λ n. n ≡ 0) }
{
    match closing(bytes, b'"') {
        Some(length) if length > 1 => Ok((TokenKind::Quoted, length + 1)),
        _ => Err(0),
    }
}

/// The text whose opening quote stands before the bytes.
#[tactic(auto, unfolding(query_meaning::specs::Lexing::string_cut))]
fn string_cut(bytes: &[u8]) -> Result<(TokenKind, usize), usize>
    ensures value { result ≡ spec.string_cut bytes.now }
    ensures within { IfOk result (λ c. c.1 ≤ length bytes.now + 1) }
    ensures some { IfOk result (λ c. 0 < c.1) }
    ensures fault { IfErr result (λ n. n ≡ 0) }
{
    match closing(bytes, b'\'') {
        Some(length) if length > 0 => Ok((TokenKind::Str, length + 1)),
        _ => Err(0),
    }
}

/// The moment whose opening sign stands before the bytes.
#[tactic(auto, unfolding(query_meaning::specs::Lexing::moment_cut))]
fn moment_cut(bytes: &[u8]) -> Result<(TokenKind, usize), usize>
    ensures value { result ≡ spec.moment_cut bytes.now }
    ensures within { IfOk result (λ c. c.1 ≤ length bytes.now + 1) }
    ensures some { IfOk result (λ c. 0 < c.1) }
    ensures fault { IfErr result (λ n. n ≡ 0) }
{
    let count = run(Class::Moment, bytes);
    if count < bytes.len() && read_time(&bytes[..count]).is_some() {
        Ok((TokenKind::Moment, count + 2))
    } else {
        Err(0)
    }
}

/// The sign of this byte and those that follow it.
#[tactic(auto, unfolding(query_meaning::specs::Lexing::sign_cut))]
fn sign_cut(first: u8, rest: &[u8]) -> Result<(TokenKind, usize), usize>
    ensures value { result ≡ spec.sign_cut first rest.now }
    ensures within { IfOk result (λ c. c.1 ≤ length rest.now + 1) }
    ensures some { IfOk result (λ c. 0 < c.1) }
    ensures fault { IfErr result (λ n. n ≡ 0) }
{
    if let Some(&second) = rest.first() {
        if first == b'-' && second == b'-' {
            return Err(0);
        }
        if two_sign(first, second).is_some() {
            return Ok((TokenKind::Sign, 2));
        }
    }
    if one_sign(first).is_some() {
        Ok((TokenKind::Sign, 1))
    } else {
        Err(0)
    }
}

/// The kind and the length of the token at the front, or how far behind the front the fault is.
#[tactic(auto, unfolding(query_meaning::specs::Lexing::cut_at))]
pub(crate) fn cut_at(bytes: &[u8]) -> Result<(TokenKind, usize), usize>
    requires { 0 < length bytes.now }
    ensures value { IsCutOf bytes.now result }
    ensures within { IfOk result (λ c. c.1 ≤ length bytes.now) }
    ensures some { IfOk result (λ c. 0 < c.1) }
    ensures fault { IfErr result (λ n. n ≤ length bytes.now) }
{
    let first = bytes[0];
    let rest = &bytes[1..];
    if starts_word(first) {
        return Ok((TokenKind::Word, run(Class::Word, rest) + 1));
    }
    if is_digit(first) {
        return number_cut(bytes);
    }
    match first {
        b'"' => name_cut(rest),
        b'\'' => string_cut(rest),
        b'`' => moment_cut(rest),
        _ => sign_cut(first, rest),
    }
}
