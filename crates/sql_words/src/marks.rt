ghost use Rattle.std.specs.Prelude.{◌≡◌, drop};
ghost use Rattle.std.specs.Option.{option_map};
ghost use Rattle.query_meaning.specs.Reading as spec;
ghost use Rattle.sql_words.specs.ReadsAt.{FindsAt, ReadsAt};
ghost use Rattle.sql_words.specs.Seen.{toks};
ghost use Rattle.snel_values.specs.View as value;

use crate::fault::ParseFault;
use crate::look::Look;
use crate::steps::token;
use query_meaning::{Level, Mark};
use snel_values::Value;
use tree_meaning::{BinOp, How, IsWhat};

/// The operator of a level that stands here, and the place behind.
#[tactic(auto, unfolding(query_meaning::specs::Reading::operator_at))]
pub fn operator_at(level: Level, looks: &[Look<'_>], at: usize) -> Option<(BinOp, usize)>
    ensures { FindsAt looks.now at result (spec.operator_at level) }
{
    match token(looks, at) {
        Some(Look::Mark(mark)) => match op_of(level, mark) {
            Some(op) => Some((op, at + 1)),
            None => None,
        },
        _ => None,
    }
}

/// The comparison that stands here, and the place behind.
#[tactic(auto, unfolding(query_meaning::specs::Reading::compare_at))]
pub fn compare_at(looks: &[Look<'_>], at: usize) -> Option<(BinOp, usize)>
    ensures { FindsAt looks.now at result spec.compare_at }
{
    match token(looks, at) {
        Some(Look::Mark(mark)) => match compare_of(mark) {
            Some(op) => Some((op, at + 1)),
            None => None,
        },
        _ => None,
    }
}

/// What is asked for here, behind IS, and the place behind.
#[tactic(auto, unfolding(query_meaning::specs::Reading::what_at))]
pub fn what_at(looks: &[Look<'_>], at: usize) -> Result<(IsWhat, usize), ParseFault>
    ensures { ReadsAt looks.now at result spec.what_at }
{
    match token(looks, at) {
        Some(Look::Mark(mark)) => match what_of(mark) {
            Some(what) => Ok((what, at + 1)),
            None => Err(ParseFault::NotAQuery),
        },
        _ => Err(ParseFault::NotAQuery),
    }
}

/// LIKE or ILIKE, and the place behind.
pub fn how_at(looks: &[Look<'_>], at: usize) -> Result<(How, usize), ParseFault>
    ensures { ReadsAt looks.now at result (spec.said spec.how_of) }
{
    match token(looks, at) {
        Some(Look::Mark(mark)) => match how_of(mark) {
            Some(how) => Ok((how, at + 1)),
            None => Err(ParseFault::NotAQuery),
        },
        _ => Err(ParseFault::NotAQuery),
    }
}

/// Whether a word that begins a test stands here.
pub fn is_test(looks: &[Look<'_>], at: usize) -> bool
    ensures { result ≡ spec.is_test (drop at (toks looks.now)) }
{
    match token(looks, at) {
        Some(Look::Mark(mark)) => begins_test(mark),
        _ => false,
    }
}

/// The literal that a mark is.
pub fn literal_of(mark: Mark) -> Option<Value>
    ensures { option_map value.view result ≡ spec.literal_of mark }
{
    match mark {
        Mark::Null => Some(Value::Null),
        Mark::Missing => Some(Value::Missing),
        Mark::True => Some(Value::Bool(true)),
        Mark::False => Some(Value::Bool(false)),
        _ => None,
    }
}

/// The operator of a level that a mark is.
fn op_of(level: Level, mark: Mark) -> Option<BinOp>
    ensures { result ≡ spec.op_of level mark }
{
    match level {
        Level::Or => or_op(mark),
        Level::And => and_op(mark),
        Level::Sum => sum_op(mark),
        Level::Term => term_op(mark),
    }
}

fn or_op(mark: Mark) -> Option<BinOp>
    ensures { result ≡ spec.or_op mark }
{
    match mark {
        Mark::Or => Some(BinOp::Or),
        _ => None,
    }
}

fn and_op(mark: Mark) -> Option<BinOp>
    ensures { result ≡ spec.and_op mark }
{
    match mark {
        Mark::And => Some(BinOp::And),
        _ => None,
    }
}

fn sum_op(mark: Mark) -> Option<BinOp>
    ensures { result ≡ spec.sum_op mark }
{
    match mark {
        Mark::Plus => Some(BinOp::Add),
        Mark::Minus => Some(BinOp::Sub),
        _ => None,
    }
}

fn term_op(mark: Mark) -> Option<BinOp>
    ensures { result ≡ spec.term_op mark }
{
    match mark {
        Mark::Star => Some(BinOp::Mul),
        Mark::Slash => Some(BinOp::Div),
        Mark::Percent => Some(BinOp::Rem),
        _ => None,
    }
}

/// The comparison that a mark is.
fn compare_of(mark: Mark) -> Option<BinOp>
    ensures { result ≡ spec.compare_of mark }
{
    match mark {
        Mark::Equal => Some(BinOp::Eq),
        Mark::Unequal => Some(BinOp::Ne),
        Mark::Less => Some(BinOp::Lt),
        Mark::AtMost => Some(BinOp::Le),
        Mark::Greater => Some(BinOp::Gt),
        Mark::AtLeast => Some(BinOp::Ge),
        _ => None,
    }
}

/// What a mark behind IS asks for.
fn what_of(mark: Mark) -> Option<IsWhat>
    ensures { result ≡ spec.what_of mark }
{
    match mark {
        Mark::Null => Some(IsWhat::Null),
        Mark::Missing => Some(IsWhat::Missing),
        Mark::True => Some(IsWhat::True),
        Mark::False => Some(IsWhat::False),
        _ => None,
    }
}

/// LIKE or ILIKE.
fn how_of(mark: Mark) -> Option<How>
    ensures { result ≡ spec.how_of mark }
{
    match mark {
        Mark::Like => Some(How::Like),
        Mark::ILike => Some(How::ILike),
        _ => None,
    }
}

fn begins_test(mark: Mark) -> bool
    ensures { result ≡ spec.begins_test mark }
{
    matches!(mark, Mark::In | Mark::Between | Mark::Like | Mark::ILike)
}
