//! Pieces of the text of a listing. Each is added at the end; for want of memory some of it may stand there.
ghost use Rattle.std.specs.Prelude.{◌≡◌, ◌++◌, OnOk};
ghost use Rattle.plan_lower.specs.Listing as spec;

use snel_values::{Bytes, OutOfMemory};
use sql_pieces::{put, put_digits};
use tree_meaning::{AggName, BinOp, CastTo, Func, How, IsWhat, Part};

/// The name of a mask register.
pub(crate) fn put_mask(text: &mut Bytes, number: u64) -> Result<(), OutOfMemory>
    ensures { OnOk result (text.new ≡ text.old ++ spec.mask_name number) }
{
    put(text, "m")?;
    put_digits(text, u128::from(number))
}

/// The name of a value register.
pub(crate) fn put_value(text: &mut Bytes, number: u64) -> Result<(), OutOfMemory>
    ensures { OnOk result (text.new ≡ text.old ++ spec.value_name number) }
{
    put(text, "r")?;
    put_digits(text, u128::from(number))
}

/// A value register behind a space.
pub(crate) fn put_operand(text: &mut Bytes, register: u32) -> Result<(), OutOfMemory>
    ensures { OnOk result (text.new ≡ text.old ++ spec.operand_text register) }
{
    put(text, " ")?;
    put_value(text, u64::from(register))
}

/// A word and the mask under which a value is made.
pub(crate) fn put_under(text: &mut Bytes, word: &str, mask: u32) -> Result<(), OutOfMemory>
    ensures { OnOk result (text.new ≡ text.old ++ spec.under_text word.now mask) }
{
    put(text, word)?;
    put(text, " ")?;
    put_mask(text, u64::from(mask))
}

#[tactic(auto, unfolding(crate::specs::Listing::op_text))]
pub(crate) fn op_word(op: BinOp) -> &'static str
    ensures { result.now ≡ spec.op_text op }
{
    match op {
        BinOp::Add => "add",
        BinOp::Sub => "sub",
        BinOp::Mul => "mul",
        BinOp::Div => "div",
        BinOp::Rem => "rem",
        BinOp::Eq => "eq",
        BinOp::Ne => "ne",
        BinOp::Lt => "lt",
        BinOp::Le => "le",
        BinOp::Gt => "gt",
        BinOp::Ge => "ge",
        BinOp::And => "and",
        BinOp::Or => "or",
    }
}

#[tactic(auto, unfolding(crate::specs::Listing::what_text))]
pub(crate) fn what_word(what: IsWhat) -> &'static str
    ensures { result.now ≡ spec.what_text what }
{
    match what {
        IsWhat::Null => "null",
        IsWhat::Missing => "missing",
        IsWhat::True => "true",
        IsWhat::False => "false",
    }
}

#[tactic(auto, unfolding(crate::specs::Listing::how_text))]
pub(crate) fn how_word(how: How) -> &'static str
    ensures { result.now ≡ spec.how_text how }
{
    match how {
        How::Like => "like",
        How::ILike => "ilike",
        How::Starts => "starts",
        How::Ends => "ends",
        How::Contains => "contains",
    }
}

#[tactic(auto, unfolding(crate::specs::Listing::to_text))]
pub(crate) fn to_word(to: CastTo) -> &'static str
    ensures { result.now ≡ spec.to_text to }
{
    match to {
        CastTo::Integer => "integer",
        CastTo::Boolean => "boolean",
    }
}

#[tactic(auto, unfolding(crate::specs::Listing::func_text))]
pub(crate) fn func_word(name: Func) -> &'static str
    ensures { result.now ≡ spec.func_text name }
{
    match name {
        Func::Coalesce => "coalesce",
        Func::NullIf => "nullif",
        Func::CharLength => "charlength",
        Func::UnixEpoch => "unixepoch",
        Func::UnixMicro => "unixmicro",
    }
}

#[tactic(auto, unfolding(crate::specs::Listing::part_text))]
pub(crate) fn part_word(part: Part) -> &'static str
    ensures { result.now ≡ spec.part_text part }
{
    match part {
        Part::Microsecond => "microsecond",
        Part::Second => "second",
        Part::Minute => "minute",
        Part::Hour => "hour",
        Part::Day => "day",
        Part::Week => "week",
        Part::Month => "month",
        Part::Quarter => "quarter",
        Part::Year => "year",
    }
}

#[tactic(auto, unfolding(crate::specs::Listing::agg_text))]
pub(crate) fn agg_word(name: AggName) -> &'static str
    ensures { result.now ≡ spec.agg_text name }
{
    match name {
        AggName::CountAll => "countall",
        AggName::Count => "count",
        AggName::Sum => "sum",
        AggName::Min => "min",
        AggName::Max => "max",
        AggName::Avg => "avg",
        AggName::Earliest => "earliest",
        AggName::Latest => "latest",
        AggName::BoolAnd => "booland",
        AggName::BoolOr => "boolor",
    }
}
