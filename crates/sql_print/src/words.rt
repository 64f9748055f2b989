ghost use Rattle.std.specs.Prelude.{◌≡◌};
ghost use Rattle.query_meaning.specs.Words.{mark_text, function_text, part_text, cast_text};
ghost use Rattle.print_meaning.specs.Print.{op_mark, what_mark, func_word, agg_word};
ghost use Rattle.print_meaning.specs.Texts.{between_text};
ghost use Rattle.sql_print.specs.Matches as matches;

use tree_meaning::{AggName, BinOp, CastTo, Func, How, IsWhat, Part};

/// The operator, between spaces.
pub(crate) fn op_words(op: BinOp) -> &'static str
    ensures { result.now ≡ between_text (op_mark op) }
{
    match op {
        BinOp::Add => " + ",
        BinOp::Sub => " - ",
        BinOp::Mul => " * ",
        BinOp::Div => " / ",
        BinOp::Rem => " % ",
        BinOp::Eq => " = ",
        BinOp::Ne => " <> ",
        BinOp::Lt => " < ",
        BinOp::Le => " <= ",
        BinOp::Gt => " > ",
        BinOp::Ge => " >= ",
        BinOp::And => " AND ",
        BinOp::Or => " OR ",
    }
}

/// The word behind IS.
pub(crate) fn what_word(what: IsWhat) -> &'static str
    ensures { result.now ≡ mark_text (what_mark what) }
{
    match what {
        IsWhat::Null => "NULL",
        IsWhat::Missing => "MISSING",
        IsWhat::True => "TRUE",
        IsWhat::False => "FALSE",
    }
}

/// What stands before the expression that is matched.
pub(crate) fn match_before(how: How) -> &'static str
    ensures { result.now ≡ matches.before how }
{
    match how {
        How::Like => "(",
        How::ILike => "(",
        How::Starts => "STARTS_WITH(",
        How::Ends => "ENDS_WITH(",
        How::Contains => "CONTAINS(",
    }
}

/// What stands between the expression that is matched and the text.
pub(crate) fn match_between(how: How) -> &'static str
    ensures { result.now ≡ matches.between how }
{
    match how {
        How::Like => " LIKE ",
        How::ILike => " ILIKE ",
        How::Starts => ", ",
        How::Ends => ", ",
        How::Contains => ", ",
    }
}

/// The type's name in a CAST.
pub(crate) fn cast_word(to: CastTo) -> &'static str
    ensures { result.now ≡ cast_text to }
{
    match to {
        CastTo::Integer => "INTEGER",
        CastTo::Boolean => "BOOLEAN",
    }
}

/// The function's name.
pub(crate) fn func_name(name: Func) -> &'static str
    ensures { result.now ≡ function_text (func_word name) }
{
    match name {
        Func::Coalesce => "COALESCE",
        Func::NullIf => "NULLIF",
        Func::CharLength => "CHAR_LENGTH",
        Func::UnixEpoch => "TO_UNIX_EPOCH",
        Func::UnixMicro => "TO_UNIX_MICRO",
    }
}

/// The part's name.
pub(crate) fn part_name(part: Part) -> &'static str
    ensures { result.now ≡ part_text part }
{
    match part {
        Part::Microsecond => "MICROSECOND",
        Part::Second => "SECOND",
        Part::Minute => "MINUTE",
        Part::Hour => "HOUR",
        Part::Day => "DAY",
        Part::Week => "WEEK",
        Part::Month => "MONTH",
        Part::Quarter => "QUARTER",
        Part::Year => "YEAR",
    }
}

/// The aggregate's name.
pub(crate) fn agg_name(name: AggName) -> &'static str
    ensures { result.now ≡ function_text (agg_word name) }
{
    match name {
        AggName::CountAll => "COUNT",
        AggName::Count => "COUNT",
        AggName::Sum => "SUM",
        AggName::Min => "MIN",
        AggName::Max => "MAX",
        AggName::Avg => "AVG",
        AggName::Earliest => "EARLIEST",
        AggName::Latest => "LATEST",
        AggName::BoolAnd => "BOOL_AND",
        AggName::BoolOr => "BOOL_OR",
    }
}
