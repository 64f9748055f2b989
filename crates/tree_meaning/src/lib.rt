//! What trees of queries are: operators, functions, parts of times and aggregates by name, the trees over them, and which
//! trees are well formed. Nothing here runs.
#![tactic(auto)]

/// An operator of two operands.
#[derive(Clone, Copy, Debug, PartialEq, Eq)]
pub enum BinOp {
    Add,
    Sub,
    Mul,
    Div,
    Rem,
    Eq,
    Ne,
    Lt,
    Le,
    Gt,
    Ge,
    And,
    Or,
}

/// What `IS` asks for.
#[derive(Clone, Copy, Debug, PartialEq, Eq)]
pub enum IsWhat {
    Null,
    Missing,
    True,
    False,
}

/// How a text is matched: by a pattern, by a pattern regardless of the case of ASCII letters, or by a text that it
/// starts with, ends with or contains.
#[derive(Clone, Copy, Debug, PartialEq, Eq)]
pub enum How {
    Like,
    ILike,
    Starts,
    Ends,
    Contains,
}

/// What `CAST` makes.
#[derive(Clone, Copy, Debug, PartialEq, Eq)]
pub enum CastTo {
    Integer,
    Boolean,
}

/// A function of values.
#[derive(Clone, Copy, Debug, PartialEq, Eq)]
pub enum Func {
    Coalesce,
    NullIf,
    CharLength,
    UnixEpoch,
    UnixMicro,
}

/// A part of a time, from the shortest to the longest.
#[derive(Clone, Copy, Debug, PartialEq, Eq)]
pub enum Part {
    Microsecond,
    Second,
    Minute,
    Hour,
    Day,
    Week,
    Month,
    Quarter,
    Year,
}

/// An aggregate.
#[derive(Clone, Copy, Debug, PartialEq, Eq)]
pub enum AggName {
    /// COUNT(*), which has no operand.
    CountAll,
    Count,
    Sum,
    Min,
    Max,
    Avg,
    Earliest,
    Latest,
    BoolAnd,
    BoolOr,
}
