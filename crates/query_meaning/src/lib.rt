//! What queries are: tokens, trees and the grammar. Nothing here runs: each function is a law of the definitions.
#![tactic(auto)]

/// The kinds of tokens.
#[derive(Clone, Copy, Debug, PartialEq, Eq)]
pub enum TokenKind {
    /// A letter or `_`, then letters, digits and `_`.
    Word,
    /// A name between `"`.
    Quoted,
    /// A text between `'`.
    Str,
    /// A time text between two backticks.
    Moment,
    /// Digits.
    Number,
    /// An operator, a bracket, a comma or a dot.
    Sign,
}

/// The reserved words and the signs.
#[derive(Clone, Copy, Debug, PartialEq, Eq)]
pub enum Mark {
    Select,
    From,
    Where,
    Group,
    By,
    Having,
    Order,
    Limit,
    Offset,
    As,
    And,
    Or,
    Not,
    Is,
    Null,
    Missing,
    True,
    False,
    In,
    Between,
    Like,
    ILike,
    Case,
    When,
    Then,
    Else,
    End,
    Cast,
    Asc,
    Desc,
    /// `(`
    Open,
    /// `)`
    Close,
    /// `[`
    OpenIndex,
    /// `]`
    CloseIndex,
    /// `,`
    Comma,
    /// `.`
    Dot,
    /// `*`
    Star,
    /// `+`
    Plus,
    /// `-`
    Minus,
    /// `/`
    Slash,
    /// `%`
    Percent,
    /// `=`
    Equal,
    /// `<>` and `!=`
    Unequal,
    /// `<`
    Less,
    /// `<=`
    AtMost,
    /// `>`
    Greater,
    /// `>=`
    AtLeast,
}

/// The words that stand before a parenthesis in a call.
#[derive(Clone, Copy, Debug, PartialEq, Eq)]
pub enum FunctionWord {
    Coalesce,
    NullIf,
    CharLength,
    ToUnixEpoch,
    ToUnixMicro,
    StartsWith,
    EndsWith,
    Contains,
    DateTrunc,
    Extract,
    DateAdd,
    Count,
    Sum,
    Min,
    Max,
    Avg,
    Earliest,
    Latest,
    BoolAnd,
    BoolOr,
}

/// The binary operators that group to the left, the weakest first.
#[derive(Clone, Copy, Debug, PartialEq, Eq)]
pub enum Level {
    /// OR
    Or,
    /// AND
    And,
    /// `+` and `-`
    Sum,
    /// `*`, `/` and `%`
    Term,
}

ghost use Rattle.query_meaning.specs.Laws.{OneQuery, OneVerdict, QueriesAreWellFormed, ReadsExactly, SomeVerdict};

/// A list of tokens has at most one query.
pub fn one_query()
    ensures { OneQuery }
{}

/// Reading answers exactly the query of the tokens.
pub fn reads_exactly()
    ensures { ReadsExactly }
{}

/// A text comes to one verdict: one fault, or one query.
pub fn one_verdict()
    ensures { OneVerdict }
{}

/// A text comes to some verdict.
pub fn some_verdict()
    ensures { SomeVerdict }
{}

/// A query of the tokens of a text is well formed.
pub fn queries_are_well_formed()
    ensures { QueriesAreWellFormed }
{}
