ghost use Rattle.std.specs.Prelude.{◌≡◌, find};
ghost use Rattle.std.specs.Str.{str_eq_ignore_ascii_case};
ghost use Rattle.query_meaning.specs.Words as spec;

use crate::refused::same_word;
use query_meaning::Mark;

/// The reserved word that a word is, in any case.
#[tactic(auto, unfolding(query_meaning::specs::Words::reserved_word))]
pub(crate) fn reserved_word(word: &str) -> Option<Mark>
    ensures { result ≡ spec.reserved_word word.now }
{
    let reserved = [
        Mark::Select,
        Mark::From,
        Mark::Where,
        Mark::Group,
        Mark::By,
        Mark::Having,
        Mark::Order,
        Mark::Limit,
        Mark::Offset,
        Mark::As,
        Mark::And,
        Mark::Or,
        Mark::Not,
        Mark::Is,
        Mark::Null,
        Mark::Missing,
        Mark::True,
        Mark::False,
        Mark::In,
        Mark::Between,
        Mark::Like,
        Mark::ILike,
        Mark::Case,
        Mark::When,
        Mark::Then,
        Mark::Else,
        Mark::End,
        Mark::Cast,
        Mark::Asc,
        Mark::Desc,
    ];
    mark_among(&reserved, word)
}

/// The first of the marks that a word spells, in any case.
fn mark_among(marks: &[Mark], word: &str) -> Option<Mark>
    ensures { result ≡ find (λ k. str_eq_ignore_ascii_case (spec.mark_text k) word.now) marks.now }
{
    for mark in marks {
        if same_word(mark_text(*mark), word) {
            return Some(*mark);
        }
    }
    None
}

/// A reserved word or a sign, as it is printed.
fn mark_text(mark: Mark) -> &'static str
    ensures { result.now ≡ spec.mark_text mark }
{
    match mark {
        Mark::Select => "SELECT",
        Mark::From => "FROM",
        Mark::Where => "WHERE",
        Mark::Group => "GROUP",
        Mark::By => "BY",
        Mark::Having => "HAVING",
        Mark::Order => "ORDER",
        Mark::Limit => "LIMIT",
        Mark::Offset => "OFFSET",
        Mark::As => "AS",
        Mark::And => "AND",
        Mark::Or => "OR",
        Mark::Not => "NOT",
        Mark::Is => "IS",
        Mark::Null => "NULL",
        Mark::Missing => "MISSING",
        Mark::True => "TRUE",
        Mark::False => "FALSE",
        Mark::In => "IN",
        Mark::Between => "BETWEEN",
        Mark::Like => "LIKE",
        Mark::ILike => "ILIKE",
        Mark::Case => "CASE",
        Mark::When => "WHEN",
        Mark::Then => "THEN",
        Mark::Else => "ELSE",
        Mark::End => "END",
        Mark::Cast => "CAST",
        Mark::Asc => "ASC",
        Mark::Desc => "DESC",
        Mark::Open => "(",
        Mark::Close => ")",
        Mark::OpenIndex => "[",
        Mark::CloseIndex => "]",
        Mark::Comma => ",",
        Mark::Dot => ".",
        Mark::Star => "*",
        Mark::Plus => "+",
        Mark::Minus => "-",
        Mark::Slash => "/",
        Mark::Percent => "%",
        Mark::Equal => "=",
        Mark::Unequal => "<>",
        Mark::Less => "<",
        Mark::AtMost => "<=",
        Mark::Greater => ">",
        Mark::AtLeast => ">=",
    }
}
