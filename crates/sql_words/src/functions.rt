ghost use Rattle.std.specs.Prelude.{◌≡◌};
ghost use Rattle.std.specs.Array.Iter.{array_into_iter_items};
ghost use Rattle.query_meaning.specs.Words as spec;

use query_meaning::FunctionWord;
use std::array;

/// The function that a word names, in any case.
pub fn function_word(word: &str) -> Option<FunctionWord>
    ensures { result ≡ spec.function_word word.now }
{
    for candidate in functions() {
        if function_text(candidate).eq_ignore_ascii_case(word) {
            return Some(candidate);
        }
    }
    None
}

/// The words, in the order in which they are tried.
fn functions() -> array::IntoIter<FunctionWord, 20>
    ensures { array_into_iter_items result ≡ spec.functions }
{
    [
        FunctionWord::Coalesce,
        FunctionWord::NullIf,
        FunctionWord::CharLength,
        FunctionWord::ToUnixEpoch,
        FunctionWord::ToUnixMicro,
        FunctionWord::StartsWith,
        FunctionWord::EndsWith,
        FunctionWord::Contains,
        FunctionWord::DateTrunc,
        FunctionWord::Extract,
        FunctionWord::DateAdd,
        FunctionWord::Count,
        FunctionWord::Sum,
        FunctionWord::Min,
        FunctionWord::Max,
        FunctionWord::Avg,
        FunctionWord::Earliest,
        FunctionWord::Latest,
        FunctionWord::BoolAnd,
        FunctionWord::BoolOr,
    ]
    .into_iter()
}

/// A word that stands before a parenthesis in a call, as it is printed.
fn function_text(word: FunctionWord) -> &'static str
    ensures { result.now ≡ spec.function_text word }
{
    match word {
        FunctionWord::Coalesce => "COALESCE",
        FunctionWord::NullIf => "NULLIF",
        FunctionWord::CharLength => "CHAR_LENGTH",
        FunctionWord::ToUnixEpoch => "TO_UNIX_EPOCH",
        FunctionWord::ToUnixMicro => "TO_UNIX_MICRO",
        FunctionWord::StartsWith => "STARTS_WITH",
        FunctionWord::EndsWith => "ENDS_WITH",
        FunctionWord::Contains => "CONTAINS",
        FunctionWord::DateTrunc => "DATE_TRUNC",
        FunctionWord::Extract => "EXTRACT",
        FunctionWord::DateAdd => "DATE_ADD",
        FunctionWord::Count => "COUNT",
        FunctionWord::Sum => "SUM",
        FunctionWord::Min => "MIN",
        FunctionWord::Max => "MAX",
        FunctionWord::Avg => "AVG",
        FunctionWord::Earliest => "EARLIEST",
        FunctionWord::Latest => "LATEST",
        FunctionWord::BoolAnd => "BOOL_AND",
        FunctionWord::BoolOr => "BOOL_OR",
    }
}
