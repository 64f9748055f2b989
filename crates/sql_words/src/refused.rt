ghost use Rattle.std.specs.Prelude.{◌≡◌, map};
ghost use Rattle.std.specs.List.{list_any};
ghost use Rattle.std.specs.Str.{str_eq_ignore_ascii_case};
ghost use Rattle.query_meaning.specs.Faults as faults;
ghost use Rattle.query_meaning.specs.Words as spec;
ghost use Rattle.sql_tree.specs.Lexes.{span_view};
ghost use Rattle.sql_words.specs.Slices.{AreTokensOf, IsTokenOf};

use crate::looks::whole;
use query_meaning::TokenKind;
use sql_tree::Token;

/// The place of the first refused word without quotes.
pub fn refused_at(text: &str, tokens: &[Token]) -> Option<u32>
    requires { AreTokensOf text.now tokens.now }
    ensures { result ≡ faults.refused_at text.now (map span_view tokens.now) }
{
    for token in tokens {
        if refuses(text, *token) {
            return Some(token.from);
        }
    }
    None
}

/// Whether a token is a refused word without quotes.
fn refuses(text: &str, token: Token) -> bool
    requires { IsTokenOf text.now token }
    ensures { result ≡ faults.refuses text.now (span_view token) }
{
    match token.kind {
        TokenKind::Word => is_refused(whole(text, token)),
        _ => false,
    }
}

/// Whether a word is one that no query has without quotes, in any case.
#[tactic(auto, unfolding(query_meaning::specs::Words::is_refused))]
fn is_refused(word: &str) -> bool
    ensures { result ≡ spec.is_refused word.now }
{
    let refused = [
        "JOIN",
        "INNER",
        "LEFT",
        "RIGHT",
        "FULL",
        "OUTER",
        "CROSS",
        "ON",
        "UNION",
        "INTERSECT",
        "EXCEPT",
        "WITH",
        "OVER",
        "PARTITION",
        "DISTINCT",
        "PIVOT",
        "UNPIVOT",
        "ESCAPE",
        "EXISTS",
        "LATERAL",
        "FILTER",
        "NULLS",
        "INTERVAL",
    ];
    is_among(&refused, word)
}

/// Whether a word is one of these, in any case.
fn is_among(words: &[&str], word: &str) -> bool
    ensures { result ≡ list_any (λ w. str_eq_ignore_ascii_case w.now word.now) words.now }
{
    for known in words {
        if same_word(known, word) {
            return true;
        }
    }
    false
}

/// Whether two words are the same in any case.
pub(crate) fn same_word(one: &str, other: &str) -> bool
    ensures { result ≡ str_eq_ignore_ascii_case one.now other.now }
{
    one.eq_ignore_ascii_case(other)
}
