ghost use Rattle.std.specs.Prelude.{◌≡◌, ◌+◌, ◌<◌, ◌≤◌, ◌∷◌, [], length, drop, MatchOption, OnSome, map, slice_get};
ghost use Rattle.std.specs.Bool.{OnTrue};
ghost use Rattle.sql_words.specs.Seen.{seen, toks};
ghost use Rattle.sql_words.specs.ReadsAt.{MayPassAt, PassesAt};
ghost use Rattle.query_meaning.specs.Reading.{after, count_of, behind, begins};

use crate::fault::ParseFault;
use crate::look::Look;
use query_meaning::Mark;

/// The token at a place.
pub fn token<'t>(looks: &[Look<'t>], at: usize) -> Option<Look<'t>>
    ensures within { OnSome result (at < length looks.now) }
    ensures first { MatchOption result (drop at (toks looks.now) ≡ [])
        (λ t. drop at (toks looks.now) ≡ seen t ∷ drop (at + 1) (toks looks.now)) }
{
    fetch(looks, at)
}

/// The place behind this mark, if it stands here.
pub fn after(looks: &[Look<'_>], at: usize, wanted: Mark) -> Option<usize>
    ensures { MayPassAt looks.now at result (after wanted) }
{
    match token(looks, at) {
        Some(Look::Mark(mark)) if mark == wanted => Some(at + 1),
        _ => None,
    }
}

/// The place behind this mark, which has to stand here.
pub fn expect(looks: &[Look<'_>], at: usize, wanted: Mark) -> Result<usize, ParseFault>
    ensures { PassesAt looks.now at result (after wanted) }
{
    match after(looks, at, wanted) {
        Some(behind) => Ok(behind),
        None => Err(ParseFault::NotAQuery),
    }
}

/// How often this mark stands here, and the place behind.
pub fn skip(looks: &[Look<'_>], at: usize, wanted: Mark) -> (usize, usize)
    ensures count { result.0 ≡ count_of wanted (drop at (toks looks.now)) }
    ensures rest { drop result.1 (toks looks.now) ≡ behind wanted (drop at (toks looks.now)) }
{
    let mut place = at;
    'turns: while begins(looks, place, wanted) {
        place += 1;
    }
    (place - at, place)
}

/// Whether this mark stands here.
fn begins(looks: &[Look<'_>], at: usize, wanted: Mark) -> bool
    ensures value { result ≡ begins wanted (drop at (toks looks.now)) }
    ensures within { OnTrue result (at < length looks.now) }
{
    match token(looks, at) {
        Some(Look::Mark(mark)) => mark == wanted,
        _ => false,
    }
}

fn fetch<'t>(looks: &[Look<'t>], at: usize) -> Option<Look<'t>>
    ensures { result ≡ slice_get looks.now at }
{
    looks.get(at).copied()
}
