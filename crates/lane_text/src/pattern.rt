ghost use Rattle.std.specs.Prelude.{◌≡◌, ℕ, List, [], ◌∷◌, true, IsUtf8, IfOk};
ghost use Rattle.eval_meaning.specs.Matching as matching;
ghost use Rattle.lane_text.specs.Bytewise.{folded};
ghost use Rattle.lane_text.specs.PatternValue.{pieces_for};

use crate::piece::Piece;
use crate::pieces::{anchored, cut, whole};
use snel_values::OutOfMemory;
use std::alloc::Global;
use std::marker::Model;
use tree_meaning::How;

/// A pattern that is compiled once, seen as how texts are matched and by which text.
#[derive(Drop)]
pub struct Pattern {
    how: How,
    text: Vec<u8>,
    /// What the `%` of the pattern part, for LIKE and ILIKE, for ILIKE with A-Z as a-z; the text, for CONTAINS.
    pieces: Vec<Piece>,
}

impl Model for Pattern {
    ghost use Rattle.std.specs.Prelude.{◌≡◌, IsUtf8};
    ghost use Rattle.lane_text.specs.PatternValue.{PatternValue, pieces_for};

    ghost Value = { PatternValue };

    ghost view = { λ p. record { how = p.how; text = p.text.items } };

    ghost invariant = { λ p. IsUtf8 p.text.items × (p.pieces.items ≡ pieces_for p.how p.text.items) };
}

impl Pattern {
    /// The pattern, compiled.
    pub fn of(alloc: Global, how: How, text: &str) -> Result<Pattern, OutOfMemory>
        ensures { IfOk result (λ p. p ≡ record { how = how; text = text.now }) }
    {
        let pieces = pieces_of(alloc, how, text.as_bytes())?;
        let text = Vec::from_slice(alloc, text.as_bytes())?;
        Ok(Pattern { how, text, pieces })
    }

    /// Whether the text, which is UTF-8, matches. Nothing is said of other bytes.
    pub fn matches(&self, text: &[u8]) -> bool
        ensures { IsUtf8 text.now → result ≡ matching.matches self.now.how self.now.text text.now }
    {
        match self.how {
            How::Like => anchored(&self.pieces, false, text),
            How::ILike => anchored(&self.pieces, true, text),
            How::Starts => text.starts_with(&self.text),
            How::Ends => text.ends_with(&self.text),
            How::Contains => stands_in(&self.pieces, text),
        }
    }
}

/// The pieces that are searched for.
fn pieces_of(alloc: Global, how: How, text: &[u8]) -> Result<Vec<Piece>, OutOfMemory>
    requires { IsUtf8 text.now }
    ensures { IfOk result (λ v. v.items ≡ pieces_for how text.now) }
{
    match how {
        How::Like => cut(alloc, text),
        How::ILike => {
            let lowered = lowered(alloc, text)?;
            cut(alloc, &lowered)
        }
        How::Contains => whole(alloc, text),
        How::Starts | How::Ends => Ok(Vec::new(alloc)),
    }
}

/// The bytes, with A-Z as a-z.
fn lowered(alloc: Global, text: &[u8]) -> Result<Vec<u8>, OutOfMemory>
    ensures { IfOk result (λ v. v.items ≡ folded true text.now) }
{
    Ok(text.iter().map(|b| b.to_ascii_lowercase()).collect(alloc)?)
}

/// Whether the only piece stands in the text.
fn stands_in(pieces: &[Piece], text: &[u8]) -> bool
    ensures { (part : List ℕ) → pieces.now ≡ part ∷ [] → result ≡ matching.stands_in part text.now }
{
    match pieces {
        [] => false,
        [piece, ..] => piece.stands_in(text),
    }
}
