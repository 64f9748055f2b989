//! A pattern as the pieces that its `%` part: the first begins the text, the others stand after it one after the other,
//! and the last ends it.

ghost use Rattle.std.specs.Prelude.{◌≡◌, ◌<◌, ◌≤◌, [], ◌∷◌, ◌++◌, IsUtf8, IfOk, OnOk, IfSome, length, map, drop};
ghost use Rattle.std.specs.Str.{chars};
ghost use Rattle.lane_text.specs.Bytewise.{folded, IsRest};
ghost use Rattle.lane_text.specs.Pieces as spec;

use crate::piece::Piece;
use memchr::memchr;
use snel_values::OutOfMemory;
use std::alloc::Global;

/// The pieces of a pattern: what its `%` part.
pub(crate) fn cut(alloc: Global, pattern: &[u8]) -> Result<Vec<Piece>, OutOfMemory>
    requires { IsUtf8 pattern.now }
    ensures { IfOk result (λ v. v.items ≡ spec.pieces pattern.now) }
{
    let mut pieces = Vec::new(alloc);
    let mut start = 0;
    while let Some(count) = memchr(b'%', &pattern[start..]) {
        let end = start + count;
        push(&mut pieces, alloc, &pattern[start..end])?;
        start = end + 1;
    }
    push(&mut pieces, alloc, &pattern[start..])?;
    Ok(pieces)
}

/// The text as one piece.
pub(crate) fn whole(alloc: Global, text: &[u8]) -> Result<Vec<Piece>, OutOfMemory>
    requires { IsUtf8 text.now }
    ensures { IfOk result (λ v. v.items ≡ text.now ∷ []) }
{
    let mut pieces = Vec::new(alloc);
    push(&mut pieces, alloc, text)?;
    Ok(pieces)
}

/// Whether the text begins with the first of the pieces, and the others stand after it one after the other, the last one
/// at the end.
pub(crate) fn anchored(pieces: &[Piece], fold: bool, text: &[u8]) -> bool
    ensures { let whole = folded fold text.now in IsUtf8 whole
        → result ≡ spec.anchored (map chars pieces.now) (chars whole) }
{
    match pieces {
        [] => false,
        [only] => match only.after(fold, text) {
            None => false,
            Some(end) => end == text.len(),
        },
        [first, later @ ..] => match first.after(fold, text) {
            None => false,
            Some(end) => floating(later, fold, text, end),
        },
    }
}

/// Adds the piece with these bytes.
fn push(pieces: &mut Vec<Piece>, alloc: Global, bytes: &[u8]) -> Result<(), OutOfMemory>
    requires { IsUtf8 bytes.now }
    ensures { OnOk result (pieces.new.items ≡ pieces.old.items ++ bytes.now ∷ []) }
{
    pieces.push(Piece::of(alloc, bytes)?)?;
    Ok(())
}

/// Whether the pieces stand one after the other in the text from a place on, and the last one ends it.
fn floating(pieces: &[Piece], fold: bool, text: &[u8], from: usize) -> bool
    requires some { 0 < length pieces.now }
    requires begins_within { from ≤ length text.now }
    ensures { let rest = drop from (folded fold text.now) in IsUtf8 rest
        → result ≡ spec.floating (map chars pieces.now) (chars rest) }
{
    let mut at = from;
    let mut index = 0;
    while index + 1 < pieces.len() {
        let piece = &pieces[index];
        match first_from(piece, fold, text, at) {
            None => return false,
            Some(end) => at = end,
        }
        index += 1;
    }
    let last = &pieces[index];
    ends_from(last, fold, text, at)
}

/// Where the piece ends, at the first place from a place of the text on at which it stands.
fn first_from(piece: &Piece, fold: bool, text: &[u8], at: usize) -> Option<usize>
    requires { at ≤ length text.now }
    ensures within { IfSome result (λ end. end ≤ length text.now) }
    ensures rest { let whole = folded fold text.now in IsUtf8 (drop at whole)
        → IsRest whole (spec.after_first (chars piece.now) (chars (drop at whole))) result }
{
    match piece.first(fold, &text[at..]) {
        None => None,
        Some(count) => Some(at + count),
    }
}

/// Whether the text from a place on ends with the piece.
fn ends_from(piece: &Piece, fold: bool, text: &[u8], at: usize) -> bool
    requires { at ≤ length text.now }
    ensures { let from = drop at (folded fold text.now) in IsUtf8 from
        → result ≡ spec.ends_in (chars piece.now) (chars from) }
{
    piece.ends(fold, &text[at..])
}
