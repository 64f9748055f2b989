//! Where a piece of a pattern stands in a text: by its bytes, or character by character where it has a `_` or the case
//! doesn't count. With `fold` the text is read with A-Z as a-z, and the piece is written so.

ghost use Rattle.std.specs.Prelude.{◌≡◌, ◌+◌, ◌≤◌, IsUtf8, IfSome, length, drop};
ghost use Rattle.std.specs.Str.{chars, continuation_len};
ghost use Rattle.lane_text.specs.Bytewise as spec;
ghost use Rattle.lane_text.specs.Bytewise.{folded, after_bytes, IsByteRest, IsRest, IsPlain, Halts, Skips};
ghost use Rattle.lane_text.specs.Pieces.{after_piece, after_first, is_whole, ends_in};

use memchr::memmem::Finder;
use memchr::{memchr, memchr2};

/// Where the piece ends, if the text begins with it.
pub(crate) fn after_piece(piece: &[u8], fold: bool, text: &[u8]) -> Option<usize>
    requires { IsUtf8 piece.now }
    ensures within { IfSome result (λ end. end ≤ length text.now) }
    ensures rest { let whole = folded fold text.now in IsUtf8 whole
        → IsRest whole (after_piece (chars piece.now) (chars whole)) result }
{
    after_bytes(piece, fold, text)
}

/// Where the piece ends, at the first place in the text at which it stands: character by character.
pub(crate) fn first_by_scan(piece: &[u8], fold: bool, text: &[u8]) -> Option<usize>
    requires { IsUtf8 piece.now }
    ensures within { IfSome result (λ end. end ≤ length text.now) }
    ensures rest { let whole = folded fold text.now in IsUtf8 whole
        → IsRest whole (after_first (chars piece.now) (chars whole)) result }
{
    let mut at = next_place(piece, fold, text, 0);
    while at < text.len() {
        if let Some(end) = after_piece_at(piece, fold, text, at) {
            return Some(end);
        }
        let next = text.len().min(at + width(folded_byte(fold, text[at])));
        at = next_place(piece, fold, text, next);
    }
    after_piece_at(piece, fold, text, at)
}

/// Whether the text ends with the piece: character by character.
pub(crate) fn ends_by_scan(piece: &[u8], fold: bool, text: &[u8]) -> bool
    requires { IsUtf8 piece.now }
    ensures { let whole = folded fold text.now in IsUtf8 whole
        → result ≡ ends_in (chars piece.now) (chars whole) }
{
    let mut at = next_place(piece, fold, text, 0);
    while at < text.len() {
        if is_whole_at(piece, fold, text, at) {
            return true;
        }
        let next = text.len().min(at + width(folded_byte(fold, text[at])));
        at = next_place(piece, fold, text, next);
    }
    is_whole_at(piece, fold, text, at)
}

/// Where the piece ends, if the text begins with it: by its bytes.
pub(crate) fn after_by_bytes(piece: &[u8], text: &[u8]) -> Option<usize>
    requires is_text { IsUtf8 piece.now }
    requires is_plain { IsPlain piece.now }
    ensures within { IfSome result (λ end. end ≤ length text.now) }
    ensures rest { IsUtf8 text.now
        → IsRest text.now (after_piece (chars piece.now) (chars text.now)) result }
{
    if text.starts_with(piece) {
        Some(piece.len())
    } else {
        None
    }
}

/// Where the piece ends, at the first place in the text at which it stands: by a search for its bytes.
pub(crate) fn first_by_search(finder: &Finder<'static>, text: &[u8]) -> Option<usize>
    requires is_text { IsUtf8 finder.now }
    requires is_plain { IsPlain finder.now }
    ensures within { IfSome result (λ end. end ≤ length text.now) }
    ensures rest { IsUtf8 text.now
        → IsRest text.now (after_first (chars finder.now) (chars text.now)) result }
{
    match finder.find(text) {
        None => None,
        Some(at) => Some(at + finder.needle().len()),
    }
}

/// Whether the text ends with the piece: by its bytes.
#[tactic(auto, using(crate::proofs::Ends::ends_are))]
pub(crate) fn ends_by_bytes(piece: &[u8], text: &[u8]) -> bool
    requires is_text { IsUtf8 piece.now }
    requires is_plain { IsPlain piece.now }
    ensures { IsUtf8 text.now → result ≡ ends_in (chars piece.now) (chars text.now) }
{
    text.ends_with(piece)
}

/// Where the piece ends, if the text from a place on begins with it.
fn after_piece_at(piece: &[u8], fold: bool, text: &[u8], at: usize) -> Option<usize>
    requires is_text { IsUtf8 piece.now }
    requires begins_within { at ≤ length text.now }
    ensures within { IfSome result (λ end. end ≤ length text.now) }
    ensures rest { let whole = folded fold text.now in IsUtf8 (drop at whole)
        → IsRest whole (after_piece (chars piece.now) (chars (drop at whole))) result }
{
    match after_piece(piece, fold, &text[at..]) {
        None => None,
        Some(count) => Some(at + count),
    }
}

/// Whether the piece is the text from a place on.
fn is_whole_at(piece: &[u8], fold: bool, text: &[u8], at: usize) -> bool
    requires is_text { IsUtf8 piece.now }
    requires begins_within { at ≤ length text.now }
    ensures { let from = drop at (folded fold text.now) in IsUtf8 from
        → result ≡ is_whole (chars piece.now) (chars from) }
{
    match after_piece_at(piece, fold, text, at) {
        None => false,
        Some(end) => end == text.len(),
    }
}

/// The first place from a place on at which the piece may stand: at which the text has its first byte, or the end; the place
/// itself, where the piece is empty or begins with `_`.
fn next_place(piece: &[u8], fold: bool, text: &[u8], at: usize) -> usize
    requires is_text { IsUtf8 piece.now }
    requires begins_within { at ≤ length text.now }
    ensures onward { at ≤ result }
    ensures within { result ≤ length text.now }
    ensures rest { let whole = folded fold text.now in IsUtf8 (drop at whole)
        → Skips (chars piece.now) (drop at whole) (drop result whole) }
{
    if piece.is_empty() || piece[0] == b'_' {
        return at;
    }
    at + place_of(piece[0], fold, &text[at..])
}

/// The first place at which the text has the sign, or its end. With `fold` it may be a place with the sign's upper case.
fn place_of(sign: u8, fold: bool, text: &[u8]) -> usize
    ensures { Halts sign (folded fold text.now) result }
{
    let found = if fold {
        memchr2(sign, sign.to_ascii_uppercase(), text)
    } else {
        memchr(sign, text)
    };
    found.unwrap_or(text.len())
}

/// Where the piece ends, if the bytes begin with it. A `_` takes a first byte and those that follow it.
fn after_bytes(piece: &[u8], fold: bool, text: &[u8]) -> Option<usize>
    ensures { let whole = folded fold text.now in
        IsByteRest whole (after_bytes piece.now whole) result }
{
    let mut at = 0;
    for sign in piece {
        if at >= text.len() {
            return None;
        }
        let byte = folded_byte(fold, text[at]);
        if *sign == b'_' {
            at = text.len().min(at + width(byte));
        } else if *sign == byte {
            at += 1;
        } else {
            return None;
        }
    }
    Some(at)
}

/// The byte, with A-Z as a-z if the case is not to count.
fn folded_byte(fold: bool, byte: u8) -> u8
    ensures { result ≡ spec.folded_byte fold byte }
{
    if fold {
        byte.to_ascii_lowercase()
    } else {
        byte
    }
}

/// The count of the bytes of a character, by its first byte.
fn width(first: u8) -> usize
    ensures { result ≡ 1 + continuation_len first }
{
    if first < 128 {
        1
    } else if first < 224 {
        2
    } else if first < 240 {
        3
    } else {
        4
    }
}
