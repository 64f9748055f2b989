ghost use Rattle.std.specs.Prelude.{◌≡◌, ◌≤◌, IsUtf8, IfOk, IfSome, length};
ghost use Rattle.std.specs.Str.{chars};
ghost use Rattle.eval_meaning.specs.Matching.{stands_in};
ghost use Rattle.lane_text.specs.Bytewise.{folded, IsRest};
ghost use Rattle.lane_text.specs.Pieces.{after_piece, after_first, ends_in};

use crate::scan;
use memchr::memchr;
use memchr::memmem::Finder;
use snel_values::OutOfMemory;
use std::alloc::Global;
use std::marker::Model;

/// What stands between two `%` of a pattern, seen as its bytes; `_` stands for one character. Of the texts that it is
/// asked of, A-Z are read as a-z with `fold`.
#[derive(Drop)]
pub(crate) struct Piece {
    /// The search for the bytes, which it keeps.
    finder: Finder<'static>,
    /// Whether there is no `_`.
    plain: bool,
}

impl Model for Piece {
    ghost use Rattle.std.specs.Prelude.{◌≡◌, List, ℕ, IsUtf8, true};
    ghost use Rattle.lane_text.specs.Bytewise.{IsPlain};

    ghost Value = { List ℕ };

    ghost view = { λ p. p.finder };

    ghost invariant = { λ p. IsUtf8 p.finder × (p.plain ≡ true → IsPlain p.finder) };
}

impl Piece {
    /// The piece with these bytes.
    pub(crate) fn of(alloc: Global, bytes: &[u8]) -> Result<Piece, OutOfMemory>
        requires { IsUtf8 bytes.now }
        ensures { IfOk result (λ p. p ≡ bytes.now) }
    {
        let plain = memchr(b'_', bytes).is_none();
        let finder = Finder::new(bytes).into_owned(alloc)?;
        Ok(Piece { finder, plain })
    }

    /// Whether the bytes of the piece stand in the text.
    pub(crate) fn stands_in(&self, text: &[u8]) -> bool
        ensures { result ≡ stands_in self.now text.now }
    {
        match self.finder.find(text) {
            None => false,
            Some(_) => true,
        }
    }

    /// Where the piece ends, if the text begins with it.
    pub(crate) fn after(&self, fold: bool, text: &[u8]) -> Option<usize>
        ensures within { IfSome result (λ end. end ≤ length text.now) }
        ensures rest { let whole = folded fold text.now in IsUtf8 whole
            → IsRest whole (after_piece (chars self.now) (chars whole)) result }
    {
        if self.plain && !fold {
            scan::after_by_bytes(self.finder.needle(), text)
        } else {
            scan::after_piece(self.finder.needle(), fold, text)
        }
    }

    /// Where the piece ends, at the first place in the text at which it stands.
    pub(crate) fn first(&self, fold: bool, text: &[u8]) -> Option<usize>
        ensures within { IfSome result (λ end. end ≤ length text.now) }
        ensures rest { let whole = folded fold text.now in IsUtf8 whole
            → IsRest whole (after_first (chars self.now) (chars whole)) result }
    {
        if self.plain && !fold {
            scan::first_by_search(&self.finder, text)
        } else {
            scan::first_by_scan(self.finder.needle(), fold, text)
        }
    }

    /// Whether the text ends with the piece.
    pub(crate) fn ends(&self, fold: bool, text: &[u8]) -> bool
        ensures { let whole = folded fold text.now in IsUtf8 whole
            → result ≡ ends_in (chars self.now) (chars whole) }
    {
        if self.plain && !fold {
            scan::ends_by_bytes(self.finder.needle(), text)
        } else {
            scan::ends_by_scan(self.finder.needle(), fold, text)
        }
    }
}
