//! The seats of a board that no worker has.
ghost use Rattle.std.specs.Prelude.{◌≡◌, ◌<◌, ◌≤◌, [], ◌∷◌, ◌++◌, length, MatchOption, IsTrue, ◌↔◌};

use crate::seat::BoardSeat;
use smallvec::SmallVec;
use std::alloc::Global;
use std::marker::Model;

/// Seats, in order, at most 64. A contract sees the list of them. There is always room for all seats of a board.
#[derive(Drop)]
pub struct Seats {
    all: SmallVec<Option<BoardSeat>, 64>,
}

impl Model for Seats {
    ghost use Rattle.std.specs.Prelude.{List};
    ghost use Rattle.scan_board.specs.declared.seat.BoardSeat.{BoardSeat};
    ghost use Rattle.scan_board.specs.Places.{present, IsInPlace};

    ghost Value = { List BoardSeat };

    ghost view = { λ s. present s.all.items };

    ghost invariant = { λ s. IsInPlace s.all };
}

impl Seats {
    pub(crate) fn new(alloc: Global) -> Seats
        ensures { result ≡ [] }
    {
        Seats {
            all: SmallVec::new(alloc),
        }
    }

    /// How many seats there are, at most 64.
    pub fn len(&self) -> u32
        ensures count { result ≡ length self.now }
        ensures few { result ≤ 64 }
    {
        self.all.len() as u32
    }

    /// Whether there are no seats.
    pub fn is_empty(&self) -> bool
        ensures { IsTrue result ↔ (self.now ≡ []) }
    {
        self.len() == 0
    }

    /// Removes the last seat. None where there is none.
    pub fn take(&mut self) -> Option<BoardSeat>
        ensures { MatchOption result ((self.old ≡ [])
            × (self.new ≡ [])) (λ seat. self.old ≡ self.new ++ seat ∷ []) }
    {
        self.all.pop().flatten()
    }

    /// Puts a seat behind the others. It takes no memory.
    pub fn put(&mut self, seat: BoardSeat)
        requires { length self.old < 64 }
        ensures { self.new ≡ self.old ++ seat ∷ [] }
    {
        self.all.push_reserved(Some(seat));
    }
}
