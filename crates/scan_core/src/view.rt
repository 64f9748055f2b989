//! What one seat has done and seen.
ghost use Rattle.std.specs.Prelude.{◌≡◌, ℕ, ◌+◌, ◌<◌, [], ◌∷◌, ◌++◌, length, slice_get, OnOk, OnErr, IsTrue, ◌↔◌};

use crate::memory::OutOfMemory;
use std::alloc::Global;
use std::marker::Model;

/// Numbers of blocks, in the order of their claims. A contract sees the list of them.
#[derive(Drop)]
pub struct Claims {
    all: Vec<u32>,
}

impl Model for Claims {
    ghost use Rattle.std.specs.Prelude.{List, ℕ};

    ghost Value = { List ℕ };

    ghost view = { λ c. c.all.items };
}

impl Claims {
    ghost use Rattle.scan_core.specs.Times.{times};

    /// No claims. It takes no memory.
    pub fn new(alloc: Global) -> Claims
        ensures { result ≡ [] }
    {
        Claims {
            all: Vec::new(alloc),
        }
    }

    /// How many claims there are.
    pub fn len(&self) -> usize
        ensures { result ≡ length self.now }
    {
        self.all.len()
    }

    /// Whether there are no claims.
    pub fn is_empty(&self) -> bool
        ensures { IsTrue result ↔ (self.now ≡ []) }
    {
        self.all.is_empty()
    }

    /// The claim at a place, counted from 0.
    pub fn get(&self, at: usize) -> Option<u32>
        ensures { result ≡ slice_get self.now at }
    {
        self.all.get(at).copied()
    }

    /// Whether the block is among the claims.
    pub fn has(&self, block: u32) -> bool
        ensures { IsTrue result ↔ (0 < times block self.now) }
    {
        self.all.contains(&block)
    }

    /// One more claim, behind the others.
    pub fn push(&mut self, block: u32) -> Result<(), OutOfMemory>
        ensures ok { OnOk result (self.new ≡ self.old ++ block ∷ []) }
        ensures err { OnErr result (self.new ≡ self.old) }
    {
        self.all.push(block)?;
        Ok(())
    }
}

/// What one seat has done and seen.
#[derive(Drop)]
pub struct ScanView {
    /// The blocks that it claimed.
    pub claims: Claims,
    /// The rows that it reported, all together.
    pub rows: u64,
    /// How often it reported rows: at most once for each claim.
    pub reports: u32,
    /// The least block that it reported as damaged.
    pub least: Option<u32>,
    /// The reported rows of all seats, when it last looked.
    pub seen_rows: u64,
    /// The least damaged block that any seat had reported, when it last looked.
    pub seen_damage: Option<u32>,
    /// Whether it has been told that no block is left.
    pub ended: bool,
}

impl ScanView {
    ghost use Rattle.scan_core.specs.Board.{empty_view};

    /// The view of a seat that has done and seen nothing. It takes no memory.
    pub fn new(alloc: Global) -> ScanView
        ensures { result ≡ empty_view }
    {
        ScanView {
            claims: Claims::new(alloc),
            rows: 0,
            reports: 0,
            least: None,
            seen_rows: 0,
            seen_damage: None,
            ended: false,
        }
    }
}
