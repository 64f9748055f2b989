ghost use Rattle.std.specs.Prelude.{◌≡◌, ◌+◌, ◌-◌, ◌^◌, min};
ghost use Rattle.lane_ssa.specs.Counts.{counted};

use std::marker::Model;

/// How many chunks were run, and how many of their rows passed. Each count grows up to `u64::MAX` and stays there.
#[derive(Drop)]
pub struct Tally {
    run: u64,
    passed: u64,
}

impl Model for Tally {
    ghost use Rattle.lane_ssa.specs.Counts.{Counts};

    ghost Value = { Counts };

    ghost view = { λ t. record { chunks = t.run; kept = t.passed } };
}

impl Tally {
    /// No chunk.
    pub fn none() -> Tally
        ensures { result ≡ record { chunks = 0; kept = 0 } }
    {
        Tally { run: 0, passed: 0 }
    }

    /// Takes in what the other counted.
    pub fn join(&mut self, other: Tally)
        ensures chunks { self.new.chunks ≡ counted self.old.chunks other.chunks }
        ensures kept { self.new.kept ≡ counted self.old.kept other.kept }
    {
        self.run = self.run.saturating_add(other.run);
        self.passed = self.passed.saturating_add(other.passed);
    }

    /// One chunk more, of which so many rows passed.
    pub(crate) fn count(&mut self, kept: u32)
        ensures chunks { self.new.chunks ≡ counted self.old.chunks 1 }
        ensures kept { self.new.kept ≡ counted self.old.kept kept }
    {
        self.run = self.run.saturating_add(1);
        self.passed = self.passed.saturating_add(u64::from(kept));
    }

    /// How many chunks were run.
    pub fn chunks(&self) -> u64
        ensures { result ≡ self.now.chunks }
    {
        self.run
    }

    /// How many rows passed.
    pub fn kept(&self) -> u64
        ensures { result ≡ self.now.kept }
    {
        self.passed
    }
}
