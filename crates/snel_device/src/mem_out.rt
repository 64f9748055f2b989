ghost use Rattle.std.specs.Prelude.{◌≡◌, ℕ, [], take, IfOk, OnOk, OnErr, IsErr, IfSome, IsNone};
ghost use Rattle.std.specs.Io.KnownBytes.{Appends};
ghost use Rattle.snel_device.specs.Causes.{HasCause, raised};

use crate::{Failed, Out};
use std::alloc::{AllocError, Global};

/// A sink in memory, which tells what was put. Some of its calls fail after so many bytes.
#[derive(Drop)]
pub struct MemOut {
    held: Vec<u8>,
    failing: Vec<(u32, u32)>,
    calls: u64,
    faults: u64,
}

impl MemOut {
    ghost use Rattle.snel_device.specs.MemOut.{put_bytes, calls_made, failing_calls, kept_next};

    /// Nothing was put. Each pair is the number of a call that will fail, counted from 1, and how
    /// many bytes of its piece it keeps, or all where the piece is shorter. Of two pairs with one
    /// number the first stands.
    ///
    /// An error says that no memory was left.
    pub fn new(alloc: Global, failing: &[(u32, u32)]) -> Result<MemOut, AllocError>
        ensures bytes { IfOk result (λ out. put_bytes out ≡ []) }
        ensures calls { IfOk result (λ out. calls_made out ≡ 0) }
        ensures failing { IfOk result (λ out. failing_calls out ≡ failing.now) }
    {
        Ok(MemOut {
            held: Vec::new(alloc),
            failing: failing.to_vec(alloc)?,
            calls: 0,
            faults: 0,
        })
    }

    /// The bytes that were put.
    pub fn bytes(&self) -> &[u8]
        ensures { result.now ≡ put_bytes self.now }
    {
        &self.held
    }

    // Counts a call, and says how many bytes it keeps, if it fails.
    fn count_call(&mut self) -> Option<u32>
        ensures kept { result ≡ kept_next self.old }
        ensures counted { self.new ≡ record self.old { calls = raised self.old.calls 1 } }
    {
        self.calls = self.calls.saturating_add(1);
        let call = self.calls;
        match self.failing.iter().find(|pair| u64::from(pair.0) == call) {
            Some(pair) => Some(pair.1),
            None => None,
        }
    }
}

// The clauses of `Out` at the bytes that are told here, and after them those on the schedule.
impl Out for MemOut {
    ghost use Rattle.std.specs.Prelude.{Some};
    ghost use Rattle.snel_device.specs.MemOut.{put_bytes, calls_made, failing_calls, kept_next, Keeps};

    ghost holds = { λ out. Some (put_bytes out) };

    ghost faults = { λ out. out.faults };

    /// A call that finds no memory fails and keeps nothing.
    fn put(&mut self, piece: &[u8]) -> Result<(), Failed>
        ensures added { OnOk result (Appends (Some (put_bytes self.old))
            (Some (put_bytes self.new)) piece.now) }
        ensures cut { OnErr result ((n : ℕ)
            × Appends (Some (put_bytes self.old)) (Some (put_bytes self.new)) (take n piece.now)) }
        ensures fault { HasCause self.old.faults self.new.faults (IsErr result) }
        ensures fails { IfSome (kept_next self.old) (λ n. IsErr result
            × Keeps self.old self.new n piece.now) }
        ensures refused { IsNone (kept_next self.old)
            → OnErr result (put_bytes self.new ≡ put_bytes self.old) }
        ensures counted { calls_made self.new ≡ raised (calls_made self.old) 1 }
        ensures same_failing { failing_calls self.new ≡ failing_calls self.old }
    {
        let kept = match self.count_call() {
            Some(keep) => (keep as usize).min(piece.len()),
            None => match self.held.extend_from_slice(piece) {
                Ok(()) => return Ok(()),
                Err(_) => 0,
            },
        };
        let _ = self.held.extend_from_slice(&piece[..kept]);
        self.faults = self.faults.saturating_add(1);
        Err(Failed)
    }
}
