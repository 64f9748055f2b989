ghost use Rattle.std.specs.Prelude.{◌≡◌, ◌<◌, ◌≤◌, min, length, take, IfOk, OnErr, IsErr};
ghost use Rattle.std.specs.Io.KnownBytes.{Consumes, IsAtEnd};
ghost use Rattle.snel_device.specs.Causes.{HasCause, raised};

use crate::pieces::copy_front;
use crate::{Failed, Gate, Input, Out};

/// An input that never fails and takes no memory. It tells the bytes that it was lent.
#[derive(Drop)]
pub struct SteadyInput<'a> {
    bytes: &'a [u8],
}

impl<'a> SteadyInput<'a> {
    ghost use Rattle.snel_device.specs.SteadyStreams.{unread};

    /// These bytes are to come.
    pub fn new(bytes: &'a [u8]) -> SteadyInput<'a>
        ensures { unread result ≡ bytes.now }
    {
        SteadyInput { bytes }
    }
}

// The clauses of `Input` at the bytes that are told here, and after them how many come.
impl Input for SteadyInput<'_> {
    ghost use Rattle.std.specs.Prelude.{Some};
    ghost use Rattle.snel_device.specs.SteadyStreams.{unread};

    ghost left = { λ s. Some (unread s) };

    ghost faults = { λ _. 0 };

    /// It gives as many bytes as there are and as fit.
    fn read(&mut self, into: &mut [u8]) -> Result<usize, Failed>
        ensures bound { IfOk result (λ n. n ≤ length into.new) }
        ensures bytes { IfOk result (λ n. Consumes (Some (unread self.old)) (Some (unread self.new))
            (take n into.new)) }
        ensures ended { IfOk result (λ n. n ≡ 0 → 0 < length into.new
            → IsAtEnd (Some (unread self.new))) }
        ensures unchanged { OnErr result (Some (unread self.new) ≡ Some (unread self.old)) }
        ensures fault { HasCause 0 0 (IsErr result) }
        ensures count { result ≡ Ok (min (length into.old) (length (unread self.old))) }
    {
        let count = copy_front(self.bytes, 0, into.len(), into);
        self.bytes = &self.bytes[count..];
        Ok(count)
    }
}

/// A sink that never fails and takes no memory. It counts what it is given, and tells nothing.
#[derive(Drop)]
pub struct SteadyOut {
    count: u64,
}

impl SteadyOut {
    ghost use Rattle.snel_device.specs.SteadyStreams.{put_count};

    /// The count is 0.
    pub fn new() -> SteadyOut
        ensures { put_count result ≡ 0 }
    {
        SteadyOut { count: 0 }
    }

    /// How many bytes were put. It stands still at `u64::MAX`.
    pub fn count(&self) -> u64
        ensures { result ≡ put_count self.now }
    {
        self.count
    }
}

impl Out for SteadyOut {
    ghost use Rattle.snel_device.specs.Untold.{untold_bytes};
    ghost use Rattle.snel_device.specs.SteadyStreams.{put_count};

    ghost holds = { λ _. untold_bytes };

    ghost faults = { λ _. 0 };

    /// Counts the bytes of the piece, and keeps none.
    fn put(&mut self, piece: &[u8]) -> Result<(), Failed>
        ensures fault { HasCause 0 0 (IsErr result) }
        ensures counted { put_count self.new ≡ raised (put_count self.old) (length piece.now) }
    {
        self.count = self.count.saturating_add(piece.len() as u64);
        Ok(())
    }
}

/// A gate that does nothing.
#[derive(Drop)]
pub struct OpenGate;

impl Gate for OpenGate {
    fn pass(&self, _claim: u32) {}
}
