ghost use Rattle.std.specs.Prelude.{◌≡◌, ◌<◌, ◌≤◌, ℕ, length, take, IfOk, OnOk, OnErr, IsErr};
ghost use Rattle.std.specs.Io.KnownBytes.{Appends, Consumes, IsAtEnd, Keeps, ReadConsumes};
ghost use Rattle.snel_device.specs.Causes.{HasCause};
ghost use Rattle.snel_device.specs.Untold.{untold_bytes};

use crate::{Failed, Input, Out};
use std::io::{Read, Write};

/// A reader of the system, as standard input. It tells nothing of what is still to come.
#[derive(Drop)]
pub struct HostInput<R: Read> {
    inner: R,
    faults: u64,
}

impl<R: Read> HostInput<R> {
    /// What this reader gives. The count of faults starts at 0.
    pub fn new(inner: R) -> Self
        ensures { ⟦<HostInput<R> as Input>⟧.faults result ≡ 0 }
    {
        HostInput { inner, faults: 0 }
    }
}

// The clauses of `Input` where nothing is told, and after them what the reader gives.
impl<R: Read> Input for HostInput<R> {
    ghost left = { λ _. untold_bytes };

    ghost faults = { λ s. s.faults };

    /// The bytes are those that the reader gives, and none is lost.
    fn read(&mut self, into: &mut [u8]) -> Result<usize, Failed>
        ensures bound { IfOk result (λ n. n ≤ length into.new) }
        ensures bytes { IfOk result (λ n. Consumes untold_bytes untold_bytes (take n into.new)) }
        ensures ended { IfOk result (λ n. n ≡ 0 → 0 < length into.new → IsAtEnd untold_bytes) }
        ensures unchanged { OnErr result (untold_bytes ≡ untold_bytes) }
        ensures fault { HasCause self.old.faults self.new.faults (IsErr result) }
        ensures given { ReadConsumes (R.remaining self.old.inner)
            (R.remaining self.new.inner) result into.new }
    {
        match self.inner.read(into) {
            Ok(count) => Ok(count),
            Err(_) => {
                self.faults = self.faults.saturating_add(1);
                Err(Failed)
            }
        }
    }
}

/// A writer of the system, as standard output or standard error. It tells nothing of what it
/// took.
///
/// Over a `BufWriter` what is put is gathered, and goes on in pieces of its capacity; [`HostOut::end`]
/// hands on what is left.
#[derive(Drop)]
pub struct HostOut<W: Write> {
    inner: W,
    faults: u64,
}

impl<W: Write> HostOut<W> {
    /// What is put goes to this writer. The count of faults starts at 0.
    pub fn new(inner: W) -> Self
        ensures { ⟦<HostOut<W> as Out>⟧.faults result ≡ 0 }
    {
        HostOut { inner, faults: 0 }
    }

    /// Hands on what the writer still holds back. No byte is added, and none is lost.
    pub fn end(&mut self) -> Result<(), Failed>
        ensures fault { HasCause (⟦<HostOut<W> as Out>⟧.faults self.old)
            (⟦<HostOut<W> as Out>⟧.faults self.new) (IsErr result) }
        ensures kept { Keeps (W.contents self.old.inner) (W.contents self.new.inner) }
    {
        match self.inner.flush() {
            Ok(()) => Ok(()),
            Err(_) => {
                self.faults = self.faults.saturating_add(1);
                Err(Failed)
            }
        }
    }
}

// The clauses of `Out` where nothing is told, and after them what the writer takes.
impl<W: Write> Out for HostOut<W> {
    ghost holds = { λ _. untold_bytes };

    ghost faults = { λ s. s.faults };

    /// At `Ok` the writer took the whole piece. A write that takes nothing of a piece that isn't
    /// empty is a failure.
    fn put(&mut self, piece: &[u8]) -> Result<(), Failed>
        ensures added { OnOk result (Appends untold_bytes untold_bytes piece.now) }
        ensures cut { OnErr result ((n : ℕ)
            × Appends untold_bytes untold_bytes (take n piece.now)) }
        ensures fault { HasCause self.old.faults self.new.faults (IsErr result) }
        ensures taken { OnOk result (Appends (W.contents self.old.inner)
            (W.contents self.new.inner) piece.now) }
    {
        match self.inner.write_all(piece) {
            Ok(()) => Ok(()),
            Err(_) => {
                self.faults = self.faults.saturating_add(1);
                Err(Failed)
            }
        }
    }
}
