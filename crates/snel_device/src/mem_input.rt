ghost use Rattle.std.specs.Prelude.{◌≡◌, ◌↔◌, ◌<◌, ◌≤◌, min, length, take, IfOk, OnErr, IsErr, IsTrue};
ghost use Rattle.std.specs.Io.KnownBytes.{Consumes, IsAtEnd};
ghost use Rattle.snel_device.specs.Causes.{HasCause};

use crate::pieces::copy_front;
use crate::schedule::Schedule;
use crate::{Failed, Input};
use std::alloc::{AllocError, Global};

/// An input in memory, which tells what is still to come. Some of its calls fail.
#[derive(Drop)]
pub struct MemInput {
    bytes: Vec<u8>,
    at: usize,
    most: u32,
    schedule: Schedule,
    faults: u64,
    ghost in_range: { at ≤ length bytes.items },
    ghost gives_some: { 1 ≤ most },
}

impl MemInput {
    ghost use Rattle.snel_device.specs.MemInput.{unread, most_per_call, schedule};
    ghost use Rattle.snel_device.specs.Schedule.{calls_made, failing_calls};

    /// These bytes are to come, at most `most` of them with each call. The calls with the numbers
    /// in `failing` will fail, counted from 1.
    ///
    /// An error says that no memory was left.
    pub fn new(
        alloc: Global,
        bytes: &[u8],
        most: u32,
        failing: &[u32],
    ) -> Result<MemInput, AllocError>
        requires { 1 ≤ most }
        ensures bytes { IfOk result (λ input. unread input ≡ bytes.now) }
        ensures most { IfOk result (λ input. most_per_call input ≡ most) }
        ensures calls { IfOk result (λ input. calls_made (schedule input) ≡ 0) }
        ensures failing { IfOk result (λ input. failing_calls (schedule input) ≡ failing.now) }
    {
        Ok(MemInput {
            bytes: bytes.to_vec(alloc)?,
            at: 0,
            most,
            schedule: Schedule::new(alloc, failing)?,
            faults: 0,
        })
    }
}

// The clauses of `Input` at the bytes that are told here, and after them those on how many bytes
// come and on the schedule.
impl Input for MemInput {
    ghost use Rattle.std.specs.Prelude.{Some};
    ghost use Rattle.snel_device.specs.MemInput.{unread, most_per_call, schedule};
    ghost use Rattle.snel_device.specs.Schedule.{fails_next, after_call};

    ghost left = { λ s. Some (unread s) };

    ghost faults = { λ s. s.faults };

    /// It gives as many bytes as there are, as fit, and as one call may give.
    fn read(&mut self, into: &mut [u8]) -> Result<usize, Failed>
        ensures bound { IfOk result (λ n. n ≤ length into.new) }
        ensures bytes { IfOk result (λ n. Consumes (Some (unread self.old)) (Some (unread self.new))
            (take n into.new)) }
        ensures ended { IfOk result (λ n. n ≡ 0 → 0 < length into.new
            → IsAtEnd (Some (unread self.new))) }
        ensures unchanged { OnErr result (Some (unread self.new) ≡ Some (unread self.old)) }
        ensures fault { HasCause self.old.faults self.new.faults (IsErr result) }
        ensures count { IfOk result (λ n. n
            ≡ min (min (most_per_call self.old) (length into.old)) (length (unread self.old))) }
        ensures same_most { most_per_call self.new ≡ most_per_call self.old }
        ensures fails { IsErr result ↔ IsTrue (fails_next (schedule self.old)) }
        ensures counted { schedule self.new ≡ after_call (schedule self.old) }
    {
        if self.schedule.count_call() {
            self.faults = self.faults.saturating_add(1);
            return Err(Failed);
        }
        let count = copy_front(&self.bytes, self.at, self.most as usize, into);
        self.at += count;
        Ok(count)
    }
}
