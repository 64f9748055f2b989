ghost use Rattle.std.specs.Prelude.{◌≡◌, IfOk};

use std::alloc::{AllocError, Global};

// Which calls of an object fail, by their numbers, counted from 1.
#[derive(Drop)]
pub struct Schedule {
    failing: Vec<u32>,
    calls: u64,
}

impl Schedule {
    ghost use Rattle.snel_device.specs.Schedule.{calls_made, failing_calls, fails_next, after_call};

    // No call was made.
    pub fn new(alloc: Global, failing: &[u32]) -> Result<Schedule, AllocError>
        ensures calls { IfOk result (λ s. calls_made s ≡ 0) }
        ensures failing { IfOk result (λ s. failing_calls s ≡ failing.now) }
    {
        Ok(Schedule {
            failing: failing.to_vec(alloc)?,
            calls: 0,
        })
    }

    // Counts a call, and says whether it fails.
    pub fn count_call(&mut self) -> bool
        ensures fails { result ≡ fails_next self.old }
        ensures counted { self.new ≡ after_call self.old }
    {
        self.calls = self.calls.saturating_add(1);
        let call = self.calls;
        self.failing.iter().any(|n| u64::from(*n) == call)
    }
}
