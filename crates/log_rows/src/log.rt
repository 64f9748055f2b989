//! Logs, row by row.
ghost use Rattle.std.specs.Prelude.{◌≡◌, ◌+◌, ◌<◌, OnOk, OnErr, IfOk};
ghost use Rattle.snel_values.specs.View.{view};
ghost use Rattle.log_meaning.specs.Rows as meant;

use crate::row::{make_row, next_state};
use snel_values::{OutOfMemory, Value};
use std::alloc::Global;
use std::marker::Model;

/// A log that is being made, seen as the number that it starts from and how many of its rows were made.
#[derive(Drop)]
pub struct LogRows {
    start: u64,
    state: u64,
    made: u32,
}

impl Model for LogRows {
    ghost use Rattle.std.specs.Prelude.{ℕ, ◌≡◌};
    ghost use Rattle.log_meaning.specs.States.{state_at};

    ghost Value = { ℕ × ℕ };

    ghost view = { λ l. (l.start, l.made) };

    ghost invariant = { λ l. l.state ≡ state_at l.start l.made };
}

impl LogRows {
    /// The log that starts from this number, before its first row.
    pub fn new(start: u64) -> LogRows
        ensures { result ≡ (start, 0) }
    {
        LogRows {
            start,
            state: start,
            made: 0,
        }
    }

    /// The next row. For want of memory there is none, and the log is as it was.
    pub fn next_row(&mut self, alloc: Global) -> Result<Value, OutOfMemory>
        requires { self.old.1 < u32.MAX }
        ensures row { IfOk result (λ row. view row ≡ meant.log_row self.old.0 self.old.1) }
        ensures ok { OnOk result (self.new ≡ (self.old.0, self.old.1 + 1)) }
        ensures err { OnErr result (self.new ≡ self.old) }
    {
        let state = next_state(self.state);
        let row = make_row(alloc, self.made, state)?;
        self.state = state;
        self.made += 1;
        Ok(row)
    }
}
