//! Sinks of which each worker of a scan has its own.

ghost use Rattle.std.specs.Prelude.{◌≡◌, ◌++◌, List, reverse, IfOk, OnOk};
ghost use Rattle.value_meaning.specs.Val.{Val};
ghost use Rattle.program_meaning.specs.Jobs.{Job};
ghost use Rattle.worker_merge.specs.Growing.{GrewSomehow};

use block_lines::RowSink;
use snel_values::{MadeRows, OutOfMemory};
use std::alloc::Global;

/// Takes rows that several workers find: each worker has a fresh sink of its own, and these are joined at the end.
pub trait SharedSink: RowSink + Send + Drop {
    /// The second is a fresh one of the first: it holds nothing, and takes what the first takes.
    ghost begins: { Self → Self → Type 0 };

    /// A fresh sink, which takes rows of the same jobs.
    fn fresh(&self, alloc: Global) -> Result<Self, OutOfMemory>
        ensures { IfOk result (λ other. begins self.now other) };

    /// Takes over what another sink, which was a fresh one of this, grew by, in any order.
    fn join(&mut self, other: Self) -> Result<(), OutOfMemory>
        requires { (job : Job) × (empty : Self) × (rows : List Val) × Self.takes self.old job
            × begins self.old empty × Self.grew empty other job rows }
        ensures { (job : Job) (empty : Self) (rows : List Val) → Self.takes self.old job
            → begins self.old empty → Self.grew empty other job rows
            → OnOk result (GrewSomehow Self.grew self.old self.new job rows) };

    /// A fresh sink takes what the other takes.
    ghost fresh_takes: { (s empty : Self) (job : Job) → Self.takes s job → begins s empty → Self.takes empty job };

    /// What is fresh stays so while the other grows.
    ghost begins_still: { (a b empty : Self) (job : Job) (rows : List Val)
        → Self.grew a b job rows → begins a empty → begins b empty };
}

impl SharedSink for MadeRows {
    ghost use Rattle.std.specs.Prelude.{◌≡◌, []};

    ghost begins = { λ _ empty. empty ≡ [] };

    fn fresh(&self, alloc: Global) -> Result<MadeRows, OutOfMemory> {
        Ok(MadeRows::new(alloc))
    }

    fn join(&mut self, other: MadeRows) -> Result<(), OutOfMemory> {
        append_rows(self, other)
    }

    ghost fresh_takes = { λ _ _ _ h _. h };

    ghost begins_still = { λ _ _ _ _ _ _ h. h };
}

// Adds all of the rows, the last one first.
fn append_rows(into: &mut MadeRows, mut rows: MadeRows) -> Result<(), OutOfMemory>
    ensures { OnOk result (into.new ≡ into.old ++ reverse rows) }
{
    while let Some(row) = rows.pop() {
        into.push(row)?;
    }
    Ok(())
}
