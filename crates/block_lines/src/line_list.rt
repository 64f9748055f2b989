//! Lines, end to end in one buffer.

ghost use Rattle.std.specs.Prelude.{◌≡◌, ◌<◌, ◌+◌, ◌++◌, ◌∷◌, [], Some, length, slice_get, OnOk, OnErr, option_copied};
ghost use Rattle.value_meaning.specs.Val.{Val};
ghost use Rattle.lane_ssa.specs.ChunksOf.{rows_from};
ghost use Rattle.block_lines.specs.HeadTexts.{AreHeads};
ghost use Rattle.block_lines.specs.LineSpans.{line_at, IsSpanIn};
ghost use Rattle.block_lines.specs.Ran.{HasRunOver};
ghost use Rattle.block_lines.specs.RowLines.{line_of};

use crate::heads::LineHeads;
use crate::one_line::append_line;
use crate::sink::RowSink;
use block_file::Block;
use lane_ssa::Frame;
use snel_values::{Bytes, OutOfMemory};
use std::alloc::Global;
use std::marker::Model;

/// Where a line stands among the bytes.
#[derive(Clone, Copy)]
pub struct Span {
    start: usize,
    count: usize,
}

/// Lines that grow at their end, seen as their list. Each line is its bytes with its line end. They stand in one buffer, which
/// is kept when they are cleared.
#[derive(Drop)]
pub struct Lines {
    bytes: Bytes,
    spans: Vec<Span>,
}

impl Model for Lines {
    ghost use Rattle.std.specs.Prelude.{List, ℕ};
    ghost use Rattle.block_lines.specs.LineSpans.{lines_at, AreSpansIn};

    ghost Value = { List (List ℕ) };

    ghost view = { λ l. lines_at l.bytes l.spans.items };

    ghost invariant = { λ l. AreSpansIn l.bytes l.spans.items };
}

impl Lines {
    /// No lines.
    pub fn new(alloc: Global) -> Lines
        ensures { result ≡ [] }
    {
        Lines {
            bytes: Bytes::new(alloc),
            spans: Vec::new(alloc),
        }
    }

    /// How many lines there are.
    pub fn len(&self) -> usize
        ensures { result ≡ length self.now }
    {
        self.spans.len()
    }

    /// The line at a place, counted from 0.
    pub fn get(&self, at: usize) -> Option<&[u8]>
        ensures { option_copied result ≡ slice_get self.now at }
    {
        match self.spans.get(at) {
            Some(span) => Some(part(self.bytes.as_slice(), span)),
            None => None,
        }
    }

    /// Drops all lines and keeps their memory.
    pub fn clear(&mut self)
        ensures { self.new ≡ [] }
    {
        self.bytes.clear();
        self.spans.clear();
    }

    /// Adds a line at the end, all of it or, for want of memory, nothing.
    pub fn push(&mut self, line: &[u8]) -> Result<(), OutOfMemory>
        ensures ok { OnOk result (self.new ≡ self.old ++ line.now ∷ []) }
        ensures err { OnErr result (self.new ≡ self.old) }
    {
        let start = self.bytes.len();
        self.bytes.push_all(line)?;
        let count = line.len();
        self.spans.push(Span { start, count })?;
        Ok(())
    }

    /// Adds the line of the row in a lane, which is below 16, of the chunk from `first` on that the frame ran over. For want
    /// of memory all lines are dropped.
    fn push_row<'b>(
        &mut self,
        heads: &LineHeads,
        frame: &Frame<'b>,
        block: &Block<'b>,
        first: u32,
        lane: u32,
    ) -> Result<(), OutOfMemory>
        requires lane { lane < 16 }
        requires heads { AreHeads frame.now.job.ends.outs heads.now }
        requires within { first + lane < length block.now.1 }
        requires ran { HasRunOver block.now.0 (rows_from first block.now.1) frame.now }
        ensures ok { (row : Val) → slice_get (rows_from first block.now.1) lane ≡ Some row
            → OnOk result (self.new ≡ self.old ++ line_of frame.now.job row ∷ []) }
        ensures err { OnErr result (self.new ≡ []) }
    {
        let start = self.bytes.len();
        let Ok(()) = append_line(&mut self.bytes, heads, frame, block, first, lane) else {
            self.bytes.clear();
            self.spans.clear();
            return Err(OutOfMemory);
        };
        let count = self.bytes.len() - start;
        let Ok(()) = self.spans.push(Span { start, count }) else {
            self.bytes.clear();
            self.spans.clear();
            return Err(OutOfMemory);
        };
        Ok(())
    }
}

impl RowSink for Lines {
    ghost use Rattle.std.specs.Prelude.{◌≡◌, ◌++◌};
    ghost use Rattle.block_lines.specs.RowLines.{line_of, lines_of};
    ghost use Rattle.block_lines.specs.Growing.{grown_by_none, grown_by_both};

    ghost takes = { λ _ _. Unit {0} };

    ghost grew = { λ a b job rows. b ≡ a ++ lines_of job rows };

    fn take<'b>(
        &mut self,
        _alloc: Global,
        heads: &LineHeads,
        frame: &Frame<'b>,
        block: &Block<'b>,
        first: u32,
        lane: u32,
    ) -> Result<(), OutOfMemory> {
        self.push_row(heads, frame, block, first, lane)
    }

    ghost grew_by_none = { λ s job. grown_by_none (line_of job) s };

    ghost grew_by_both = { λ a b c job xs ys h k. grown_by_both (line_of job) a b c xs ys h k };

    ghost takes_more = { λ _ _ _ _ h _. h };
}

/// The bytes of a span.
fn part<'a>(bytes: &'a [u8], span: &Span) -> &'a [u8]
    requires { IsSpanIn (length bytes.now) span.now }
    ensures { result.now ≡ line_at bytes.now span.now }
{
    &bytes[span.start..span.start + span.count]
}
