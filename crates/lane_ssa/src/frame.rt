ghost use Rattle.std.specs.Prelude.{◌≡◌, ◌<◌, ℕ, All, length, take, drop, count_by, IfOk};
ghost use Rattle.std.specs.List.{range_with_len};
ghost use Rattle.block_meaning.specs.Tables.{Table};
ghost use Rattle.block_file.specs.Chunks.{AreCellsOf};
ghost use Rattle.program_meaning.specs.Programs.{mask_count, value_count};
ghost use Rattle.program_meaning.specs.Registers.{HasRun, mask_at};
ghost use Rattle.program_meaning.specs.Registers as lane_registers;
ghost use Rattle.program_meaning.specs.Simulation.{lanes_of};
ghost use Rattle.lane_base.specs.Bits.{has};
ghost use Rattle.lane_base.specs.Registers.{seen, AreLegal};
ghost use Rattle.lane_base.specs.Shown.{value_under, IsLegal};
ghost use Rattle.lane_ssa.specs.Bound.{IsBound};
ghost use Rattle.lane_ssa.specs.ChunksOf.{rows_from, IsChunkOf};
ghost use Rattle.lane_ssa.specs.Counts.{counted};
ghost use Rattle.lane_ssa.specs.Frames.{state_at};

use crate::bind::bind_all;
use crate::compile::compile_all;
use crate::job::Job;
use crate::run::run_rows;
use crate::tally::Tally;
use block_file::{Block, Chunk};
use ion_symtab::SymTab;
use lane_base::{LaneMask, Lanes, Look, SpanLanes};
use lane_text::Pattern;
use snel_values::OutOfMemory;
use std::alloc::Global;
use std::marker::Model;

/// The registers of a job, each in its place, and its patterns, compiled. A frame is bound to the symbol table of a
/// block, and then runs chunks of that block.
#[derive(Drop)]
pub struct Frame<'b> {
    job: &'b Job,
    symbols: Vec<Option<u32>>,
    patterns: Vec<Option<Pattern>>,
    masks: Vec<LaneMask>,
    values: Vec<Lanes<'b>>,
    passed: LaneMask,
    tally: Tally,
}

impl<'b> Model for Frame<'b> {
    ghost use Rattle.std.specs.Prelude.{◌≡◌, ◌≤◌, length, vec_capacity};
    ghost use Rattle.program_meaning.specs.Programs.{mask_count, value_count};
    ghost use Rattle.lane_ssa.specs.Compiled.{patterns_of};
    ghost use Rattle.lane_ssa.specs.Frames.{FrameView};
    ghost use Rattle.std.specs.Coded.{codes};
    ghost use Rattle.lane_ssa.specs.CodedJob.{coded_job};

    ghost Value = { FrameView };

    ghost coded = { Prim.hlevel (codes, coded_job) };

    ghost view = { λ f. record {
      job = f.job.now;
      symbols = f.symbols.items;
      masks = f.masks.items;
      values = f.values.items;
      passed = f.passed.0;
      chunks = f.tally.chunks;
      kept = f.tally.kept;
    } };

    ghost invariant = { λ f. (length f.job.now.program ≤ vec_capacity f.symbols) × (length f.masks.items ≡ mask_count f.job.now.program) × (length f.values.items ≡ value_count f.job.now.program) × (f.patterns.items ≡ patterns_of f.job.now.program) };
}

impl<'b> Frame<'b> {
    /// A frame for the job, with blank registers. All its memory is taken here.
    pub fn new(alloc: Global, job: &'b Job) -> Result<Frame<'b>, OutOfMemory>
        ensures job { IfOk result (λ f. f.job ≡ job.now) }
        ensures passed { IfOk result (λ f. f.passed ≡ 0) }
        ensures chunks { IfOk result (λ f. f.chunks ≡ 0) }
        ensures kept { IfOk result (λ f. f.kept ≡ 0) }
    {
        let count = job.instrs().len();
        Ok(Frame {
            job,
            symbols: Vec::with_capacity(alloc, count)?,
            patterns: compile_all(alloc, job.instrs())?,
            masks: vec![in alloc; LaneMask(0); job.mask_count()]?,
            values: vec![in alloc; blank(); job.value_count()]?,
            passed: LaneMask(0),
            tally: Tally::none(),
        })
    }

    /// The job.
    pub fn job(&self) -> &'b Job
        ensures { result.now ≡ self.now.job }
    {
        self.job
    }

    /// Looks up the names that the job asks for in the table of the block whose chunks are run next.
    pub fn bind(&mut self, table: &SymTab<'b>)
        ensures bound { IsBound table.now self.new.job.program self.new.symbols }
        ensures job { self.new.job ≡ self.old.job }
        ensures passed { self.new.passed ≡ self.old.passed }
        ensures chunks { self.new.chunks ≡ self.old.chunks }
        ensures kept { self.new.kept ≡ self.old.kept }
    {
        bind_all(self.job.instrs(), table, &mut self.symbols);
    }

    /// Runs the job over a chunk of the block that the frame is bound to, and counts the chunk and its rows that pass.
    pub fn run_chunk(&mut self, block: &Block<'b>, chunk: &Chunk<'b>)
        requires bound { IsBound block.now.0 self.old.job.program self.old.symbols }
        requires chunk { IsChunkOf block.now.0 block.now.1 chunk.now }
        ensures ran { (first : ℕ) → AreCellsOf block.now.0 (rows_from first block.now.1) chunk.now
            → HasRun self.new.job.program (lanes_of (rows_from first block.now.1)) (state_at block.now.0 self.new) }
        ensures legal { All (AreLegal block.now.0) self.new.values }
        ensures masks { length self.new.masks ≡ mask_count self.new.job.program }
        ensures values { length self.new.values ≡ value_count self.new.job.program }
        ensures passed { (i : ℕ) → i < 16
            → has self.new.passed i ≡ mask_at (state_at block.now.0 self.new i) self.new.job.ends.keep }
        ensures chunks { self.new.chunks ≡ counted self.old.chunks 1 }
        ensures kept { self.new.kept ≡ counted self.old.kept (count_by (has self.new.passed) (range_with_len 0 16)) }
        ensures job { self.new.job ≡ self.old.job }
        ensures symbols { self.new.symbols ≡ self.old.symbols }
    {
        run_rows(
            self.job,
            &self.symbols,
            &self.patterns,
            block,
            chunk,
            &mut self.masks,
            &mut self.values,
        );
        self.passed = self.masks[self.job.ends().keep as usize];
        self.tally.count(self.passed.count());
    }

    /// The lanes of the last chunk whose rows passed, none before the first.
    pub fn kept(&self) -> LaneMask
        ensures { result.0 ≡ self.now.passed }
    {
        self.passed
    }

    /// What a value register shows in a lane, which is below 16.
    pub fn lane(&self, register: u32, lane: u32) -> Look<'b>
        requires lane { lane < 16 }
        requires register { register < length self.now.values }
        ensures value { (table : Table)
            → value_under table (seen result) ≡ lane_registers.value_at (state_at table self.now lane) register }
        ensures legal { (table : Table) → All (AreLegal table) self.now.values → IsLegal table (seen result) }
    {
        self.values[register as usize].look(lane)
    }

    /// What the frame counted.
    pub fn into_tally(self) -> Tally
        ensures chunks { result.chunks ≡ self.entry.chunks }
        ensures kept { result.kept ≡ self.entry.kept }
    {
        self.tally
    }
}

/// A register that shows nothing yet.
fn blank<'b>() -> Lanes<'b> {
    Lanes::trees(LaneMask(0), SpanLanes { lanes: [&[]; 16] })
}
