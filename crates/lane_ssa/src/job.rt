ghost use Rattle.std.specs.Prelude.{◌≡◌, ◌<◌, ◌++◌, ◌∷◌, [], ℕ, List, map, length, IfOk, OnErr, true, false};
ghost use Rattle.program_meaning.specs.Programs.{IsInstruction, IsProgram, mask_count, value_count, number_after};
ghost use Rattle.program_meaning.specs.Instructions.{makes_mask};
ghost use Rattle.program_meaning.specs.Jobs.{AreEnds, IsJob};
ghost use Rattle.lane_ssa.specs.Views.{instr_view, ends_view};

use crate::ends::Ends;
use crate::instr::Instr;
use snel_values::OutOfMemory;
use std::alloc::Global;
use std::marker::Model;

/// A program that is being made, seen as the list of its instructions. Each names registers that are made before it.
#[derive(Drop)]
pub struct Builder {
    instrs: Vec<Instr>,
    masks: u32,
    values: u32,
}

impl Model for Builder {
    ghost use Rattle.std.specs.Prelude.{List, map};
    ghost use Rattle.std.specs.Coded.{coded_list};
    ghost use Rattle.program_meaning.specs.Instructions.{Instr as Instruction};
    ghost use Rattle.lane_ssa.specs.Views.{instr_view};
    ghost use Rattle.lane_ssa.specs.Built.{IsBuilt};
    ghost use Rattle.program_meaning.specs.Code.{coded_instr};

    ghost Value = { List Instruction };

    ghost coded = { coded_list coded_instr };

    ghost view = { λ b. map instr_view b.instrs.items };

    ghost invariant = { λ b. IsBuilt (map instr_view b.instrs.items) b.masks b.values };
}

impl Builder {
    /// No instruction.
    pub fn new(alloc: Global) -> Builder
        ensures { result ≡ [] }
    {
        Builder {
            instrs: Vec::new(alloc),
            masks: 0,
            values: 0,
        }
    }

    /// Adds an instruction at the end, and gives the number of the register that it makes. There may be as many registers of a
    /// kind as a `u32` counts.
    pub fn put(&mut self, instr: Instr) -> Result<u32, OutOfMemory>
        requires names { IsInstruction (mask_count self.old) (value_count self.old) (instr_view instr) }
        ensures ok { IfOk result (λ r. self.new ≡ self.old ++ instr_view instr ∷ []) }
        ensures number { IfOk result (λ r. r ≡ number_after self.old (instr_view instr)) }
        ensures err { OnErr result (self.new ≡ self.old) }
    {
        if self.masks == u32::MAX || self.values == u32::MAX {
            return Err(OutOfMemory);
        }
        let is_mask = makes_mask(&instr);
        self.instrs.push(instr)?;
        if is_mask {
            self.masks += 1;
            Ok(self.masks - 1)
        } else {
            self.values += 1;
            Ok(self.values - 1)
        }
    }

    /// The job of this program and these ends.
    pub fn finish(self, ends: Ends) -> Job
        requires { AreEnds (mask_count self) (value_count self) (ends_view ends) }
        ensures program { result.program ≡ self }
        ensures ends { result.ends ≡ ends_view ends }
        ensures job { IsJob result }
    {
        Job {
            instrs: self.instrs,
            masks: self.masks,
            values: self.values,
            ends,
        }
    }
}

/// Whether the instruction makes a mask.
fn makes_mask(instr: &Instr) -> bool
    ensures { result ≡ makes_mask (instr_view instr.now) }
{
    matches!(instr, Instr::All | Instr::True { .. } | Instr::Minus { .. })
}

/// A program and what it ends in, seen as these. It is lent to the frames that run it.
#[derive(Drop)]
pub struct Job {
    instrs: Vec<Instr>,
    masks: u32,
    values: u32,
    ends: Ends,
}

impl Model for Job {
    ghost use Rattle.std.specs.Prelude.{◌≡◌, map};
    ghost use Rattle.program_meaning.specs.Jobs.{Job as JobValue, IsJob};
    ghost use Rattle.program_meaning.specs.Programs.{mask_count, value_count};
    ghost use Rattle.lane_ssa.specs.Views.{instr_view};
    ghost use Rattle.lane_ssa.specs.JobViews.{job_view};
    ghost use Rattle.lane_ssa.specs.CodedJob.{coded_job};

    ghost Value = { JobValue };

    ghost coded = { coded_job };

    ghost view = { λ j. job_view j.instrs.items j.ends };

    ghost invariant = { λ j. IsJob (job_view j.instrs.items j.ends) × (j.masks ≡ mask_count (map instr_view j.instrs.items)) × (j.values ≡ value_count (map instr_view j.instrs.items)) };
}

impl Job {
    /// The instructions.
    pub fn instrs(&self) -> &[Instr]
        ensures value { map instr_view result.now ≡ self.now.program }
        ensures program { IsProgram self.now.program }
    {
        self.instrs.as_slice()
    }

    /// How many masks the program makes.
    pub(crate) fn mask_count(&self) -> usize
        ensures { result ≡ mask_count self.now.program }
    {
        self.masks as usize
    }

    /// How many values the program makes.
    pub(crate) fn value_count(&self) -> usize
        ensures { result ≡ value_count self.now.program }
    {
        self.values as usize
    }

    /// What the job ends in.
    pub fn ends(&self) -> &Ends
        ensures value { ends_view result.now ≡ self.now.ends }
        ensures ends { AreEnds (mask_count self.now.program) (value_count self.now.program) self.now.ends }
    {
        &self.ends
    }
}
