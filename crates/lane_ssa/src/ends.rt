ghost use Rattle.std.specs.Prelude.{◌≡◌, [], ◌∷◌, ◌++◌, length, slice_get, OnOk, OnErr};
ghost use Rattle.std.specs.Option.{option_map};
ghost use Rattle.lane_ssa.specs.EndParts.{out_view, agg_end_view};

use snel_values::{OutOfMemory, Text};
use std::alloc::Global;
use std::marker::Model;
use tree_meaning::AggName;

/// What a job ends in: the registers that a query's answer is made from.
#[derive(Drop)]
pub struct Ends {
    /// The mask of the rows that pass.
    pub keep: u32,
    /// The output is the whole row.
    pub star: bool,
    pub grouped: bool,
    pub outs: EndOuts,
    /// The values of the sort keys, in order.
    pub sorts: Registers,
    /// The values of the group keys, in order.
    pub groups: Registers,
    pub aggs: EndAggs,
}

/// An output: its name and the number of its value register.
#[derive(Drop)]
pub struct EndOut {
    pub name: Text,
    pub register: u32,
}

/// An aggregate, and the number of its operand's value register. COUNT(*) has none.
#[derive(Clone, Copy)]
pub struct EndAgg {
    pub name: AggName,
    pub register: Option<u32>,
}

/// The outputs of a job, seen as the list of their names and registers.
#[derive(Drop)]
pub struct EndOuts {
    all: Vec<EndOut>,
}

impl Model for EndOuts {
    ghost use Rattle.std.specs.Prelude.{List, ℕ, map};
    ghost use Rattle.lane_ssa.specs.EndParts.{out_view};

    ghost Value = { List (List ℕ × ℕ) };

    ghost view = { λ s. map out_view s.all.items };
}

impl EndOuts {
    /// No outputs.
    pub fn new(alloc: Global) -> EndOuts
        ensures { result ≡ [] }
    {
        EndOuts {
            all: Vec::new(alloc),
        }
    }

    /// How many outputs there are.
    pub fn len(&self) -> usize
        ensures { result ≡ length self.now }
    {
        self.all.len()
    }

    /// Adds an output at the end.
    pub fn push(&mut self, out: EndOut) -> Result<(), OutOfMemory>
        ensures ok { OnOk result (self.new ≡ self.old ++ out_view out ∷ []) }
        ensures err { OnErr result (self.new ≡ self.old) }
    {
        self.all.push(out)?;
        Ok(())
    }

    /// The output at a place, counted from 0.
    pub fn get(&self, at: usize) -> Option<&EndOut>
        ensures { option_map (λ o. out_view o.now) result ≡ slice_get self.now at }
    {
        self.all.get(at)
    }
}

/// Numbers of value registers, seen as their list.
#[derive(Drop)]
pub struct Registers {
    all: Vec<u32>,
}

impl Model for Registers {
    ghost use Rattle.std.specs.Prelude.{List, ℕ};

    ghost Value = { List ℕ };

    ghost view = { λ s. s.all.items };
}

impl Registers {
    /// No registers.
    pub fn new(alloc: Global) -> Registers
        ensures { result ≡ [] }
    {
        Registers {
            all: Vec::new(alloc),
        }
    }

    /// How many registers there are.
    pub fn len(&self) -> usize
        ensures { result ≡ length self.now }
    {
        self.all.len()
    }

    /// Adds a register at the end.
    pub fn push(&mut self, register: u32) -> Result<(), OutOfMemory>
        ensures ok { OnOk result (self.new ≡ self.old ++ register ∷ []) }
        ensures err { OnErr result (self.new ≡ self.old) }
    {
        self.all.push(register)?;
        Ok(())
    }

    /// The register at a place, counted from 0.
    pub fn get(&self, at: usize) -> Option<u32>
        ensures { result ≡ slice_get self.now at }
    {
        self.all.get(at).copied()
    }
}

/// The aggregates of a job, seen as the list of their names and registers.
#[derive(Drop)]
pub struct EndAggs {
    all: Vec<EndAgg>,
}

impl Model for EndAggs {
    ghost use Rattle.std.specs.Prelude.{List, Option, ℕ, map};
    ghost use Rattle.tree_meaning.specs.declared.AggName.{AggName as Aggregate};
    ghost use Rattle.lane_ssa.specs.CodedJob.{coded_aggs};
    ghost use Rattle.lane_ssa.specs.EndParts.{agg_end_view};

    ghost Value = { List (Aggregate × Option ℕ) };

    ghost coded = { coded_aggs };

    ghost view = { λ s. map agg_end_view s.all.items };
}

impl EndAggs {
    /// No aggregates.
    pub fn new(alloc: Global) -> EndAggs
        ensures { result ≡ [] }
    {
        EndAggs {
            all: Vec::new(alloc),
        }
    }

    /// How many aggregates there are.
    pub fn len(&self) -> usize
        ensures { result ≡ length self.now }
    {
        self.all.len()
    }

    /// Adds an aggregate at the end.
    pub fn push(&mut self, agg: EndAgg) -> Result<(), OutOfMemory>
        ensures ok { OnOk result (self.new ≡ self.old ++ agg_end_view agg ∷ []) }
        ensures err { OnErr result (self.new ≡ self.old) }
    {
        self.all.push(agg)?;
        Ok(())
    }

    /// The aggregate at a place, counted from 0.
    pub fn get(&self, at: usize) -> Option<EndAgg>
        ensures { option_map agg_end_view result ≡ slice_get self.now at }
    {
        self.all.get(at).copied()
    }
}
