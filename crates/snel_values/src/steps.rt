ghost use Rattle.std.specs.Prelude.{◌≡◌, [], ◌∷◌, ◌++◌, length, slice_get, OnOk, OnErr, option_copied};

use crate::memory::OutOfMemory;
use crate::text::Text;
use std::alloc::Global;
use std::marker::Model;

/// One step of a path: to the pair of a name, or to the item at a place, counted from 0.
#[derive(Drop)]
pub enum Step {
    Name(Text),
    At(u32),
}

/// The steps of a path, seen as their list.
#[derive(Drop)]
pub struct Steps {
    all: Vec<Step>,
}

impl Model for Steps {
    ghost use Rattle.std.specs.Prelude.{List};
    ghost use Rattle.snel_values.specs.declared.steps.Step.{Step};

    ghost Value = { List Step };

    ghost view = { λ s. s.all.items };
}

impl Steps {
    /// No steps.
    pub fn new(alloc: Global) -> Steps
        ensures { result ≡ [] }
    {
        Steps {
            all: Vec::new(alloc),
        }
    }

    /// Adds a step at the end.
    pub fn push(&mut self, step: Step) -> Result<(), OutOfMemory>
        ensures ok { OnOk result (self.new ≡ self.old ++ step ∷ []) }
        ensures err { OnErr result (self.new ≡ self.old) }
    {
        self.all.push(step)?;
        Ok(())
    }

    /// The step at a place, counted from 0.
    pub fn get(&self, at: usize) -> Option<&Step>
        ensures { option_copied result ≡ slice_get self.now at }
    {
        self.all.get(at)
    }

    /// How many steps there are.
    pub fn len(&self) -> usize
        ensures { result ≡ length self.now }
    {
        self.all.len()
    }
}
