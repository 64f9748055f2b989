ghost use Rattle.std.specs.Prelude.{◌≡◌, [], ◌∷◌, ◌++◌, length, slice_get, OnOk, OnErr};
ghost use Rattle.std.specs.Option.{option_map};
ghost use Rattle.query_tree.specs.View.{arm_view};

use crate::expr::Operand;
use snel_values::OutOfMemory;
use std::alloc::Global;
use std::marker::Model;

/// An arm of a CASE: `WHEN test THEN value`.
#[cycle(expr)]
#[derive(Drop)]
pub struct Arm {
    pub test: Operand,
    pub value: Operand,
}

/// The arms of a CASE, seen as their list.
#[cycle(expr)]
#[derive(Drop)]
pub struct Arms {
    all: Vec<Arm>,
}

impl Model for Arms {
    ghost use Rattle.std.specs.Prelude.{List, map};
    ghost use Rattle.tree_meaning.specs.Tree.{Ex, arms_size, arms};
    ghost use Rattle.tree_meaning.specs.Code.{coded_ex};
    ghost use Rattle.std.specs.Coded.{coded_list, coded×};

    ghost Value = { List (Ex × Ex) };

    ghost coded = { coded_list (coded× coded_ex coded_ex) };

    ghost use Rattle.query_tree.specs.View.{arm_view};

    ghost view = { λ s. map arm_view s.all.items };

    ghost size = { λ xs. arms_size (arms xs) };

    ghost use Rattle.query_tree.specs.Falls.{arms_fall};

    ghost size_decreases = { λ a h. arms_fall a.all.items };
}

impl Arms {
    /// No arms.
    pub fn new(alloc: Global) -> Arms
        ensures { result ≡ [] }
    {
        Arms {
            all: Vec::new(alloc),
        }
    }

    /// How many arms there are.
    pub fn len(&self) -> usize
        ensures { result ≡ length self.now }
    {
        self.all.len()
    }

    /// Adds an arm at the end.
    pub fn push(&mut self, arm: Arm) -> Result<(), OutOfMemory>
        ensures ok { OnOk result (self.new ≡ self.old ++ arm_view arm ∷ []) }
        ensures err { OnErr result (self.new ≡ self.old) }
    {
        self.all.push(arm)?;
        Ok(())
    }

    /// The arm at a place, counted from 0.
    pub fn get(&self, at: usize) -> Option<&Arm>
        ensures { option_map (λ a. arm_view a.now) result ≡ slice_get self.now at }
    {
        self.all.get(at)
    }
}
