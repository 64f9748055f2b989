//! Which queries are accepted: names of outputs, aggregates, grouping, and the faults. Nothing here runs: each function
//! is a law of the definitions.
#![tactic(auto)]

ghost use Rattle.std.specs.Prelude.{◌≡◌, ◌↔◌, IsTrue, Bool};
ghost use Rattle.std.specs.List.{flat_map};
ghost use Rattle.tree_meaning.specs.Tree.{Ex};
ghost use Rattle.check_meaning.specs.Same.{same_ex};
ghost use Rattle.check_meaning.specs.Operands.{operands};
ghost use Rattle.check_meaning.specs.Parts.{unless, parts_outside};

/// The test of equality holds exactly of equal trees.
pub fn same_is_equal()
    ensures { (a b : Ex) → IsTrue (same_ex a b) ↔ (a ≡ b) }
{}

/// The parts of an expression are itself and the parts of the expressions that stand directly in it.
pub fn parts_are_by_operands()
    ensures { (t : Ex → Bool) (e : Ex) →
        parts_outside t e ≡ unless t e (flat_map (parts_outside t) (operands e)) }
{}
