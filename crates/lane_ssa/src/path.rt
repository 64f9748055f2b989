//! One step of a path, sixteen lanes at once.

ghost use Rattle.std.specs.Prelude.{◌≡◌, ◌<◌, ℕ, List};
ghost use Rattle.tree_meaning.specs.Tree.{name};
ghost use Rattle.tree_meaning.specs.Tree as tree;
ghost use Rattle.eval_meaning.specs.Paths.{step_of};
ghost use Rattle.lane_base.specs.Bits.{has};
ghost use Rattle.lane_base.specs.Registers.{value_at, under, AreLegal};
ghost use Rattle.lane_field.specs.Steps.{IsNumberOf};
ghost use Rattle.lane_ssa.specs.Making.{IsReadable};

use ion_symtab::SymTab;
use lane_base::{LaneMask, Lanes};
use lane_field::{item16, load16};

/// The value of a name in the structs of the lanes of `m`. `symbol` is the name's number in the table.
pub(crate) fn field16<'b>(
    a: &Lanes<'b>,
    symbol: Option<u32>,
    table: &SymTab<'b>,
    m: LaneMask,
) -> Lanes<'b>
    requires readable { IsReadable table.now }
    requires legal { AreLegal table.now a.now }
    ensures value { (n : List ℕ) → IsNumberOf table.now n symbol → (i : ℕ) → i < 16
        → value_at table.now result i ≡ under (has m.0 i) (step_of (name n) (value_at table.now a.now i)) }
    ensures legal { AreLegal table.now result }
{
    lane_field::field16(a, symbol, table, m)
}

/// The items at a place in the lists of the lanes of `m`.
pub(crate) fn place16<'b>(a: &Lanes<'b>, at: u32, table: &SymTab<'b>, m: LaneMask) -> Lanes<'b>
    requires readable { IsReadable table.now }
    requires legal { AreLegal table.now a.now }
    ensures value { (i : ℕ) → i < 16
        → value_at table.now result i ≡ under (has m.0 i) (step_of (tree.at at) (value_at table.now a.now i)) }
    ensures legal { AreLegal table.now result }
{
    load16(&item16(a, at, m), table, m)
}
