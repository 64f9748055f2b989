//! From lanes that show structs to what one name has there, sixteen lanes in one loop: a cell that is found is loaded at once.

ghost use Rattle.std.specs.Prelude.{◌≡◌, ◌<◌, ℕ, List, Some};
ghost use Rattle.block_meaning.specs.Tables.{text_of};
ghost use Rattle.tree_meaning.specs.Tree.{name};
ghost use Rattle.eval_meaning.specs.Paths.{step_of};
ghost use Rattle.lane_base.specs.Bits.{has};
ghost use Rattle.lane_base.specs.Shown.{IsLegal, value_under};
ghost use Rattle.lane_base.specs.Registers.{seen, value_at, under, AreLegal};
ghost use Rattle.lane_field.specs.Steps.{AreUnder, IsNamed, IsNumberOf};

use crate::find::field_at;
use crate::load::{all_missing, look_in, put};
use ion_symtab::SymTab;
use lane_base::{LaneMask, Lanes, Look};

/// The values of one name in the structs of the lanes of `m`. A lane is MISSING where it shows no struct, where the struct
/// lacks the name, and outside `m`. `symbol` is the name's number in the table, None where the table lacks it. What the lanes
/// of `m` show is legal under the table.
pub fn field16<'b>(a: &Lanes<'b>, symbol: Option<u32>, table: &SymTab<'b>, m: LaneMask) -> Lanes<'b>
    requires { AreUnder table.now m.0 a.now }
    ensures value { (n : List ℕ) → IsNumberOf table.now n symbol → (i : ℕ) → i < 16
        → value_at table.now result i
        ≡ under (has m.0 i) (step_of (name n) (value_at table.now a.now i)) }
    ensures legal { AreLegal table.now result }
{
    let Some(label) = symbol else {
        return all_missing();
    };
    labelled16(a, label, table, m)
}

/// The same, by the number of the name.
#[inline(always)]
fn labelled16<'b>(a: &Lanes<'b>, label: u32, table: &SymTab<'b>, m: LaneMask) -> Lanes<'b>
    requires { AreUnder table.now m.0 a.now }
    ensures value { (n : List ℕ) → text_of table.now label ≡ Some n → (i : ℕ) → i < 16
        → value_at table.now result i
        ≡ under (has m.0 i) (step_of (name n) (value_at table.now a.now i)) }
    ensures legal { AreLegal table.now result }
{
    table.know();
    named16(a, label, table, m)
}

/// The same, where the texts of the table rise.
#[inline(always)]
fn named16<'b>(a: &Lanes<'b>, label: u32, table: &SymTab<'b>, m: LaneMask) -> Lanes<'b>
    requires { AreUnder table.now m.0 a.now }
    ensures value { (n : List ℕ) → IsNamed label n table.now → (i : ℕ) → i < 16
        → value_at table.now result i
        ≡ under (has m.0 i) (step_of (name n) (value_at table.now a.now i)) }
    ensures legal { AreLegal table.now result }
{
    let mut lanes = all_missing();
    for i in 0..16u32 {
        put(&mut lanes, i, look_at(a, label, i, table, m));
    }
    lanes
}

/// What the pair with that label shows in the struct of one lane, which is below 16. MISSING where there is none.
#[inline(always)]
fn look_at<'b>(a: &Lanes<'b>, label: u32, lane: u32, table: &SymTab<'b>, m: LaneMask) -> Look<'b>
    requires within { lane < 16 }
    requires legal { AreUnder table.now m.0 a.now }
    ensures value { (n : List ℕ) → IsNamed label n table.now
        → value_under table.now (seen result)
        ≡ under (has m.0 lane) (step_of (name n) (value_at table.now a.now lane)) }
    ensures legal { IsLegal table.now (seen result) }
{
    look_in(field_at(a, label, lane, m), table)
}
