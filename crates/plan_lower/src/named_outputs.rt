//! The instructions of a query's outputs.
ghost use Rattle.std.specs.Prelude.{◌≡◌, ◌<◌, IfOk, All, length, slice_get, Some};
ghost use Rattle.tree_meaning.specs.WellFormed.{IsOutput, AreOutputs};
ghost use Rattle.check_meaning.specs.Names as named;
ghost use Rattle.check_meaning.specs.Places.{output_exs};
ghost use Rattle.program_meaning.specs.Simulation as simulation;
ghost use Rattle.query_tree.specs.Parts.{item_view};
ghost use Rattle.query_tree.specs.Queries.{outs_view};
ghost use Rattle.plan_lower.specs.Emitting.{IsBegun, EmitsAll};
ghost use Rattle.plan_lower.specs.Ends.{exs_of, names_of, registers_of};

use crate::emitting::emit_expr;
use lane_ssa::{Builder, EndOut, EndOuts};
use query_check::Names;
use query_tree::{Item, OutItems, Outputs};
use snel_values::{OutOfMemory, Text};
use std::alloc::Global;

/// Adds the instructions of all outputs of a query under a mask; their names and registers. `*` has none.
pub(crate) fn emit_outs(
    alloc: Global,
    builder: &mut Builder,
    names: &Names,
    outputs: &Outputs,
    mask: u32,
) -> Result<EndOuts, OutOfMemory>
    requires begun { IsBegun builder.old mask }
    requires names { names.now ≡ named.names (outs_view outputs.now) }
    requires formed { AreOutputs (outs_view outputs.now) }
    ensures names { IfOk result (λ outs. names_of outs ≡ names.now) }
    ensures emitted { IfOk result (λ outs. EmitsAll builder.old builder.new
        (output_exs (outs_view outputs.now)) mask (registers_of outs)) }
{
    match outputs {
        Outputs::Star => Ok(EndOuts::new(alloc)),
        Outputs::Named(items) => emit_items(alloc, builder, names, items, mask),
    }
}

/// The same of outputs that aren't `*`.
fn emit_items(
    alloc: Global,
    builder: &mut Builder,
    names: &Names,
    items: &OutItems,
    mask: u32,
) -> Result<EndOuts, OutOfMemory>
    requires begun { IsBegun builder.old mask }
    requires names { length names.now ≡ length items.now }
    requires formed { All IsOutput items.now }
    ensures names { IfOk result (λ outs. names_of outs ≡ names.now) }
    ensures emitted { IfOk result (λ outs. EmitsAll builder.old builder.new
        (exs_of items.now) mask (registers_of outs)) }
{
    let mut outs = EndOuts::new(alloc);
    for at in 0..items.len() {
        let register = emit_expr(alloc, builder, item_at(items, at).expr.get(), mask)?;
        let name = name_at(names, at).copy(alloc)?;
        outs.push(EndOut { name, register })?;
    }
    Ok(outs)
}

/// The output at a place, counted from 0.
fn item_at(items: &OutItems, at: usize) -> &Item
    requires { at < length items.now }
    ensures { slice_get items.now at ≡ Some (item_view result.now) }
{
    match items.get(at) {
        Some(item) => item,
        None => unreachable!(),
    }
}

/// The name at a place, counted from 0.
fn name_at(names: &Names, at: usize) -> &Text
    requires { at < length names.now }
    ensures { slice_get names.now at ≡ Some result.now }
{
    match names.get(at) {
        Some(name) => name,
        None => unreachable!(),
    }
}

/// Whether the output is the whole row.
pub(crate) fn is_star(outputs: &Outputs) -> bool
    ensures { result ≡ simulation.is_star (outs_view outputs.now) }
{
    matches!(outputs, Outputs::Star)
}
