//! From the parts of a query that its answer is made from to the registers that the ends of its job name.
ghost use Rattle.std.specs.Prelude.{◌≡◌, ◌<◌, true, false, length, IfOk, Some, slice_get};
ghost use Rattle.tree_meaning.specs.Tree.{agg};
ghost use Rattle.tree_meaning.specs.WellFormed.{IsFormed};
ghost use Rattle.check_meaning.specs.Aggregates as grouping;
ghost use Rattle.program_meaning.specs.Simulation.{order_exs};
ghost use Rattle.query_tree.specs.View.{view};
ghost use Rattle.query_tree.specs.Parts.{key_view};
ghost use Rattle.lane_ssa.specs.Views.{ends_view};
ghost use Rattle.lane_ssa.specs.EndParts.{agg_end_view};
ghost use Rattle.plan_lower.specs.Emitting.{IsBegun, EmitsAll};
ghost use Rattle.plan_lower.specs.Ends as ends;
ghost use Rattle.plan_lower.specs.Ends.{IsAggregateForm, EmitsAgg, EmitsAggs, EmitsEnds};

use crate::emitting::{emit_expr, emit_list};
use crate::named_outputs::{emit_outs, is_star};
use lane_ssa::{Builder, EndAgg, EndAggs, EndOuts, Ends, Registers};
use query_check::Checked;
use query_tree::{Expr, Exprs, Operand, OrderKey, OrderKeys};
use snel_values::OutOfMemory;
use std::alloc::Global;
use tree_meaning::AggName;

/// Adds the instructions of what a query's answer is made from, under the mask of the rows that pass: of outputs and sort keys,
/// or, where the query is grouped, of group keys and the operands of aggregates. The ends that name their registers.
pub(crate) fn emit_ends(
    alloc: Global,
    builder: &mut Builder,
    checked: &Checked,
    keep: u32,
) -> Result<Ends, OutOfMemory>
    requires { IsBegun builder.old keep }
    ensures { IfOk result
        (λ e. EmitsEnds builder.old builder.new checked.now keep (ends_view e)) }
{
    if checked.grouped() {
        emit_group_ends(alloc, builder, checked, keep)
    } else {
        emit_row_ends(alloc, builder, checked, keep)
    }
}

/// The ends of a query that is grouped.
fn emit_group_ends(
    alloc: Global,
    builder: &mut Builder,
    checked: &Checked,
    keep: u32,
) -> Result<Ends, OutOfMemory>
    requires begun { IsBegun builder.old keep }
    requires grouped { grouping.is_grouped checked.now ≡ true }
    ensures { IfOk result
        (λ e. EmitsEnds builder.old builder.new checked.now keep (ends_view e)) }
{
    let query = checked.query();
    let groups = emit_list(alloc, builder, &query.keys, keep)?;
    let aggs = emit_aggs(alloc, builder, checked, keep)?;
    Ok(group_ends(alloc, keep, is_star(&query.outputs), groups, aggs))
}

/// The ends of a query that isn't grouped.
fn emit_row_ends(
    alloc: Global,
    builder: &mut Builder,
    checked: &Checked,
    keep: u32,
) -> Result<Ends, OutOfMemory>
    requires begun { IsBegun builder.old keep }
    requires ungrouped { grouping.is_grouped checked.now ≡ false }
    ensures { IfOk result
        (λ e. EmitsEnds builder.old builder.new checked.now keep (ends_view e)) }
{
    let query = checked.query();
    let outs = emit_outs(alloc, builder, checked.names(), &query.outputs, keep)?;
    let sorts = emit_sorts(alloc, builder, checked, keep)?;
    Ok(row_ends(alloc, keep, is_star(&query.outputs), outs, sorts))
}

/// The ends of a job of groups.
fn group_ends(alloc: Global, keep: u32, star: bool, groups: Registers, aggs: EndAggs) -> Ends
    ensures { ends_view result ≡ ends.group_ends keep star groups aggs }
{
    Ends {
        keep,
        star,
        grouped: true,
        outs: EndOuts::new(alloc),
        sorts: Registers::new(alloc),
        groups,
        aggs,
    }
}

/// The ends of a job of rows.
fn row_ends(alloc: Global, keep: u32, star: bool, outs: EndOuts, sorts: Registers) -> Ends
    ensures { ends_view result ≡ ends.row_ends keep star outs sorts }
{
    Ends {
        keep,
        star,
        grouped: false,
        outs,
        sorts,
        groups: Registers::new(alloc),
        aggs: EndAggs::new(alloc),
    }
}

/// Adds the instructions of what the order keys stand for; the register of each.
fn emit_sorts(
    alloc: Global,
    builder: &mut Builder,
    checked: &Checked,
    mask: u32,
) -> Result<Registers, OutOfMemory>
    requires { IsBegun builder.old mask }
    ensures { IfOk result
        (λ rs. EmitsAll builder.old builder.new (order_exs checked.now) mask rs) }
{
    let keys = &checked.query().order;
    let mut registers = Registers::new(alloc);
    for at in 0..keys.len() {
        let key = checked.order_ex(&order_key(keys, at).expr);
        registers.push(emit_expr(alloc, builder, key.get(), mask)?)?;
    }
    Ok(registers)
}

/// Adds the instructions of the operands of a query's aggregates; each with the register of its operand.
fn emit_aggs(
    alloc: Global,
    builder: &mut Builder,
    checked: &Checked,
    mask: u32,
) -> Result<EndAggs, OutOfMemory>
    requires { IsBegun builder.old mask }
    ensures { IfOk result (λ aggs. EmitsAggs builder.old builder.new
        (grouping.aggregates checked.now) mask aggs) }
{
    checked.know();
    let list = checked.aggs();
    let mut aggs = EndAggs::new(alloc);
    for at in 0..list.len() {
        let Some(agg) = list.get(at) else {
            unreachable!();
        };
        aggs.push(emit_agg(alloc, builder, agg.get(), mask)?)?;
    }
    Ok(aggs)
}

/// Adds the instructions of an aggregate's operand, if it has one.
fn emit_agg(
    alloc: Global,
    builder: &mut Builder,
    of: &Expr,
    mask: u32,
) -> Result<EndAgg, OutOfMemory>
    requires begun { IsBegun builder.old mask }
    requires aggregate { IsAggregateForm (view of.now) }
    ensures { IfOk result
        (λ a. EmitsAgg builder.old builder.new (view of.now) mask (agg_end_view a)) }
{
    match of {
        Expr::Agg { name, of } => match of {
            Some(of) => emit_operand(alloc, builder, *name, of, mask),
            None => Ok(EndAgg {
                name: *name,
                register: None,
            }),
        },
        _ => unreachable!(),
    }
}

/// Adds the instructions of the operand of an aggregate that has one.
fn emit_operand(
    alloc: Global,
    builder: &mut Builder,
    name: AggName,
    of: &Operand,
    mask: u32,
) -> Result<EndAgg, OutOfMemory>
    requires begun { IsBegun builder.old mask }
    requires formed { IsFormed (agg name of.now) }
    ensures { IfOk result
        (λ a. EmitsAgg builder.old builder.new (agg name of.now) mask (agg_end_view a)) }
{
    let register = emit_expr(alloc, builder, of.get(), mask)?;
    Ok(EndAgg {
        name,
        register: Some(register),
    })
}

/// The order key at a place, counted from 0.
fn order_key(keys: &OrderKeys, at: usize) -> &OrderKey
    requires { at < length keys.now }
    ensures { slice_get keys.now at ≡ Some (key_view result.now) }
{
    match keys.get(at) {
        Some(found) => found,
        None => unreachable!(),
    }
}
