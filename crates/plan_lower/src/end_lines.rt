//! The lines of the ends of a job.
ghost use Rattle.std.specs.Prelude.{◌≡◌, ◌++◌, codes, OnOk};
ghost use Rattle.std.specs.List.{flat_map};
ghost use Rattle.lane_ssa.specs.EndParts.{out_view, agg_end_view};
ghost use Rattle.lane_ssa.specs.Views.{ends_view};
ghost use Rattle.plan_lower.specs.Listing as spec;

use crate::pieces::{agg_word, put_mask, put_operand};
use lane_ssa::{EndAgg, EndAggs, EndOut, EndOuts, Ends, Registers};
use snel_values::{Bytes, OutOfMemory};
use sql_pieces::{put, put_name};

/// The lines of the ends of a job.
#[tactic(auto, unfolding(crate::specs::Listing::ends_text))]
pub(crate) fn put_ends(text: &mut Bytes, ends: &Ends) -> Result<(), OutOfMemory>
    ensures { OnOk result (text.new ≡ text.old ++ spec.ends_text (ends_view ends.now)) }
{
    put_keep(text, ends.keep)?;
    put_output(text, ends)?;
    put_sorts(text, &ends.sorts)?;
    put_groups(text, &ends.groups)?;
    put_aggs(text, &ends.aggs)
}

fn put_keep(text: &mut Bytes, keep: u32) -> Result<(), OutOfMemory>
    ensures { OnOk result
        (text.new ≡ text.old ++ spec.line (codes "keep " ++ spec.mask_name keep)) }
{
    put(text, "keep ")?;
    put_mask(text, u64::from(keep))?;
    put(text, "\n")
}

/// The whole row, or the outputs.
#[tactic(auto, unfolding(crate::specs::Listing::outs_text))]
fn put_output(text: &mut Bytes, ends: &Ends) -> Result<(), OutOfMemory>
    ensures { OnOk result (text.new ≡ text.old ++ spec.outs_text (ends_view ends.now)) }
{
    if ends.star {
        put(text, "star\n")
    } else {
        put_outs(text, &ends.outs)
    }
}

fn put_outs(text: &mut Bytes, outs: &EndOuts) -> Result<(), OutOfMemory>
    ensures { OnOk result (text.new ≡ text.old ++ flat_map spec.out_line outs.now) }
{
    for at in 0..outs.len() {
        let Some(out) = outs.get(at) else {
            unreachable!()
        };
        put_out(text, out)?;
    }
    Ok(())
}

#[tactic(auto, unfolding(crate::specs::Listing::out_line))]
fn put_out(text: &mut Bytes, out: &EndOut) -> Result<(), OutOfMemory>
    ensures { OnOk result (text.new ≡ text.old ++ spec.out_line (out_view out.now)) }
{
    put(text, "out ")?;
    put_name(text, out.name.as_str())?;
    put_operand(text, out.register)?;
    put(text, "\n")
}

fn put_sorts(text: &mut Bytes, sorts: &Registers) -> Result<(), OutOfMemory>
    ensures { OnOk result (text.new ≡ text.old ++ flat_map spec.sort_line sorts.now) }
{
    for at in 0..sorts.len() {
        let Some(register) = sorts.get(at) else {
            unreachable!()
        };
        put_sort(text, register)?;
    }
    Ok(())
}

#[tactic(auto, unfolding(crate::specs::Listing::sort_line))]
fn put_sort(text: &mut Bytes, register: u32) -> Result<(), OutOfMemory>
    ensures { OnOk result (text.new ≡ text.old ++ spec.sort_line register) }
{
    put(text, "sort")?;
    put_operand(text, register)?;
    put(text, "\n")
}

fn put_groups(text: &mut Bytes, groups: &Registers) -> Result<(), OutOfMemory>
    ensures { OnOk result (text.new ≡ text.old ++ flat_map spec.group_line groups.now) }
{
    for at in 0..groups.len() {
        let Some(register) = groups.get(at) else {
            unreachable!()
        };
        put_group(text, register)?;
    }
    Ok(())
}

#[tactic(auto, unfolding(crate::specs::Listing::group_line))]
fn put_group(text: &mut Bytes, register: u32) -> Result<(), OutOfMemory>
    ensures { OnOk result (text.new ≡ text.old ++ spec.group_line register) }
{
    put(text, "group")?;
    put_operand(text, register)?;
    put(text, "\n")
}

fn put_aggs(text: &mut Bytes, aggs: &EndAggs) -> Result<(), OutOfMemory>
    ensures { OnOk result (text.new ≡ text.old ++ flat_map spec.agg_line aggs.now) }
{
    for at in 0..aggs.len() {
        let Some(agg) = aggs.get(at) else {
            unreachable!()
        };
        put_agg(text, agg)?;
    }
    Ok(())
}

#[tactic(auto, unfolding(crate::specs::Listing::agg_line))]
fn put_agg(text: &mut Bytes, agg: EndAgg) -> Result<(), OutOfMemory>
    ensures { OnOk result (text.new ≡ text.old ++ spec.agg_line (agg_end_view agg)) }
{
    put(text, "agg ")?;
    put(text, agg_word(agg.name))?;
    put_optional(text, agg.register)?;
    put(text, "\n")
}

/// The register of an operand, if there is one.
fn put_optional(text: &mut Bytes, register: Option<u32>) -> Result<(), OutOfMemory>
    ensures { OnOk result (text.new ≡ text.old ++ spec.optional_text register) }
{
    match register {
        Some(register) => put_operand(text, register),
        None => Ok(()),
    }
}
