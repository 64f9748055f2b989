//! What aggregates see of their operands.

ghost use Rattle.std.specs.Prelude.{◌<◌, All, map, length, OnOk};
ghost use Rattle.block_meaning.specs.Tables.{Table};
ghost use Rattle.program_meaning.specs.Jobs.{IsAggregate};
ghost use Rattle.lane_base.specs.Shown.{value_under, IsLegal};
ghost use Rattle.lane_base.specs.Registers.{seen, AreLegal};
ghost use Rattle.lane_ssa.specs.EndParts.{agg_end_view};
ghost use Rattle.lane_ssa.specs.Frames.{state_at};
ghost use Rattle.agg_laws.specs.Shows.{Shows};
ghost use Rattle.hash_agg.specs.Items.{ShowsAll};
ghost use Rattle.batch_groups.specs.Keyed.{operand_at};

use agg_laws::Seen;
use lane_base::Look;
use lane_ssa::{EndAgg, EndAggs, Frame};
use snel_values::OutOfMemory;

/// What each aggregate sees of its operand in a lane, which is below 16, in place of what stood there. COUNT(*) sees MISSING.
pub(crate) fn see_operands<'b>(
    frame: &Frame<'b>,
    aggs: &EndAggs,
    lane: u32,
    shown: &mut Vec<Seen>,
) -> Result<(), OutOfMemory>
    requires lane { lane < 16 }
    requires aggs { All (IsAggregate (length frame.now.values)) aggs.now }
    ensures { (table : Table) → All (AreLegal table) frame.now.values
        → OnOk result (ShowsAll shown.new.items
        (map (operand_at (state_at table frame.now lane)) aggs.now)) }
{
    shown.clear();
    for at in 0..aggs.len() {
        let Some(agg) = aggs.get(at) else {
            unreachable!();
        };
        shown.push(see_operand(frame, agg, lane))?;
    }
    Ok(())
}

/// What the aggregate sees of its operand.
fn see_operand<'b>(frame: &Frame<'b>, agg: EndAgg, lane: u32) -> Seen
    requires lane { lane < 16 }
    requires register { IsAggregate (length frame.now.values) (agg_end_view agg) }
    ensures { (table : Table) → All (AreLegal table) frame.now.values
        → Shows result (operand_at (state_at table frame.now lane) (agg_end_view agg)) }
{
    match agg.register {
        Some(register) => see(frame.lane(register, lane)),
        None => Seen::Missing,
    }
}

/// What an aggregate sees of what a lane shows.
fn see(look: Look<'_>) -> Seen
    ensures { (table : Table) → IsLegal table (seen look.entry)
        → Shows result (value_under table (seen look.entry)) }
{
    match look {
        Look::Missing => Seen::Missing,
        Look::Null => Seen::Null,
        Look::Bool(truth) => Seen::Bool(truth),
        Look::Int(number) => Seen::Int(number),
        Look::Time(time) => Seen::Time(time),
        Look::Text(_) => Seen::Other,
        Look::Tree(_) => Seen::Other,
    }
}
