//! The line of one row.

ghost use Rattle.std.specs.Prelude.{◌≡◌, ◌<◌, ◌+◌, ◌++◌, ◌||◌, not, All, length, slice_get, Some, OnOk, IfOk};
ghost use Rattle.value_meaning.specs.Val.{Val};
ghost use Rattle.eval_meaning.specs.Logic.{is_missing};
ghost use Rattle.answer_meaning.specs.Lines.{line_text};
ghost use Rattle.program_meaning.specs.Programs.{value_count};
ghost use Rattle.lane_base.specs.Shown.{value_under, IsLegal};
ghost use Rattle.lane_base.specs.Registers.{seen, AreLegal};
ghost use Rattle.lane_ssa.specs.Frames.{state_at};
ghost use Rattle.lane_ssa.specs.ChunksOf.{rows_from};
ghost use Rattle.block_lines.specs.HeadTexts.{value_behind, AreHeads};
ghost use Rattle.block_lines.specs.Ran.{HasRunOver};
ghost use Rattle.block_lines.specs.RowLines.{shown_pairs, line_of};

use crate::heads::LineHeads;
use crate::pairs::append_look;
use block_file::Block;
use ion_symtab::SymTab;
use json_out::append_row;
use lane_base::Look;
use lane_ssa::Frame;
use snel_values::{Bytes, OutOfMemory};

/// Adds the value of an output behind its head, unless it is MISSING, and says whether a pair stands in the line now.
fn append_output(
    into: &mut Bytes,
    head: &[u8],
    later: bool,
    table: &SymTab<'_>,
    look: Look<'_>,
) -> Result<bool, OutOfMemory>
    requires { IsLegal table.now (seen look) }
    ensures text { OnOk result (into.new ≡ into.old
        ++ value_behind head.now (value_under table.now (seen look.entry))) }
    ensures later { IfOk result (λ some. some
        ≡ (later || not (is_missing (value_under table.now (seen look.entry))))) }
{
    if let Look::Missing = look {
        return Ok(later);
    }
    into.push_all(head)?;
    append_look(into, table, look)?;
    Ok(true)
}

/// Adds the line of the outputs, from the registers in a lane, which is below 16.
fn append_outputs<'b>(
    into: &mut Bytes,
    heads: &LineHeads,
    frame: &Frame<'b>,
    table: &SymTab<'b>,
    lane: u32,
) -> Result<(), OutOfMemory>
    requires lane { lane < 16 }
    requires heads { AreHeads frame.now.job.ends.outs heads.now }
    requires legal { All (AreLegal table.now) frame.now.values }
    requires values { length frame.now.values ≡ value_count frame.now.job.program }
    ensures { OnOk result (into.new ≡ into.old
        ++ line_text (shown_pairs (state_at table.now frame.now lane) frame.now.job.ends.outs)) }
{
    let outs = &frame.job().ends().outs;
    let mut later = false;
    for at in 0..outs.len() {
        let Some(out) = outs.get(at) else {
            unreachable!();
        };
        let Some(head) = heads.get(at, later) else {
            unreachable!();
        };
        let look = frame.lane(out.register, lane);
        later = append_output(into, head, later, table, look)?;
    }
    if later {
        into.push_all(b"}\n")
    } else {
        into.push_all(b"{}\n")
    }
}

/// Adds the line of the row in a lane, which is below 16, of the chunk from `first` on that the frame ran over.
pub(crate) fn append_line<'b>(
    into: &mut Bytes,
    heads: &LineHeads,
    frame: &Frame<'b>,
    block: &Block<'b>,
    first: u32,
    lane: u32,
) -> Result<(), OutOfMemory>
    requires lane { lane < 16 }
    requires heads { AreHeads frame.now.job.ends.outs heads.now }
    requires within { first + lane < length block.now.1 }
    requires ran { HasRunOver block.now.0 (rows_from first block.now.1) frame.now }
    ensures { (row : Val) → slice_get (rows_from first block.now.1) lane ≡ Some row
        → OnOk result (into.new ≡ into.old ++ line_of frame.now.job row) }
{
    block.know();
    if frame.job().ends().star {
        append_row(into, block.table(), &block.row(first + lane))
    } else {
        append_outputs(into, heads, frame, block.table(), lane)
    }
}
