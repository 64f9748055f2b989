ghost use Rattle.std.specs.Prelude.{◌≡◌, ◌<◌, ℕ, All, map, length};
ghost use Rattle.block_file.specs.Chunks.{AreCellsOf};
ghost use Rattle.program_meaning.specs.Programs.{IsProgram, mask_count, value_count};
ghost use Rattle.program_meaning.specs.Registers.{after, HasRun};
ghost use Rattle.program_meaning.specs.Simulation.{lanes_of};
ghost use Rattle.lane_base.specs.Registers.{AreLegal};
ghost use Rattle.lane_ssa.specs.Bound.{IsBound};
ghost use Rattle.lane_ssa.specs.Compiled.{patterns_of};
ghost use Rattle.lane_ssa.specs.ChunksOf.{rows_from, IsChunkOf};
ghost use Rattle.lane_ssa.specs.Frames.{registers_at};
ghost use Rattle.lane_ssa.specs.Making.{lane_at, IsReadable};
ghost use Rattle.lane_ssa.specs.Views.{instr_view};

use crate::instr::Instr;
use crate::job::Job;
use crate::make::{Made, make};
use crate::rows::{live_of, rows16};
use block_file::{Block, Chunk};
use ion_symtab::SymTab;
use lane_base::{LaneMask, Lanes};
use lane_text::Pattern;

/// Makes the registers of a program in their places, in the order of their numbers, on the rows of the live lanes. What stood
/// in them before is written over.
fn run<'b>(
    instrs: &'b [Instr],
    symbols: &[Option<u32>],
    patterns: &[Option<Pattern>],
    table: &SymTab<'b>,
    live: LaneMask,
    rows: &Lanes<'b>,
    masks: &mut Vec<LaneMask>,
    values: &mut Vec<Lanes<'b>>,
)
    requires program { IsProgram (map instr_view instrs.now) }
    requires bound { IsBound table.now (map instr_view instrs.now) symbols.now }
    requires compiled { patterns.now ≡ patterns_of (map instr_view instrs.now) }
    requires readable { IsReadable table.now }
    requires rows { AreLegal table.now rows.now }
    requires masks { length masks.old.items ≡ mask_count (map instr_view instrs.now) }
    requires values { length values.old.items ≡ value_count (map instr_view instrs.now) }
    ensures state { (i : ℕ) → i < 16 → registers_at table.now masks.new.items values.new.items i
        ≡ after (lane_at table.now live.0 rows.now i) (map instr_view instrs.now) }
    ensures legal { All (AreLegal table.now) values.new.items }
    ensures masks { length masks.new.items ≡ mask_count (map instr_view instrs.now) }
    ensures values { length values.new.items ≡ value_count (map instr_view instrs.now) }
{
    let mut made = Made {
        masks: 0,
        values: 0,
    };
    for k in 0..instrs.len() {
        made = make(
            &instrs[k],
            symbols[k],
            &patterns[k],
            table,
            live,
            rows,
            made,
            masks,
            values,
        );
    }
}

/// Makes the registers of a job on the rows of a chunk of the block.
pub(crate) fn run_rows<'b>(
    job: &'b Job,
    symbols: &[Option<u32>],
    patterns: &[Option<Pattern>],
    block: &Block<'b>,
    chunk: &Chunk<'b>,
    masks: &mut Vec<LaneMask>,
    values: &mut Vec<Lanes<'b>>,
)
    requires bound { IsBound block.now.0 job.now.program symbols.now }
    requires compiled { patterns.now ≡ patterns_of job.now.program }
    requires chunk { IsChunkOf block.now.0 block.now.1 chunk.now }
    requires masks { length masks.old.items ≡ mask_count job.now.program }
    requires values { length values.old.items ≡ value_count job.now.program }
    ensures ran { (first : ℕ) → AreCellsOf block.now.0 (rows_from first block.now.1) chunk.now
        → HasRun job.now.program (lanes_of (rows_from first block.now.1))
        (registers_at block.now.0 masks.new.items values.new.items) }
    ensures legal { All (AreLegal block.now.0) values.new.items }
    ensures masks { length masks.new.items ≡ mask_count job.now.program }
    ensures values { length values.new.items ≡ value_count job.now.program }
{
    block.know();
    let table = block.table();
    table.know();
    let _last = table.last();
    let live = live_of(chunk);
    let rows = rows16(chunk, live);
    run(
        job.instrs(),
        symbols,
        patterns,
        table,
        live,
        &rows,
        masks,
        values,
    );
}
