//! Patterns, compiled once for a job.

ghost use Rattle.std.specs.Prelude.{◌≡◌, map, IfOk};
ghost use Rattle.lane_ssa.specs.Compiled.{pattern_of, patterns_of};
ghost use Rattle.lane_ssa.specs.Views.{instr_view};

use crate::instr::Instr;
use lane_text::Pattern;
use snel_values::OutOfMemory;
use std::alloc::Global;

/// The pattern of each instruction that matches texts, in the instruction's place.
pub(crate) fn compile_all(
    alloc: Global,
    instrs: &[Instr],
) -> Result<Vec<Option<Pattern>>, OutOfMemory>
    ensures { IfOk result (λ v. v.items ≡ patterns_of (map instr_view instrs.now)) }
{
    let mut patterns = Vec::with_capacity(alloc, instrs.len())?;
    for instr in instrs {
        patterns.push(compile(alloc, instr)?)?;
    }
    Ok(patterns)
}

/// The pattern of an instruction, if it matches texts.
fn compile(alloc: Global, instr: &Instr) -> Result<Option<Pattern>, OutOfMemory>
    ensures { IfOk result (λ p. p ≡ pattern_of (instr_view instr.now)) }
{
    match instr {
        Instr::Match { how, pattern, .. } => {
            Ok(Some(Pattern::of(alloc, *how, pattern.as_str())?))
        }
        _ => Ok(None),
    }
}
