ghost use Rattle.std.specs.Prelude.{◌≡◌, IfOk, map, drop, slice_get};
ghost use Rattle.std.specs.Option.{option_map};
ghost use Rattle.query_meaning.specs.RowName as spec;
ghost use Rattle.sql_rows.specs.RowPaths.{name_step, skipped};
ghost use Rattle.query_tree.specs.View.{step_view};

use snel_values::{OutOfMemory, Step, Steps};
use std::alloc::Global;

/// The steps of a path without the row's name.
pub(crate) fn short_steps(alloc: Global, row: &str, steps: &Steps) -> Result<Steps, OutOfMemory>
    ensures { let short = spec.short_path row.now (map step_view steps.now) in
        IfOk result (λ s. map step_view s ≡ short) }
{
    let from = skipped(row, steps);
    copy_from(alloc, steps, from)
}

/// How many steps at the front are the row's name: one where a path goes on from it to another
/// name.
fn skipped(row: &str, steps: &Steps) -> usize
    ensures { result ≡ skipped row.now (name_step (option_map step_view (slice_get steps.now 0)))
        (name_step (option_map step_view (slice_get steps.now 1))) }
{
    let Some(first) = name_step(steps, 0) else {
        return 0;
    };
    let Some(_) = name_step(steps, 1) else {
        return 0;
    };
    if first == row { 1 } else { 0 }
}

/// The name that the step at a place is, if it is one.
fn name_step(steps: &Steps, at: usize) -> Option<&str>
    ensures { let step = option_map step_view (slice_get steps.now at) in
        option_map (λ s. s.now) result ≡ name_step step }
{
    match steps.get(at) {
        Some(Step::Name(name)) => Some(name.as_str()),
        _ => None,
    }
}

/// The steps from a place on.
fn copy_from(alloc: Global, steps: &Steps, from: usize) -> Result<Steps, OutOfMemory>
    ensures { IfOk result (λ s. map step_view s ≡ drop from (map step_view steps.now)) }
{
    let mut all = Steps::new(alloc);
    for at in from..steps.len() {
        let Some(step) = steps.get(at) else {
            return Ok(all);
        };
        let step = copy_step(alloc, step)?;
        all.push(step)?;
    }
    Ok(all)
}

/// An equal step.
fn copy_step(alloc: Global, step: &Step) -> Result<Step, OutOfMemory>
    ensures { IfOk result (λ s. step_view s ≡ step_view step.now) }
{
    match step {
        Step::Name(name) => Ok(Step::Name(name.copy(alloc)?)),
        Step::At(index) => Ok(Step::At(*index)),
    }
}
