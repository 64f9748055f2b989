ghost use Rattle.std.specs.Prelude.{map};
ghost use Rattle.query_meaning.specs.Reading as spec;
ghost use Rattle.query_tree.specs.View.{step_view};
ghost use Rattle.sql_words.specs.ReadsAt.{ReadsAs, ReadsAt};
ghost use Rattle.sql_grammar.specs.PathForms.{ReadsStepAt, path_behind, steps_behind};

use query_meaning::Mark;
use query_tree::{Expr, Operand};
use snel_values::{Step, Steps, Text};
use sql_words::{Look, ParseFault, after, expect, name_at, num_at};
use std::alloc::Global;

/// The path from a first name on, and the place behind.
pub(crate) fn path(
    alloc: Global,
    room: usize,
    first: Text,
    looks: &[Look<'_>],
    at: usize,
) -> Result<(Operand, usize), ParseFault>
    ensures { ReadsAt looks.now at result (path_behind first room) }
{
    let (steps, behind) = steps(alloc, room, first, looks, at)?;
    let path = Operand::new(alloc, Expr::Path { row: 0, steps })?;
    Ok((path, behind))
}

/// The steps from a first name on, and the place behind.
fn steps(
    alloc: Global,
    room: usize,
    first: Text,
    looks: &[Look<'_>],
    at: usize,
) -> Result<(Steps, usize), ParseFault>
    ensures { ReadsAs (map step_view) looks.now at result (steps_behind first room) }
{
    let mut all = Steps::new(alloc);
    all.push(Step::Name(first))?;
    let mut rest = at;
    for _turn in 0..room {
        let Some((step, behind)) = step_at(alloc, looks, rest)? else {
            return Ok((all, rest));
        };
        all.push(step)?;
        rest = behind;
    }
    Err(ParseFault::NotAQuery)
}

/// The step that begins here, if one does, and the place behind.
#[tactic(auto, unfolding(query_meaning::specs::Reading::step_at))]
fn step_at(
    alloc: Global,
    looks: &[Look<'_>],
    at: usize,
) -> Result<Option<(Step, usize)>, ParseFault>
    ensures { ReadsStepAt looks.now at result }
{
    if let Some(rest) = after(looks, at, Mark::Dot) {
        return Ok(Some(field_at(alloc, looks, rest)?));
    }
    if let Some(rest) = after(looks, at, Mark::OpenIndex) {
        return Ok(Some(index_at(looks, rest)?));
    }
    Ok(None)
}

/// The name that stands here, behind `.`, and the place behind.
#[tactic(auto, unfolding(query_meaning::specs::Reading::field_at))]
fn field_at(alloc: Global, looks: &[Look<'_>], at: usize) -> Result<(Step, usize), ParseFault>
    ensures { ReadsAs step_view looks.now at result spec.field_at }
{
    let (name, behind) = name_at(alloc, looks, at)?;
    Ok((Step::Name(name), behind))
}

/// The index that stands here, behind `[`, and the place behind `]`.
#[tactic(auto, unfolding(query_meaning::specs::Reading::index_at))]
fn index_at(looks: &[Look<'_>], at: usize) -> Result<(Step, usize), ParseFault>
    ensures { ReadsAs step_view looks.now at result spec.index_at }
{
    let (number, rest) = num_at(looks, at)?;
    if number > 4_294_967_295 {
        return Err(ParseFault::NotAQuery);
    }
    let behind = expect(looks, rest, Mark::CloseIndex)?;
    Ok((Step::At(number as u32), behind))
}
