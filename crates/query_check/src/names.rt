ghost use Rattle.std.specs.Prelude.{◌≡◌, ◌<◌, ◌+◌, [], ◌∷◌, ◌++◌, length, map, slice_get, Some, OnOk, OnErr, IfOk, option_copied};
ghost use Rattle.std.specs.List.{enumerate_from};
ghost use Rattle.check_meaning.specs.Names as spec;
ghost use Rattle.query_tree.specs.View.{step_view};
ghost use Rattle.query_tree.specs.Parts.{item_view};
ghost use Rattle.query_tree.specs.Queries.{outs_view};

use query_tree::{Expr, Item, Operand, OutItems, Outputs};
use snel_values::{OutOfMemory, Step, Steps, Text};
use std::alloc::Global;
use std::marker::Model;

/// Names of outputs, seen as their list.
#[derive(Drop)]
pub struct Names {
    all: Vec<Text>,
}

impl Model for Names {
    ghost use Rattle.std.specs.Prelude.{List, ℕ};

    ghost Value = { List (List ℕ) };

    ghost view = { λ s. s.all.items };
}

impl Names {
    /// No names.
    fn new(alloc: Global) -> Names
        ensures { result ≡ [] }
    {
        Names {
            all: Vec::new(alloc),
        }
    }

    /// Adds a name at the end.
    fn push(&mut self, name: Text) -> Result<(), OutOfMemory>
        ensures { OnOk result (self.new ≡ self.old ++ name ∷ []) }
    {
        self.all.push(name)?;
        Ok(())
    }

    /// How many names there are.
    pub fn len(&self) -> usize
        ensures { result ≡ length self.now }
    {
        self.all.len()
    }

    /// The name of the output at a place, counted from 0.
    pub fn get(&self, at: usize) -> Option<&Text>
        ensures { option_copied result ≡ slice_get self.now at }
    {
        self.all.get(at)
    }
}

/// The names of the outputs; `*` has none.
#[tactic(auto, unfolding(check_meaning::specs::Names::names))]
pub(crate) fn names_of(alloc: Global, outputs: &Outputs) -> Result<Names, OutOfMemory>
    ensures { IfOk result (λ ns. ns ≡ spec.names (outs_view outputs.now)) }
{
    match outputs {
        Outputs::Star => Ok(Names::new(alloc)),
        Outputs::Named(items) => item_names(alloc, items),
    }
}

/// The step of a path at a place, counted from 0.
pub(crate) fn step_at(steps: &Steps, at: usize) -> &Step
    requires { at < length steps.now }
    ensures { slice_get steps.now at ≡ Some result.now }
{
    match steps.get(at) {
        Some(found) => found,
        None => unreachable!(),
    }
}

/// The name of a step that isn't an index.
pub(crate) fn step_name(step: &Step) -> Option<&Text>
    ensures { option_copied result ≡ spec.last_name (step_view step.now ∷ []) }
{
    match step {
        Step::Name(name) => Some(name),
        Step::At(_) => None,
    }
}

/// The output at a place, counted from 0.
pub(crate) fn output_item(items: &OutItems, at: usize) -> &Item
    requires { at < length items.now }
    ensures { slice_get items.now at ≡ Some (item_view result.now) }
{
    match items.get(at) {
        Some(found) => found,
        None => unreachable!(),
    }
}

/// The names of outputs that aren't `*`.
fn item_names(alloc: Global, items: &OutItems) -> Result<Names, OutOfMemory>
    ensures { IfOk result (λ ns. ns ≡
        map (λ o. spec.output_name o.0 o.1) (enumerate_from 1 items.now)) }
{
    let mut names = Names::new(alloc);
    for at in 0..items.len() {
        names.push(output_name(alloc, at + 1, output_item(items, at))?)?;
    }
    Ok(names)
}

/// The name of the output of this number, counted from 1.
fn output_name(alloc: Global, number: usize, item: &Item) -> Result<Text, OutOfMemory>
    ensures { IfOk result (λ t. t ≡ spec.output_name number (item_view item.now)) }
{
    match &item.name {
        Some(name) => name.copy(alloc),
        None => match path_name(&item.expr) {
            Some(name) => name.copy(alloc),
            None => numbered_name(alloc, number),
        },
    }
}

/// The name that an expression has by itself, where it is a path.
fn path_name(expr: &Operand) -> Option<&Text>
    ensures { option_copied result ≡ spec.path_name expr.now }
{
    match expr.get() {
        Expr::Path { row: _, steps } => last_name(steps),
        _ => None,
    }
}

/// The last name of a path that doesn't end in an index.
fn last_name(steps: &Steps) -> Option<&Text>
    ensures { option_copied result ≡ spec.last_name (map step_view steps.now) }
{
    let count = steps.len();
    if count == 0 {
        None
    } else {
        step_name(step_at(steps, count - 1))
    }
}

/// `_` and the number.
fn numbered_name(alloc: Global, number: usize) -> Result<Text, OutOfMemory>
    ensures { IfOk result (λ t. t ≡ spec.numbered_name number) }
{
    let name = format!(in alloc; "_{number}")?;
    Text::of(alloc, name.as_str())
}
