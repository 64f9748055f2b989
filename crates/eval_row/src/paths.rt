ghost use Rattle.std.specs.Prelude.{◌≡◌, IfOk, map, unwrap_or};
ghost use Rattle.std.specs.Option.{option_map};
ghost use Rattle.value_meaning.specs.Val.{missing};
ghost use Rattle.snel_values.specs.View.{view};
ghost use Rattle.query_tree.specs.View.{step_view};
ghost use Rattle.eval_meaning.specs.Paths as spec;

use snel_values::{OutOfMemory, Step, Steps, Value};
use std::alloc::Global;

/// The value to which the steps lead from a value.
pub(crate) fn value_at(alloc: Global, steps: &Steps, from: &Value) -> Result<Value, OutOfMemory>
    ensures { IfOk result (λ v. view v ≡ spec.path_of (map step_view steps.now) (view from.now)) }
{
    let mut at = from;
    for i in 0..steps.len() {
        let Some(step) = steps.get(i) else {
            unreachable!();
        };
        match step_to(at, step) {
            Some(next) => at = next,
            None => return Ok(Value::Missing),
        }
    }
    at.copy(alloc)
}

/// The value to which one step leads, if there is one.
fn step_to<'a>(value: &'a Value, step: &Step) -> Option<&'a Value>
    ensures { unwrap_or (option_map (λ v. view v.now) result) missing ≡
        spec.step_of (step_view step.now) (view value.now) }
{
    match (step, value) {
        (Step::Name(name), Value::Struct(pairs)) => pairs.get(name.as_str()),
        (Step::At(at), Value::List(items)) => items.get(*at as usize),
        _ => None,
    }
}
