ghost use Rattle.std.specs.Prelude.{◌≡◌, ℕ, ◌+◌, ◌<◌, length, map, slice_get, Some, option_copied};
ghost use Rattle.std.specs.Option.{option_map, option_and_then};
ghost use Rattle.std.specs.List.{position_from};
ghost use Rattle.std.specs.Str.{bytes_eq};
ghost use Rattle.check_meaning.specs.Names as named;
ghost use Rattle.check_meaning.specs.Places as spec;
ghost use Rattle.query_tree.specs.View.{step_view};
ghost use Rattle.query_tree.specs.Queries.{outs_view};
ghost use Rattle.snel_values.specs.View.{view as value_view};
ghost use Rattle.tree_meaning.specs.Tree.{lit, path};

use crate::names::{Names, output_item, step_at, step_name};
use query_tree::{Expr, Operand, OutItems, Outputs};
use snel_values::{Steps, Text, Value};

/// What an order key stands for: an output, or itself.
#[tactic(auto, unfolding(check_meaning::specs::Places::order_ex))]
pub(crate) fn order_ex<'a>(outputs: &'a Outputs, names: &Names, key: &'a Operand) -> &'a Operand
    requires { names.now ≡ named.names (outs_view outputs.now) }
    ensures { result.now ≡ spec.order_ex (outs_view outputs.now) key.now }
{
    match by_number(outputs, key) {
        Some(output) => output,
        None => match by_name(outputs, names, key) {
            Some(output) => output,
            None => key,
        },
    }
}

/// How many outputs there are; `*` has none.
pub(crate) fn output_count(outputs: &Outputs) -> usize
    ensures { result ≡ length (spec.output_exs (outs_view outputs.now)) }
{
    match outputs {
        Outputs::Star => 0,
        Outputs::Named(items) => items.len(),
    }
}

/// The output at a place, counted from 0.
pub(crate) fn output_ex(outputs: &Outputs, at: u128) -> Option<&Operand>
    ensures { option_copied result ≡
        slice_get (spec.output_exs (outs_view outputs.now)) at }
{
    match outputs {
        Outputs::Star => None,
        Outputs::Named(items) => item_ex(items, at),
    }
}

/// The output of this number, counted from 1.
pub(crate) fn output_at(outputs: &Outputs, number: i128) -> Option<&Operand>
    ensures { option_copied result ≡ spec.output_at (outs_view outputs.now) number }
{
    if number < 1 {
        return None;
    }
    output_ex(outputs, number.unsigned_abs() - 1)
}

/// The number that a literal is.
pub(crate) fn as_number(expr: &Operand) -> Option<i128>
    ensures { result ≡ spec.as_number expr.now }
{
    match expr.get() {
        Expr::Lit(value) => int_of(value),
        _ => None,
    }
}

/// The name at a place, counted from 0.
pub(crate) fn name_at(names: &Names, at: usize) -> &Text
    requires { at < length names.now }
    ensures { slice_get names.now at ≡ Some result.now }
{
    match names.get(at) {
        Some(found) => found,
        None => unreachable!(),
    }
}

/// The expression of an output at a place, counted from 0.
fn item_ex(items: &OutItems, at: u128) -> Option<&Operand>
    ensures { option_copied result ≡ slice_get (map (λ o. o.0) items.now) at }
{
    if at < items.len() as u128 {
        Some(&output_item(items, at as usize).expr)
    } else {
        None
    }
}

/// The output whose number the order key is.
fn by_number<'a>(outputs: &'a Outputs, key: &Operand) -> Option<&'a Operand>
    ensures { option_copied result ≡
        option_and_then (spec.output_at (outs_view outputs.now)) (spec.as_number key.now) }
{
    match as_number(key) {
        Some(number) => output_at(outputs, number),
        None => None,
    }
}

/// The output whose name the order key is.
fn by_name<'a>(outputs: &'a Outputs, names: &Names, key: &Operand) -> Option<&'a Operand>
    requires { names.now ≡ named.names (outs_view outputs.now) }
    ensures { option_copied result ≡
        option_and_then (spec.output_named (outs_view outputs.now)) (spec.as_name key.now) }
{
    match as_name(key) {
        Some(name) => output_named(outputs, names, name.as_str()),
        None => None,
    }
}

/// The name that is all of a path from the row.
fn as_name(expr: &Operand) -> Option<&Text>
    ensures { option_copied result ≡ spec.as_name expr.now }
{
    match expr.get() {
        Expr::Path { row, steps } => only_name(*row, steps),
        _ => None,
    }
}

/// The name of a path of one step.
fn only_name(row: u8, steps: &Steps) -> Option<&Text>
    ensures { option_copied result ≡ spec.as_name (path row (map step_view steps.now)) }
{
    if row == 0 && steps.len() == 1 {
        step_name(step_at(steps, 0))
    } else {
        None
    }
}

/// The first output of that name.
#[tactic(auto, unfolding(check_meaning::specs::Places::output_named))]
fn output_named<'a>(outputs: &'a Outputs, names: &Names, name: &str) -> Option<&'a Operand>
    requires { names.now ≡ named.names (outs_view outputs.now) }
    ensures { option_copied result ≡
        spec.output_named (outs_view outputs.now) name.now }
{
    match name_place(names, name) {
        Some(at) => output_ex(outputs, at as u128),
        None => None,
    }
}

/// The place of the first of these names that is the name, counted from 0.
fn name_place(names: &Names, name: &str) -> Option<usize>
    ensures { result ≡ position_from (bytes_eq name.now) 0 names.now }
{
    for at in 0..names.len() {
        if name == name_at(names, at).as_str() {
            return Some(at);
        }
    }
    None
}

fn int_of(value: &Value) -> Option<i128>
    ensures { result ≡ spec.as_number (lit (value_view value.now)) }
{
    match value {
        Value::Int(number) => Some(*number),
        _ => None,
    }
}
