ghost use Rattle.std.specs.Prelude.{◌≡◌, ◌%◌, ◌<◌, Some, [], ◌∷◌, ◌++◌, length, slice_get, option_copied};
ghost use Rattle.tree_meaning.specs.Tree.{arms};
ghost use Rattle.check_meaning.specs.Operands.{operands, arm_operands};
ghost use Rattle.query_tree.specs.View.{view, arm_view};

use query_tree::{Arm, Arms, Expr, Exprs, Operand};

/// The expression of a list at a place, counted from 0.
pub fn item(list: &Exprs, at: usize) -> &Operand
    requires { at < length list.now }
    ensures { slice_get list.now at ≡ Some result.now }
{
    match list.get(at) {
        Some(found) => found,
        None => unreachable!(),
    }
}

/// The arm of a CASE at a place, counted from 0.
pub(crate) fn arm(list: &Arms, at: usize) -> &Arm
    requires { at < length list.now }
    ensures { slice_get list.now at ≡ Some (arm_view result.now) }
{
    match list.get(at) {
        Some(found) => found,
        None => unreachable!(),
    }
}

/// How many expressions stand directly in another.
pub(crate) fn operand_count(expr: &Operand) -> u128
    ensures { result ≡ length (operands expr.now) }
{
    count_in(expr.get())
}

/// The expression that stands directly in another at this place, counted from 0 in the order of the text.
pub(crate) fn operand(expr: &Operand, at: u128) -> &Operand
    requires { at < length (operands expr.now) }
    ensures { slice_get (operands expr.now) at ≡ Some result.now }
{
    match operand_in(expr.get(), at) {
        Some(found) => found,
        None => unreachable!(),
    }
}

#[tactic(auto, using(crate::proofs::Chains::length_exs, crate::proofs::Chains::length_arms))]
fn count_in(expr: &Expr) -> u128
    ensures { result ≡ length (operands (view expr.now)) }
{
    match expr {
        Expr::Lit(_) => 0,
        Expr::Path { .. } => 0,
        Expr::Bin { .. } => 2,
        Expr::In { of: _, list } => list.len() as u128 + 1,
        Expr::Between { .. } => 3,
        Expr::Case { arms, other: _ } => 2 * arms.len() as u128 + 1,
        Expr::Call { name: _, args } => args.len() as u128,
        Expr::Shift { .. } => 2,
        Expr::Agg { name: _, of: None } => 0,
        _ => 1,
    }
}

#[tactic(auto, using(crate::proofs::Chains::items_exs))]
fn operand_in(expr: &Expr, at: u128) -> Option<&Operand>
    ensures { option_copied result ≡ slice_get (operands (view expr.now)) at }
{
    match expr {
        Expr::Lit(_) => None,
        Expr::Path { .. } => None,
        Expr::Neg(of) => one(of, at),
        Expr::Not(of) => one(of, at),
        Expr::Bin { op: _, left, right } => two(left, right, at),
        Expr::Is { what: _, of } => one(of, at),
        Expr::In { of, list } => with_list(of, list, at),
        Expr::Between { of, low, high } => three(of, low, high, at),
        Expr::Match { of, .. } => one(of, at),
        Expr::Case { arms, other } => in_case(arms, other, at),
        Expr::Cast { of, to: _ } => one(of, at),
        Expr::Call { name: _, args } => listed(args, at),
        Expr::Trunc { part: _, of } => one(of, at),
        Expr::Extract { part: _, of } => one(of, at),
        Expr::Shift { part: _, count, of } => two(count, of, at),
        Expr::Agg { name: _, of: None } => None,
        Expr::Agg {
            name: _,
            of: Some(of),
        } => one(of, at),
    }
}

/// The first of one expression.
fn one(of: &Operand, at: u128) -> Option<&Operand>
    ensures { option_copied result ≡ slice_get (of.now ∷ []) at }
{
    match at {
        0 => Some(of),
        _ => None,
    }
}

/// One of two expressions.
fn two<'a>(first: &'a Operand, second: &'a Operand, at: u128) -> Option<&'a Operand>
    ensures { option_copied result ≡ slice_get (first.now ∷ second.now ∷ []) at }
{
    match at {
        0 => Some(first),
        1 => Some(second),
        _ => None,
    }
}

/// One of three expressions.
fn three<'a>(
    first: &'a Operand,
    second: &'a Operand,
    third: &'a Operand,
    at: u128,
) -> Option<&'a Operand>
    ensures { option_copied result ≡ slice_get (first.now ∷ second.now ∷ third.now ∷ []) at }
{
    match at {
        0 => Some(first),
        1 => Some(second),
        2 => Some(third),
        _ => None,
    }
}

/// One of a list.
fn listed(list: &Exprs, at: u128) -> Option<&Operand>
    ensures { option_copied result ≡ slice_get list.now at }
{
    if at < list.len() as u128 {
        list.get(at as usize)
    } else {
        None
    }
}

/// One of an expression and a list behind it.
fn with_list<'a>(of: &'a Operand, list: &'a Exprs, at: u128) -> Option<&'a Operand>
    ensures { option_copied result ≡ slice_get (of.now ∷ list.now) at }
{
    if at == 0 {
        Some(of)
    } else {
        listed(list, at - 1)
    }
}

/// One of the conditions and values of the arms, and the ELSE value behind them.
fn in_case<'a>(list: &'a Arms, other: &'a Operand, at: u128) -> Option<&'a Operand>
    ensures { option_copied result ≡ slice_get (arm_operands (arms list.now) ++ other.now ∷ []) at }
{
    let count = list.len() as u128;
    if at == 2 * count {
        return Some(other);
    }
    if at > 2 * count {
        return None;
    }
    match list.get((at / 2) as usize) {
        Some(arm) => Some(side(arm, at)),
        None => None,
    }
}

/// The condition of an arm at an even place, and its value at an odd one.
fn side(arm: &Arm, at: u128) -> &Operand
    ensures even { at % 2 ≡ 0 → result.now ≡ arm.now.test }
    ensures odd { at % 2 ≡ 1 → result.now ≡ arm.now.value }
{
    if at % 2 == 0 { &arm.test } else { &arm.value }
}
