ghost use Rattle.std.specs.Prelude.{◌≡◌, IfOk};
ghost use Rattle.tree_meaning.specs.Tree as tree;
ghost use Rattle.snel_values.specs.View.{view};
ghost use Rattle.query_tree.specs.View.{view as tree_view};
ghost use Rattle.eval_meaning.specs.Evaluation.{eval, evals};
ghost use Rattle.eval_row.specs.Sources.{pair_of};
ghost use Rattle.eval_row.specs.Known.{known_in, filled_by, exs_filled_by, arms_filled_by, filled_within};

use crate::known::KnownParts;
use crate::paths::value_at;
use eval_values::{
    between_of, binary, call_of, cast_of, extract_of, is_of, is_true, matching_of, member_of,
    negative, not_of, shift_of, trunc_of,
};
use query_tree::{Arms, Expr, Exprs, Operand};
use snel_values::{Items, OutOfMemory, Text, Value};
use std::alloc::Global;
use tree_meaning::{BinOp, CastTo, Func, How, IsWhat, Part};

/// The value of an expression on a row and an item, which is MISSING where the query has one source.
pub fn eval_row(
    alloc: Global,
    of: &Operand,
    row: &Value,
    item: &Value,
) -> Result<Value, OutOfMemory>
    ensures { IfOk result (λ v. view v ≡ eval of.now (pair_of row.now item.now)) }
{
    let exprs = Exprs::new(alloc);
    let values = Items::new(alloc);
    let known = KnownParts {
        keys: &exprs,
        key_values: &values,
        aggs: &exprs,
        agg_values: &values,
    };
    eval_known(alloc, of, &known, row, item)
}

/// The value of an expression of which the values of some parts are known: these stand in place of the outermost of these
/// parts, and what is left is evaluated on the row and the item. Each form has a function of its own, so that the frames of
/// a deep tree are small.
#[cycle(eval)]
pub fn eval_known(
    alloc: Global,
    of: &Operand,
    known: &KnownParts<'_>,
    row: &Value,
    item: &Value,
) -> Result<Value, OutOfMemory>
    ensures { IfOk result (λ v.
        view v ≡ eval (filled_by known.now of.now) (pair_of row.now item.now)) }
{
    match known.find(of) {
        Some(value) => value.copy(alloc),
        None => eval_form(alloc, of.get(), known, row, item),
    }
}

/// The value of an expression whose own value isn't known.
#[cycle(eval)]
fn eval_form(
    alloc: Global,
    of: &Expr,
    known: &KnownParts<'_>,
    row: &Value,
    item: &Value,
) -> Result<Value, OutOfMemory>
    ensures { IfOk result (λ v. view v ≡
        eval (filled_within (known_in known.now) (tree_view of.now)) (pair_of row.now item.now)) }
{
    match of {
        Expr::Lit(value) => value.copy(alloc),
        Expr::Path { row: 0, steps } => value_at(alloc, steps, row),
        Expr::Path { row: _, steps } => value_at(alloc, steps, item),
        Expr::Neg(of) => eval_neg(alloc, of, known, row, item),
        Expr::Not(of) => eval_not(alloc, of, known, row, item),
        Expr::Bin { op, left, right } => eval_bin(alloc, *op, left, right, known, row, item),
        Expr::Is { what, of } => eval_is(alloc, *what, of, known, row, item),
        Expr::In { of, list } => eval_in(alloc, of, list, known, row, item),
        Expr::Between { of, low, high } => eval_between(alloc, of, low, high, known, row, item),
        Expr::Match { how, of, text } => eval_match(alloc, *how, of, text, known, row, item),
        Expr::Case { arms, other } => eval_case(alloc, arms, other, known, row, item),
        Expr::Cast { of, to } => eval_cast(alloc, of, *to, known, row, item),
        Expr::Call { name, args } => eval_call(alloc, *name, args, known, row, item),
        Expr::Trunc { part, of } => eval_trunc(alloc, *part, of, known, row, item),
        Expr::Extract { part, of } => eval_extract(alloc, *part, of, known, row, item),
        Expr::Shift { part, count, of } => eval_shift(alloc, *part, count, of, known, row, item),
        Expr::Agg { .. } => Ok(Value::Missing),
    }
}

/// `-of`
#[cycle(eval)]
fn eval_neg(
    alloc: Global,
    of: &Operand,
    known: &KnownParts<'_>,
    row: &Value,
    item: &Value,
) -> Result<Value, OutOfMemory>
    ensures { IfOk result (λ v. view v ≡
        eval (tree.neg (filled_by known.now of.now)) (pair_of row.now item.now)) }
{
    let value = eval_known(alloc, of, known, row, item)?;
    Ok(negative(&value))
}

/// `NOT of`
#[cycle(eval)]
fn eval_not(
    alloc: Global,
    of: &Operand,
    known: &KnownParts<'_>,
    row: &Value,
    item: &Value,
) -> Result<Value, OutOfMemory>
    ensures { IfOk result (λ v. view v ≡
        eval (tree.no (filled_by known.now of.now)) (pair_of row.now item.now)) }
{
    let value = eval_known(alloc, of, known, row, item)?;
    Ok(not_of(&value))
}

/// `left op right`
#[cycle(eval)]
fn eval_bin(
    alloc: Global,
    op: BinOp,
    left: &Operand,
    right: &Operand,
    known: &KnownParts<'_>,
    row: &Value,
    item: &Value,
) -> Result<Value, OutOfMemory>
    ensures { IfOk result (λ v.
        view v ≡ eval (tree.bin op (filled_by known.now left.now) (filled_by known.now right.now))
        (pair_of row.now item.now)) }
{
    let a = eval_known(alloc, left, known, row, item)?;
    let b = eval_known(alloc, right, known, row, item)?;
    Ok(binary(op, &a, &b))
}

/// `of IS what`
#[cycle(eval)]
fn eval_is(
    alloc: Global,
    what: IsWhat,
    of: &Operand,
    known: &KnownParts<'_>,
    row: &Value,
    item: &Value,
) -> Result<Value, OutOfMemory>
    ensures { IfOk result (λ v. view v ≡
        eval (tree.is what (filled_by known.now of.now)) (pair_of row.now item.now)) }
{
    let value = eval_known(alloc, of, known, row, item)?;
    Ok(is_of(what, &value))
}

/// `of IN (list)`
#[cycle(eval)]
fn eval_in(
    alloc: Global,
    of: &Operand,
    list: &Exprs,
    known: &KnownParts<'_>,
    row: &Value,
    item: &Value,
) -> Result<Value, OutOfMemory>
    ensures { IfOk result (λ v. view v ≡
        eval (tree.member (filled_by known.now of.now)
        (exs_filled_by known.now (tree.exs list.now)))
        (pair_of row.now item.now)) }
{
    let value = eval_known(alloc, of, known, row, item)?;
    let members = eval_list(alloc, list, known, row, item)?;
    Ok(member_of(&value, members.as_slice()))
}

/// `of BETWEEN low AND high`
#[cycle(eval)]
fn eval_between(
    alloc: Global,
    of: &Operand,
    low: &Operand,
    high: &Operand,
    known: &KnownParts<'_>,
    row: &Value,
    item: &Value,
) -> Result<Value, OutOfMemory>
    ensures { IfOk result (λ v. view v ≡
        eval (tree.between (filled_by known.now of.now)
        (filled_by known.now low.now) (filled_by known.now high.now))
        (pair_of row.now item.now)) }
{
    let value = eval_known(alloc, of, known, row, item)?;
    let low = eval_known(alloc, low, known, row, item)?;
    let high = eval_known(alloc, high, known, row, item)?;
    Ok(between_of(&value, &low, &high))
}

/// A match of a text.
#[cycle(eval)]
fn eval_match(
    alloc: Global,
    how: How,
    of: &Operand,
    text: &Text,
    known: &KnownParts<'_>,
    row: &Value,
    item: &Value,
) -> Result<Value, OutOfMemory>
    ensures { IfOk result (λ v.
        view v ≡ eval (tree.matching how (filled_by known.now of.now) text.now)
        (pair_of row.now item.now)) }
{
    let value = eval_known(alloc, of, known, row, item)?;
    matching_of(alloc, how, text.as_str(), &value)
}

/// The value of the first arm whose test is true, else the other value.
#[cycle(eval)]
fn eval_case(
    alloc: Global,
    arms: &Arms,
    other: &Operand,
    known: &KnownParts<'_>,
    row: &Value,
    item: &Value,
) -> Result<Value, OutOfMemory>
    ensures { IfOk result (λ v. view v ≡
        eval (tree.choice (arms_filled_by known.now (tree.arms arms.now))
        (filled_by known.now other.now))
        (pair_of row.now item.now)) }
{
    for at in 0..arms.len() {
        let Some(arm) = arms.get(at) else {
            unreachable!();
        };
        let test = eval_known(alloc, &arm.test, known, row, item)?;
        if is_true(&test) {
            return eval_known(alloc, &arm.value, known, row, item);
        }
    }
    eval_known(alloc, other, known, row, item)
}

/// `CAST(of AS to)`
#[cycle(eval)]
fn eval_cast(
    alloc: Global,
    of: &Operand,
    to: CastTo,
    known: &KnownParts<'_>,
    row: &Value,
    item: &Value,
) -> Result<Value, OutOfMemory>
    ensures { IfOk result (λ v. view v ≡
        eval (tree.cast to (filled_by known.now of.now)) (pair_of row.now item.now)) }
{
    let value = eval_known(alloc, of, known, row, item)?;
    Ok(cast_of(to, &value))
}

/// A function of values.
#[cycle(eval)]
fn eval_call(
    alloc: Global,
    name: Func,
    args: &Exprs,
    known: &KnownParts<'_>,
    row: &Value,
    item: &Value,
) -> Result<Value, OutOfMemory>
    ensures { IfOk result (λ v.
        view v ≡ eval (tree.call name (exs_filled_by known.now (tree.exs args.now)))
        (pair_of row.now item.now)) }
{
    let values = eval_list(alloc, args, known, row, item)?;
    call_of(alloc, name, values.as_slice())
}

/// `DATE_TRUNC(part, of)`
#[cycle(eval)]
fn eval_trunc(
    alloc: Global,
    part: Part,
    of: &Operand,
    known: &KnownParts<'_>,
    row: &Value,
    item: &Value,
) -> Result<Value, OutOfMemory>
    ensures { IfOk result (λ v. view v ≡
        eval (tree.trunc part (filled_by known.now of.now)) (pair_of row.now item.now)) }
{
    let value = eval_known(alloc, of, known, row, item)?;
    Ok(trunc_of(part, &value))
}

/// `EXTRACT(part FROM of)`
#[cycle(eval)]
fn eval_extract(
    alloc: Global,
    part: Part,
    of: &Operand,
    known: &KnownParts<'_>,
    row: &Value,
    item: &Value,
) -> Result<Value, OutOfMemory>
    ensures { IfOk result (λ v.
        view v ≡ eval (tree.extract part (filled_by known.now of.now)) (pair_of row.now item.now)) }
{
    let value = eval_known(alloc, of, known, row, item)?;
    Ok(extract_of(part, &value))
}

/// `DATE_ADD(part, count, of)`
#[cycle(eval)]
fn eval_shift(
    alloc: Global,
    part: Part,
    count: &Operand,
    of: &Operand,
    known: &KnownParts<'_>,
    row: &Value,
    item: &Value,
) -> Result<Value, OutOfMemory>
    ensures { IfOk result (λ v.
        view v ≡ eval (tree.shift part (filled_by known.now count.now) (filled_by known.now of.now))
        (pair_of row.now item.now)) }
{
    let count = eval_known(alloc, count, known, row, item)?;
    let value = eval_known(alloc, of, known, row, item)?;
    Ok(shift_of(part, &count, &value))
}

/// The values of expressions, in order.
#[cycle(eval)]
fn eval_list(
    alloc: Global,
    list: &Exprs,
    known: &KnownParts<'_>,
    row: &Value,
    item: &Value,
) -> Result<Items, OutOfMemory>
    ensures { IfOk result (λ vs. vs ≡
        evals (exs_filled_by known.now (tree.exs list.now)) (pair_of row.now item.now)) }
{
    let mut values = Items::new(alloc);
    for at in 0..list.len() {
        let Some(of) = list.get(at) else {
            unreachable!();
        };
        values.push(eval_known(alloc, of, known, row, item)?)?;
    }
    Ok(values)
}
