ghost use Rattle.std.specs.Prelude.{◌≡◌, IfOk, map};
ghost use Rattle.query_meaning.specs.RowName as spec;
ghost use Rattle.tree_meaning.specs.Tree as tree;
ghost use Rattle.snel_values.specs.View.{view as value_view};
ghost use Rattle.query_tree.specs.View.{step_view};

use crate::paths::short_steps;
use query_tree::{Arm, Arms, Expr, Exprs, Operand};
use snel_values::{OutOfMemory, Steps, Text, Value};
use sql_forms::{
    between, binary, cast, choice, denials, is, literal, matching, member, negs, nots, signs,
};
use std::alloc::Global;
use tree_meaning::{AggName, BinOp, CastTo, Func, How, IsWhat, Part};

/// The same expression, its paths without the row's name. Each form has a function of its own, so
/// that the frames of a deep tree are small.
#[cycle(short)]
pub(crate) fn short(alloc: Global, row: &str, of: &Operand) -> Result<Operand, OutOfMemory>
    ensures { IfOk result (λ e. e ≡ spec.short row.now of.now) }
{
    match of.get() {
        Expr::Lit(value) => same_literal(alloc, value),
        Expr::Path { row: from, steps } => short_path(alloc, row, *from, steps),
        Expr::Neg(of) => short_neg(alloc, row, of),
        Expr::Not(of) => short_not(alloc, row, of),
        Expr::Bin { op, left, right } => short_bin(alloc, row, *op, left, right),
        Expr::Is { what, of } => short_is(alloc, row, *what, of),
        Expr::In { of, list } => short_in(alloc, row, of, list),
        Expr::Between { of, low, high } => short_between(alloc, row, of, low, high),
        Expr::Match { how, of, text } => short_match(alloc, row, *how, of, text),
        Expr::Case { arms, other } => short_case(alloc, row, arms, other),
        Expr::Cast { of, to } => short_cast(alloc, row, of, *to),
        Expr::Call { name, args } => short_call(alloc, row, *name, args),
        Expr::Trunc { part, of } => short_trunc(alloc, row, *part, of),
        Expr::Extract { part, of } => short_extract(alloc, row, *part, of),
        Expr::Shift { part, count, of } => short_shift(alloc, row, *part, count, of),
        Expr::Agg { name, of: None } => aggregate_of_rows(alloc, *name),
        Expr::Agg { name, of: Some(of) } => short_agg(alloc, row, *name, of),
    }
}

/// The same literal.
fn same_literal(alloc: Global, value: &Value) -> Result<Operand, OutOfMemory>
    ensures { IfOk result (λ e. e ≡ tree.lit (value_view value.now)) }
{
    literal(alloc, value.copy(alloc)?)
}

/// The same path, without the row's name.
fn short_path(alloc: Global, row: &str, from: u8, steps: &Steps) -> Result<Operand, OutOfMemory>
    ensures { let path = tree.path from (map step_view steps.now) in
        IfOk result (λ e. e ≡ spec.short row.now path) }
{
    let steps = short_steps(alloc, row, steps)?;
    Operand::new(alloc, Expr::Path { row: from, steps })
}

/// An aggregate of all rows.
fn aggregate_of_rows(alloc: Global, name: AggName) -> Result<Operand, OutOfMemory>
    ensures { IfOk result (λ e. e ≡ tree.agg_of_rows name) }
{
    Operand::new(alloc, Expr::Agg { name, of: None })
}

/// A minus sign before an operand. The signs that follow it are counted.
#[cycle(short)]
fn short_neg(alloc: Global, row: &str, of: &Operand) -> Result<Operand, OutOfMemory>
    ensures { IfOk result (λ e. e ≡ tree.neg (spec.short row.now of.now)) }
{
    let (count, below) = signs(of, 4_096);
    let short = short(alloc, row, below)?;
    let inner = negs(alloc, count, short)?;
    let all = Operand::new(alloc, Expr::Neg(inner))?;
    Ok(all)
}

/// NOT before an operand. The NOTs that follow it are counted.
#[cycle(short)]
fn short_not(alloc: Global, row: &str, of: &Operand) -> Result<Operand, OutOfMemory>
    ensures { IfOk result (λ e. e ≡ tree.no (spec.short row.now of.now)) }
{
    let (count, below) = denials(of, 4_096);
    let short = short(alloc, row, below)?;
    let inner = nots(alloc, count, short)?;
    let all = Operand::new(alloc, Expr::Not(inner))?;
    Ok(all)
}

/// `left op right`
#[cycle(short)]
fn short_bin(
    alloc: Global,
    row: &str,
    op: BinOp,
    left: &Operand,
    right: &Operand,
) -> Result<Operand, OutOfMemory>
    ensures { let short = spec.short row.now in
        IfOk result (λ e. e ≡ tree.bin op (short left.now) (short right.now)) }
{
    let left = short(alloc, row, left)?;
    let right = short(alloc, row, right)?;
    binary(alloc, op, left, right)
}

/// `of IS what`
#[cycle(short)]
fn short_is(alloc: Global, row: &str, what: IsWhat, of: &Operand) -> Result<Operand, OutOfMemory>
    ensures { IfOk result (λ e. e ≡ tree.is what (spec.short row.now of.now)) }
{
    let of = short(alloc, row, of)?;
    is(alloc, what, of)
}

/// `of IN (list)`
#[cycle(short)]
fn short_in(alloc: Global, row: &str, of: &Operand, list: &Exprs) -> Result<Operand, OutOfMemory>
    ensures { let list = spec.short_exs row.now (tree.exs list.now) in
        IfOk result (λ e. e ≡ tree.member (spec.short row.now of.now) list) }
{
    let of = short(alloc, row, of)?;
    let list = short_exprs(alloc, row, list)?;
    member(alloc, of, list)
}

/// `of BETWEEN low AND high`
#[cycle(short)]
fn short_between(
    alloc: Global,
    row: &str,
    of: &Operand,
    low: &Operand,
    high: &Operand,
) -> Result<Operand, OutOfMemory>
    ensures { let short = spec.short row.now in
        IfOk result (λ e. e ≡ tree.between (short of.now) (short low.now) (short high.now)) }
{
    let of = short(alloc, row, of)?;
    let low = short(alloc, row, low)?;
    let high = short(alloc, row, high)?;
    between(alloc, of, low, high)
}

/// A text that is matched with a text.
#[cycle(short)]
fn short_match(
    alloc: Global,
    row: &str,
    how: How,
    of: &Operand,
    text: &Text,
) -> Result<Operand, OutOfMemory>
    ensures { IfOk result (λ e. e ≡ tree.matching how (spec.short row.now of.now) text.now) }
{
    let of = short(alloc, row, of)?;
    let text = text.copy(alloc)?;
    matching(alloc, how, of, text)
}

/// `CASE .. ELSE other END`
#[cycle(short)]
fn short_case(
    alloc: Global,
    row: &str,
    arms: &Arms,
    other: &Operand,
) -> Result<Operand, OutOfMemory>
    ensures { let arms = spec.short_arms row.now (tree.arms arms.now) in
        IfOk result (λ e. e ≡ tree.choice arms (spec.short row.now other.now)) }
{
    let arms = short_arms(alloc, row, arms)?;
    let other = short(alloc, row, other)?;
    choice(alloc, arms, other)
}

/// `CAST(of AS to)`
#[cycle(short)]
fn short_cast(alloc: Global, row: &str, of: &Operand, to: CastTo) -> Result<Operand, OutOfMemory>
    ensures { IfOk result (λ e. e ≡ tree.cast to (spec.short row.now of.now)) }
{
    let of = short(alloc, row, of)?;
    cast(alloc, of, to)
}

/// A call of a function of values.
#[cycle(short)]
fn short_call(alloc: Global, row: &str, name: Func, args: &Exprs) -> Result<Operand, OutOfMemory>
    ensures { let args = spec.short_exs row.now (tree.exs args.now) in
        IfOk result (λ e. e ≡ tree.call name args) }
{
    let args = short_exprs(alloc, row, args)?;
    Operand::new(alloc, Expr::Call { name, args })
}

/// `DATE_TRUNC(part, of)`
#[cycle(short)]
fn short_trunc(alloc: Global, row: &str, part: Part, of: &Operand) -> Result<Operand, OutOfMemory>
    ensures { IfOk result (λ e. e ≡ tree.trunc part (spec.short row.now of.now)) }
{
    let of = short(alloc, row, of)?;
    Operand::new(alloc, Expr::Trunc { part, of })
}

/// `EXTRACT(part FROM of)`
#[cycle(short)]
fn short_extract(alloc: Global, row: &str, part: Part, of: &Operand) -> Result<Operand, OutOfMemory>
    ensures { IfOk result (λ e. e ≡ tree.extract part (spec.short row.now of.now)) }
{
    let of = short(alloc, row, of)?;
    Operand::new(alloc, Expr::Extract { part, of })
}

/// `DATE_ADD(part, count, of)`
#[cycle(short)]
fn short_shift(
    alloc: Global,
    row: &str,
    part: Part,
    count: &Operand,
    of: &Operand,
) -> Result<Operand, OutOfMemory>
    ensures { let short = spec.short row.now in
        IfOk result (λ e. e ≡ tree.shift part (short count.now) (short of.now)) }
{
    let count = short(alloc, row, count)?;
    let of = short(alloc, row, of)?;
    Operand::new(alloc, Expr::Shift { part, count, of })
}

/// An aggregate of an operand.
#[cycle(short)]
fn short_agg(alloc: Global, row: &str, name: AggName, of: &Operand) -> Result<Operand, OutOfMemory>
    ensures { IfOk result (λ e. e ≡ tree.agg name (spec.short row.now of.now)) }
{
    let of = Some(short(alloc, row, of)?);
    Operand::new(alloc, Expr::Agg { name, of })
}

/// The same expressions, their paths without the row's name.
#[cycle(short)]
pub(crate) fn short_exprs(alloc: Global, row: &str, list: &Exprs) -> Result<Exprs, OutOfMemory>
    ensures items { IfOk result (λ es. es ≡ map (spec.short row.now) list.now) }
    ensures tree { IfOk result (λ es. tree.exs es ≡ spec.short_exs row.now (tree.exs list.now)) }
{
    let mut all = Exprs::new(alloc);
    for at in 0..list.len() {
        let Some(one) = list.get(at) else {
            unreachable!();
        };
        let short = short(alloc, row, one)?;
        all.push(short)?;
    }
    Ok(all)
}

/// The same arms, their paths without the row's name.
#[cycle(short)]
fn short_arms(alloc: Global, row: &str, list: &Arms) -> Result<Arms, OutOfMemory>
    ensures { IfOk result (λ rs. tree.arms rs ≡ spec.short_arms row.now (tree.arms list.now)) }
{
    let mut all = Arms::new(alloc);
    for at in 0..list.len() {
        let Some(arm) = list.get(at) else {
            unreachable!();
        };
        let test = short(alloc, row, &arm.test)?;
        let value = short(alloc, row, &arm.value)?;
        all.push(Arm { test, value })?;
    }
    Ok(all)
}
