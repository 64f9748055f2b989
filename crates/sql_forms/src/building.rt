ghost use Rattle.std.specs.Prelude.{◌≡◌, IfOk};
ghost use Rattle.query_meaning.specs.Reading.{times};
ghost use Rattle.tree_meaning.specs.Tree as tree;
ghost use Rattle.snel_values.specs.View.{view as value_view};

use query_tree::{Arms, Expr, Exprs, Operand};
use snel_values::{OutOfMemory, Text, Value};
use std::alloc::Global;
use tree_meaning::{BinOp, CastTo, How, IsWhat};

/// NOT so many times.
pub fn nots(alloc: Global, count: usize, of: Operand) -> Result<Operand, OutOfMemory>
    ensures { IfOk result (λ e. e ≡ times tree.no count of) }
{
    let mut all = of;
    for _turn in 0..count {
        all = Operand::new(alloc, Expr::Not(all))?;
    }
    Ok(all)
}

/// A minus sign so many times.
pub fn negs(alloc: Global, count: usize, of: Operand) -> Result<Operand, OutOfMemory>
    ensures { IfOk result (λ e. e ≡ times tree.neg count of) }
{
    let mut all = of;
    for _turn in 0..count {
        all = Operand::new(alloc, Expr::Neg(all))?;
    }
    Ok(all)
}

/// A literal.
pub fn literal(alloc: Global, value: Value) -> Result<Operand, OutOfMemory>
    ensures { IfOk result (λ e. e ≡ tree.lit (value_view value)) }
{
    Operand::new(alloc, Expr::Lit(value))
}

/// `NOT of`
pub fn not(alloc: Global, of: Operand) -> Result<Operand, OutOfMemory>
    ensures { IfOk result (λ e. e ≡ tree.no of) }
{
    Operand::new(alloc, Expr::Not(of))
}

/// `left op right`
pub fn binary(
    alloc: Global,
    op: BinOp,
    left: Operand,
    right: Operand,
) -> Result<Operand, OutOfMemory>
    ensures { IfOk result (λ e. e ≡ tree.bin op left right) }
{
    Operand::new(alloc, Expr::Bin { op, left, right })
}

/// `of IS what`
pub fn is(alloc: Global, what: IsWhat, of: Operand) -> Result<Operand, OutOfMemory>
    ensures { IfOk result (λ e. e ≡ tree.is what of) }
{
    Operand::new(alloc, Expr::Is { what, of })
}

/// `of IN (list)`
pub fn member(alloc: Global, of: Operand, list: Exprs) -> Result<Operand, OutOfMemory>
    ensures { IfOk result (λ e. e ≡ tree.member of (tree.exs list)) }
{
    Operand::new(alloc, Expr::In { of, list })
}

/// `of BETWEEN low AND high`
pub fn between(
    alloc: Global,
    of: Operand,
    low: Operand,
    high: Operand,
) -> Result<Operand, OutOfMemory>
    ensures { IfOk result (λ e. e ≡ tree.between of low high) }
{
    Operand::new(alloc, Expr::Between { of, low, high })
}

/// A text that is matched with a text.
pub fn matching(alloc: Global, how: How, of: Operand, text: Text) -> Result<Operand, OutOfMemory>
    ensures { IfOk result (λ e. e ≡ tree.matching how of text) }
{
    Operand::new(alloc, Expr::Match { how, of, text })
}

/// `CASE .. ELSE other END`
pub fn choice(alloc: Global, arms: Arms, other: Operand) -> Result<Operand, OutOfMemory>
    ensures { IfOk result (λ e. e ≡ tree.choice (tree.arms arms) other) }
{
    Operand::new(alloc, Expr::Case { arms, other })
}

/// `CAST(of AS to)`
pub fn cast(alloc: Global, of: Operand, to: CastTo) -> Result<Operand, OutOfMemory>
    ensures { IfOk result (λ e. e ≡ tree.cast to of) }
{
    Operand::new(alloc, Expr::Cast { of, to })
}
