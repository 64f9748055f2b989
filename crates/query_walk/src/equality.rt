ghost use Rattle.std.specs.Prelude.{◌≡◌, ◌↔◌, IsTrue};
ghost use Rattle.check_meaning.specs.Aggregates as aggs;

use crate::head::same_head;
use crate::operands::{item, operand, operand_count};
use query_tree::{Exprs, Operand};

/// Whether two expressions are equal.
pub fn same_expr(a: &Operand, b: &Operand) -> bool
    ensures { IsTrue result ↔ (a.now ≡ b.now) }
{
    let count = operand_count(a);
    if !same_head(a.get(), b.get()) || count != operand_count(b) {
        return false;
    }
    for at in 0..count {
        if !same_expr(operand(a, at), operand(b, at)) {
            return false;
        }
    }
    true
}

/// Whether the expression is equal to one of a list.
pub fn is_among(list: &Exprs, expr: &Operand) -> bool
    ensures { result ≡ aggs.is_among list.now expr.now }
{
    for at in 0..list.len() {
        if same_expr(expr, item(list, at)) {
            return true;
        }
    }
    false
}
