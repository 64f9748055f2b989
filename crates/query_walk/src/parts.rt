ghost use Rattle.std.specs.Prelude.{◌≡◌, [], ◌∷◌, OnOk, filter, fold};
ghost use Rattle.std.specs.List.{list_any};
ghost use Rattle.check_meaning.specs.Parts.{parts, parts_outside};
ghost use Rattle.check_meaning.specs.Aggregates as spec;
ghost use Rattle.check_meaning.specs.Tests as tests;
ghost use Rattle.query_walk.specs.Asked as of_asked;
ghost use Rattle.query_tree.specs.View.{view};

use crate::copies::copy_expr;
use crate::equality::is_among;
use crate::operands::{operand, operand_count};
use query_tree::{Expr, Exprs, Operand};
use snel_values::OutOfMemory;
use std::alloc::Global;
use tree_meaning::Func;

/// What is looked for among the parts of an expression.
#[derive(Clone, Copy)]
pub enum Asked {
    /// A path of too many steps.
    LongPath,
    /// An aggregate.
    Aggregate,
    /// A path outside group keys and aggregates.
    Path,
    /// A form that isn't computed over groups, outside group keys and aggregates.
    RowForm,
}

/// Whether what is looked for is among the parts of the expression.
pub fn has_part(asked: Asked, keys: &Exprs, expr: &Operand) -> bool
    ensures { result ≡ list_any (of_asked.is_meant asked)
        (parts_outside (of_asked.is_stop asked keys.now) expr.now) }
{
    if is_stop(asked, keys, expr) {
        return false;
    }
    if is_meant(asked, expr.get()) {
        return true;
    }
    for at in 0..operand_count(expr) {
        if has_part(asked, keys, operand(expr, at)) {
            return true;
        }
    }
    false
}

/// Whether an aggregate with an aggregate in it is among the parts of the expression.
pub fn has_doubled(keys: &Exprs, expr: &Operand) -> bool
    ensures { result ≡ list_any tests.is_doubled (parts expr.now) }
{
    if is_doubled(keys, expr.get()) {
        return true;
    }
    for at in 0..operand_count(expr) {
        if has_doubled(keys, operand(expr, at)) {
            return true;
        }
    }
    false
}

/// Adds the aggregates among the parts of the expression, each that isn't there yet.
pub fn gather(alloc: Global, expr: &Operand, found: &mut Exprs) -> Result<(), OutOfMemory>
    ensures { OnOk result (found.new ≡
        fold spec.with_new found.old (filter spec.is_aggregate (parts expr.now))) }
{
    add_aggregate(alloc, expr, found)?;
    for at in 0..operand_count(expr) {
        gather(alloc, operand(expr, at), found)?;
    }
    Ok(())
}

/// Whether neither the expression nor what stands in it is looked at.
fn is_stop(asked: Asked, keys: &Exprs, expr: &Operand) -> bool
    ensures { result ≡ of_asked.is_stop asked keys.now expr.now }
{
    match asked {
        Asked::LongPath => false,
        Asked::Aggregate => false,
        Asked::Path => is_aggregate(expr.get()) || is_among(keys, expr),
        Asked::RowForm => is_aggregate(expr.get()) || is_among(keys, expr),
    }
}

/// Whether the expression is what is looked for.
fn is_meant(asked: Asked, expr: &Expr) -> bool
    ensures { result ≡ of_asked.is_meant asked (view expr.now) }
{
    match asked {
        Asked::LongPath => is_long(expr),
        Asked::Aggregate => is_aggregate(expr),
        Asked::Path => matches!(expr, Expr::Path { .. }),
        Asked::RowForm => is_row_form(expr),
    }
}

/// Whether the expression is an aggregate.
fn is_aggregate(expr: &Expr) -> bool
    ensures { result ≡ spec.is_aggregate (view expr.now) }
{
    match expr {
        Expr::Agg { name: _, of: None } => true,
        Expr::Agg {
            name: _,
            of: Some(_),
        } => true,
        _ => false,
    }
}

/// Whether the expression is a path of too many steps.
fn is_long(expr: &Expr) -> bool
    ensures { result ≡ tests.is_long (view expr.now) }
{
    match expr {
        Expr::Path { row: _, steps } => steps.len() > 16,
        _ => false,
    }
}

/// Whether the form of the expression isn't computed over groups.
fn is_row_form(expr: &Expr) -> bool
    ensures { result ≡ tests.is_row_form (view expr.now) }
{
    match expr {
        Expr::Cast { .. } => true,
        Expr::Match { .. } => true,
        Expr::Call { name, args: _ } => is_row_function(*name),
        Expr::Trunc { .. } => true,
        Expr::Extract { .. } => true,
        Expr::Shift { .. } => true,
        _ => false,
    }
}

/// Whether the function is one of times or of a text's length.
fn is_row_function(name: Func) -> bool
    ensures { result ≡ tests.is_row_function name }
{
    match name {
        Func::Coalesce | Func::NullIf => false,
        Func::CharLength | Func::UnixEpoch | Func::UnixMicro => true,
    }
}

/// Whether an aggregate stands in the expression of this aggregate.
fn is_doubled(keys: &Exprs, expr: &Expr) -> bool
    ensures { result ≡ tests.is_doubled (view expr.now) }
{
    match expr {
        Expr::Agg {
            name: _,
            of: Some(of),
        } => has_part(Asked::Aggregate, keys, of),
        _ => false,
    }
}

/// Adds the expression if it is an aggregate, unless it is there.
fn add_aggregate(alloc: Global, expr: &Operand, found: &mut Exprs) -> Result<(), OutOfMemory>
    ensures { OnOk result (found.new ≡
        fold spec.with_new found.old (filter spec.is_aggregate (expr.now ∷ []))) }
{
    if is_aggregate(expr.get()) {
        add_new(alloc, expr, found)
    } else {
        Ok(())
    }
}

/// Adds the expression, unless it is there.
fn add_new(alloc: Global, expr: &Operand, found: &mut Exprs) -> Result<(), OutOfMemory>
    ensures { OnOk result (found.new ≡ spec.with_new found.old expr.now) }
{
    if is_among(found, expr) {
        return Ok(());
    }
    found.push(copy_expr(alloc, expr)?)?;
    Ok(())
}
