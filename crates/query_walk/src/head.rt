ghost use Rattle.std.specs.Prelude.{◌≡◌, ◌↔◌, IsTrue, map};
ghost use Rattle.std.specs.Option.{option_map};
ghost use Rattle.query_walk.specs.Heads.{kind_of, detail_of, steps_of, text_of, value_of, SameHead};
ghost use Rattle.snel_values.specs.View.{view as value_view};
ghost use Rattle.query_tree.specs.View.{view, step_view};

use query_tree::Expr;
use snel_values::{Step, Steps, Value, same};
use tree_meaning::{AggName, BinOp, CastTo, Func, How, IsWhat, Part};

/// The form of an expression.
#[derive(Clone, Copy, PartialEq)]
pub(crate) enum Kind {
    Lit,
    Path,
    Neg,
    Not,
    Bin,
    Is,
    In,
    Between,
    Match,
    Case,
    Cast,
    Call,
    Trunc,
    Extract,
    Shift,
    /// COUNT(*), an aggregate without an operand.
    AggOfRows,
    Agg,
}

/// What an expression names: a row, an operator, a function, a part of a time or an aggregate.
#[derive(Clone, Copy, PartialEq)]
pub(crate) enum Detail {
    Nothing,
    Row(u8),
    Op(BinOp),
    What(IsWhat),
    How(How),
    To(CastTo),
    Func(Func),
    Part(Part),
    Agg(AggName),
}

/// Whether two expressions are equal apart from the expressions within them.
pub(crate) fn same_head(a: &Expr, b: &Expr) -> bool
    ensures { IsTrue result ↔ SameHead (view a.now) (view b.now) }
{
    has_same_kind(a, b)
        && has_same_detail(a, b)
        && text(a) == text(b)
        && has_same_steps(a, b)
        && has_same_value(a, b)
}

fn has_same_kind(a: &Expr, b: &Expr) -> bool
    ensures { IsTrue result ↔ (kind_of (view a.now) ≡ kind_of (view b.now)) }
{
    kind_of(a) == kind_of(b)
}

fn has_same_detail(a: &Expr, b: &Expr) -> bool
    ensures { IsTrue result ↔ (detail_of (view a.now) ≡ detail_of (view b.now)) }
{
    detail_of(a) == detail_of(b)
}

fn has_same_steps(a: &Expr, b: &Expr) -> bool
    ensures { IsTrue result ↔ (steps_of (view a.now) ≡ steps_of (view b.now)) }
{
    match (steps(a), steps(b)) {
        (Some(x), Some(y)) => same_steps(x, y),
        (None, None) => true,
        _ => false,
    }
}

fn has_same_value(a: &Expr, b: &Expr) -> bool
    ensures { IsTrue result ↔ (value_of (view a.now) ≡ value_of (view b.now)) }
{
    match (value(a), value(b)) {
        (Some(x), Some(y)) => same(x, y),
        (None, None) => true,
        _ => false,
    }
}

fn kind_of(expr: &Expr) -> Kind
    ensures { result ≡ kind_of (view expr.now) }
{
    match expr {
        Expr::Lit(_) => Kind::Lit,
        Expr::Path { .. } => Kind::Path,
        Expr::Neg(_) => Kind::Neg,
        Expr::Not(_) => Kind::Not,
        Expr::Bin { .. } => Kind::Bin,
        Expr::Is { .. } => Kind::Is,
        Expr::In { .. } => Kind::In,
        Expr::Between { .. } => Kind::Between,
        Expr::Match { .. } => Kind::Match,
        Expr::Case { .. } => Kind::Case,
        Expr::Cast { .. } => Kind::Cast,
        Expr::Call { .. } => Kind::Call,
        Expr::Trunc { .. } => Kind::Trunc,
        Expr::Extract { .. } => Kind::Extract,
        Expr::Shift { .. } => Kind::Shift,
        Expr::Agg { name: _, of: None } => Kind::AggOfRows,
        Expr::Agg {
            name: _,
            of: Some(_),
        } => Kind::Agg,
    }
}

fn detail_of(expr: &Expr) -> Detail
    ensures { result ≡ detail_of (view expr.now) }
{
    match expr {
        Expr::Path { row, steps: _ } => Detail::Row(*row),
        Expr::Bin { op, .. } => Detail::Op(*op),
        Expr::Is { what, of: _ } => Detail::What(*what),
        Expr::Match { how, .. } => Detail::How(*how),
        Expr::Cast { of: _, to } => Detail::To(*to),
        Expr::Call { name, args: _ } => Detail::Func(*name),
        Expr::Trunc { part, of: _ } => Detail::Part(*part),
        Expr::Extract { part, of: _ } => Detail::Part(*part),
        Expr::Shift { part, .. } => Detail::Part(*part),
        Expr::Agg { name, of: None } => Detail::Agg(*name),
        Expr::Agg { name, of: Some(_) } => Detail::Agg(*name),
        _ => Detail::Nothing,
    }
}

/// The steps of a path.
fn steps(expr: &Expr) -> Option<&Steps>
    ensures { option_map (λ s. map step_view s.now) result ≡ steps_of (view expr.now) }
{
    match expr {
        Expr::Path { row: _, steps } => Some(steps),
        _ => None,
    }
}

/// The text that a matching looks for.
fn text(expr: &Expr) -> &str
    ensures { result.now ≡ text_of (view expr.now) }
{
    match expr {
        Expr::Match { text, .. } => text.as_str(),
        _ => "",
    }
}

/// The value of a literal.
fn value(expr: &Expr) -> Option<&Value>
    ensures { option_map (λ v. value_view v.now) result ≡ value_of (view expr.now) }
{
    match expr {
        Expr::Lit(value) => Some(value),
        _ => None,
    }
}

/// Whether two lists of steps are equal.
fn same_steps(a: &Steps, b: &Steps) -> bool
    ensures { IsTrue result ↔ (map step_view a.now ≡ map step_view b.now) }
{
    if a.len() != b.len() {
        return false;
    }
    for at in 0..a.len() {
        let Some(x) = a.get(at) else { return false };
        let Some(y) = b.get(at) else { return false };
        if !same_step(x, y) {
            return false;
        }
    }
    true
}

/// Whether two steps are equal.
fn same_step(a: &Step, b: &Step) -> bool
    ensures { IsTrue result ↔ (step_view a.now ≡ step_view b.now) }
{
    match (a, b) {
        (Step::Name(x), Step::Name(y)) => x.as_str() == y.as_str(),
        (Step::At(x), Step::At(y)) => *x == *y,
        _ => false,
    }
}
