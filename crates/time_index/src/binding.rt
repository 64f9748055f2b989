ghost use Rattle.std.specs.Prelude.{◌≡◌, map};
ghost use Rattle.std.specs.Option.{option_map};
ghost use Rattle.query_tree.specs.View.{view, step_view};
ghost use Rattle.tree_meaning.specs.Tree as tree;
ghost use Rattle.range_meaning.specs.Intervals as intervals;
ghost use Rattle.range_meaning.specs.Binding as binding;
ghost use Rattle.time_index.specs.Ands.{and_operands};

use query_tree::{Expr, Operand};
use range_meaning::Bounds;
use snel_values::{Step, Steps, Value};
use tree_meaning::BinOp;

// No number lies in it.
const NOTHING: Bounds = Bounds::Between {
    low: i64::MAX,
    high: i64::MIN,
};

/// The times that a WHERE leaves of the indexed field, whose name is empty where no field is indexed: the meet of what its
/// conjuncts leave. A conjunct binds the field where it is a comparison by `=`, `<`, `<=`, `>` or `>=` of the path of that
/// one name with a moment, in either order, or a BETWEEN of that path and two moments. It takes no memory.
pub fn bounds(filter: &Expr, field: &str) -> Bounds
    ensures { result ≡ binding.bounds field.now (view filter.now) }
{
    if field.is_empty() {
        Bounds::All
    } else {
        narrowed(filter, field, Bounds::All)
    }
}

// What the conjuncts leave of the bounds. A chain of ANDs nests to the left, so the walk goes down there.
fn narrowed(filter: &Expr, field: &str, others: Bounds) -> Bounds
    ensures { result ≡ intervals.meet
        (binding.bounds_of_all field.now (binding.conjuncts (view filter.now))) others }
{
    let mut rest = filter;
    let mut left_over = others;
    while let Some((left, right)) = and_operands(rest) {
        left_over = narrowed(right.get(), field, left_over);
        rest = left.get();
    }
    meet(bounds_of(rest, field), left_over)
}

// The operands of an AND.
fn and_operands(expr: &Expr) -> Option<(&Operand, &Operand)>
    ensures { option_map (λ p. (p.0.now, p.1.now)) result ≡ and_operands (view expr.now) }
{
    match expr {
        Expr::Bin {
            op: BinOp::And,
            left,
            right,
        } => Some((left, right)),
        _ => None,
    }
}

fn meet(first: Bounds, second: Bounds) -> Bounds
    ensures { result ≡ intervals.meet first second }
{
    match (first, second) {
        (Bounds::All, _) => second,
        (_, Bounds::All) => first,
        (Bounds::Between { low, high }, Bounds::Between { low: l, high: h }) => Bounds::Between {
            low: low.max(l),
            high: high.min(h),
        },
    }
}

// The bounds that a conjunct leaves.
fn bounds_of(conjunct: &Expr, field: &str) -> Bounds
    ensures { result ≡ binding.bounds_of field.now (view conjunct.now) }
{
    match conjunct {
        Expr::Bin { op, left, right } => of_comparison(*op, left.get(), right.get(), field),
        Expr::Between { of, low, high } => {
            if is_field(of.get(), field) {
                within(moment_of(low.get()), moment_of(high.get()))
            } else {
                Bounds::All
            }
        }
        _ => Bounds::All,
    }
}

fn of_comparison(op: BinOp, left: &Expr, right: &Expr, field: &str) -> Bounds
    ensures { result ≡ binding.bounds_of field.now (tree.bin op (view left.now) (view right.now)) }
{
    if is_field(left, field) {
        against(op, moment_of(right))
    } else if is_field(right, field) {
        against(mirrored(op), moment_of(left))
    } else {
        Bounds::All
    }
}

fn against(op: BinOp, moment: Option<i64>) -> Bounds
    ensures { result ≡ binding.against op moment }
{
    match moment {
        Some(time) => interval(op, time),
        None => Bounds::All,
    }
}

fn within(low: Option<i64>, high: Option<i64>) -> Bounds
    ensures { result ≡ binding.within low high }
{
    match (low, high) {
        (Some(low), Some(high)) => Bounds::Between { low, high },
        _ => Bounds::All,
    }
}

// The numbers that stand so to the number.
fn interval(op: BinOp, time: i64) -> Bounds
    ensures { result ≡ intervals.interval op time }
{
    match op {
        BinOp::Eq => Bounds::Between {
            low: time,
            high: time,
        },
        BinOp::Lt => below(time),
        BinOp::Le => Bounds::Between {
            low: i64::MIN,
            high: time,
        },
        BinOp::Gt => above(time),
        BinOp::Ge => Bounds::Between {
            low: time,
            high: i64::MAX,
        },
        _ => Bounds::All,
    }
}

fn below(time: i64) -> Bounds
    ensures { result ≡ intervals.below time }
{
    if time == i64::MIN {
        NOTHING
    } else {
        Bounds::Between {
            low: i64::MIN,
            high: time - 1,
        }
    }
}

fn above(time: i64) -> Bounds
    ensures { result ≡ intervals.above time }
{
    if time == i64::MAX {
        NOTHING
    } else {
        Bounds::Between {
            low: time + 1,
            high: i64::MAX,
        }
    }
}

// The comparison with its operands exchanged.
fn mirrored(op: BinOp) -> BinOp
    ensures { result ≡ binding.mirrored op }
{
    match op {
        BinOp::Lt => BinOp::Gt,
        BinOp::Le => BinOp::Ge,
        BinOp::Gt => BinOp::Lt,
        BinOp::Ge => BinOp::Le,
        _ => op,
    }
}

// The path of the field's name alone.
fn is_field(expr: &Expr, field: &str) -> bool
    ensures { result ≡ binding.is_field field.now (view expr.now) }
{
    match expr {
        Expr::Path { row: 0, steps } => is_name(steps, field),
        _ => false,
    }
}

fn is_name(steps: &Steps, field: &str) -> bool
    ensures { result ≡ binding.is_name field.now (map step_view steps.now) }
{
    match steps.get(0) {
        Some(Step::Name(name)) => steps.len() == 1 && name.as_str() == field,
        Some(Step::At(_)) => false,
        None => false,
    }
}

fn moment_of(expr: &Expr) -> Option<i64>
    ensures { result ≡ binding.moment_of (view expr.now) }
{
    match expr {
        Expr::Lit(Value::Time(time)) => Some(*time),
        _ => None,
    }
}
