ghost use Rattle.std.specs.Prelude.{◌≡◌, IfOk};
ghost use Rattle.snel_values.specs.View.{view, views};
ghost use Rattle.eval_meaning.specs.Logic as logic_spec;
ghost use Rattle.eval_meaning.specs.Evaluation as spec;

use crate::comparing::{compare, null_if};
use crate::logic::{and_of, first_of, or_of};
use crate::matching::char_length;
use crate::numbers::arithmetic;
use crate::times::{unix_epoch, unix_micro};
use snel_values::{OutOfMemory, Value};
use std::alloc::Global;
use tree_meaning::{BinOp, Func};

/// `a op b`
pub fn binary(op: BinOp, a: &Value, b: &Value) -> Value
    ensures { view result ≡ spec.binary op (view a.now) (view b.now) }
{
    match op {
        BinOp::Add | BinOp::Sub | BinOp::Mul | BinOp::Div | BinOp::Rem => arithmetic(op, a, b),
        BinOp::And => and_of(a, b),
        BinOp::Or => or_of(a, b),
        _ => compare(op, a, b),
    }
}

/// A function of values.
pub fn call_of(alloc: Global, name: Func, values: &[Value]) -> Result<Value, OutOfMemory>
    ensures { IfOk result (λ v. view v ≡ spec.call_of name (views values.now)) }
{
    match (name, values) {
        (Func::Coalesce, _) => coalesce(alloc, values),
        (Func::NullIf, [a, b]) => Ok(null_if(a.copy(alloc)?, b)),
        (Func::CharLength, [a]) => char_length(alloc, a),
        (Func::UnixEpoch, [a]) => Ok(unix_epoch(a)),
        (Func::UnixMicro, [a]) => Ok(unix_micro(a)),
        _ => Ok(Value::Missing),
    }
}

/// COALESCE of values.
fn coalesce(alloc: Global, values: &[Value]) -> Result<Value, OutOfMemory>
    ensures { IfOk result (λ v. view v ≡ logic_spec.coalesce (views values.now)) }
{
    match values {
        [] => Ok(Value::Missing),
        [first, rest @ ..] => {
            let first = first.copy(alloc)?;
            let later = coalesce(alloc, rest)?;
            Ok(first_of(first, later))
        }
    }
}
