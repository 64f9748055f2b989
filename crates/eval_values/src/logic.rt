ghost use Rattle.std.specs.Prelude.{◌≡◌};
ghost use Rattle.snel_values.specs.View.{view};
ghost use Rattle.eval_meaning.specs.Logic as spec;
ghost use Rattle.eval_values.specs.Logic.{logic_view};

use snel_values::Value;
use tree_meaning::IsWhat;

/// What AND, OR and NOT read of a value.
#[derive(Clone, Copy)]
enum Logic {
    Holds,
    Fails,
    Unknown,
    Other,
}

/// `NOT a`
pub fn not_of(a: &Value) -> Value
    ensures { view result ≡ spec.not_of (view a.now) }
{
    match logic_of(a) {
        Logic::Holds => Value::Bool(false),
        Logic::Fails => Value::Bool(true),
        Logic::Unknown => Value::Null,
        Logic::Other => Value::Missing,
    }
}

/// `value IS what`
pub fn is_of(what: IsWhat, value: &Value) -> Value
    ensures { view result ≡ spec.is_of what (view value.now) }
{
    Value::Bool(match what {
        IsWhat::Null => is_null(value),
        IsWhat::Missing => is_missing(value),
        IsWhat::True => is_true(value),
        IsWhat::False => is_false(value),
    })
}

/// Whether the value is true.
pub fn is_true(value: &Value) -> bool
    ensures { result ≡ spec.is_true (view value.now) }
{
    matches!(value, Value::Bool(true))
}

/// `a AND b`
pub(crate) fn and_of(a: &Value, b: &Value) -> Value
    ensures { view result ≡ spec.and_of (view a.now) (view b.now) }
{
    match (logic_of(a), logic_of(b)) {
        (Logic::Fails, _) | (_, Logic::Fails) => Value::Bool(false),
        (Logic::Holds, later) => of_logic(later),
        (first, Logic::Holds) => of_logic(first),
        (Logic::Unknown, Logic::Unknown) => Value::Null,
        _ => Value::Missing,
    }
}

/// `a OR b`
pub(crate) fn or_of(a: &Value, b: &Value) -> Value
    ensures { view result ≡ spec.or_of (view a.now) (view b.now) }
{
    match (logic_of(a), logic_of(b)) {
        (Logic::Holds, _) | (_, Logic::Holds) => Value::Bool(true),
        (Logic::Fails, later) => of_logic(later),
        (first, Logic::Fails) => of_logic(first),
        (Logic::Unknown, Logic::Unknown) => Value::Null,
        _ => Value::Missing,
    }
}

/// COALESCE of two.
pub(crate) fn first_of(a: Value, b: Value) -> Value
    ensures { view result ≡ spec.first_of (view a) (view b) }
{
    match a {
        Value::Missing => b,
        Value::Null => { if is_missing(&b) { Value::Null } else { b } }
        present => present,
    }
}

/// Whether the value is NULL.
pub(crate) fn is_null(value: &Value) -> bool
    ensures { result ≡ spec.is_null (view value.now) }
{
    matches!(value, Value::Null)
}

/// Whether the value is MISSING.
pub(crate) fn is_missing(value: &Value) -> bool
    ensures { result ≡ spec.is_missing (view value.now) }
{
    matches!(value, Value::Missing)
}

/// The class of a value.
fn logic_of(value: &Value) -> Logic
    ensures { logic_view result ≡ spec.logic_of (view value.now) }
{
    match value {
        Value::Bool(true) => Logic::Holds,
        Value::Bool(false) => Logic::Fails,
        Value::Null => Logic::Unknown,
        _ => Logic::Other,
    }
}

/// The value of a class: a truth value, NULL or MISSING.
fn of_logic(logic: Logic) -> Value
    ensures { view result ≡ spec.of_logic (logic_view logic) }
{
    match logic {
        Logic::Holds => Value::Bool(true),
        Logic::Fails => Value::Bool(false),
        Logic::Unknown => Value::Null,
        Logic::Other => Value::Missing,
    }
}

/// Whether the value is false.
fn is_false(value: &Value) -> bool
    ensures { result ≡ spec.is_false (view value.now) }
{
    matches!(value, Value::Bool(false))
}
