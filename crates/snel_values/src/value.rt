ghost use Rattle.std.specs.Prelude.{◌≡◌, IfOk};

use crate::items::Items;
use crate::memory::OutOfMemory;
use crate::pairs::Pairs;
use crate::text::Text;
use std::alloc::Global;

/// A value of a row: a column, an item, or what an expression makes. A `Time` counts microseconds from
/// 1970-01-01T00:00:00Z.
#[cycle(value)]
#[derive(Drop)]
pub enum Value {
    Missing,
    Null,
    Bool(bool),
    Int(i128),
    Time(i64),
    Text(Text),
    List(Items),
    Struct(Pairs),
}

impl Value {
    ghost use Rattle.snel_values.specs.View.{view};
    ghost use Rattle.value_meaning.specs.Sound.{IsSound};

    /// Tells what holds of every value.
    pub fn know(&self)
        ensures { IsSound (view self.now) }
    {
        match self {
            Value::Text(text) => text.know(),
            Value::List(items) => items.know(),
            Value::Struct(pairs) => pairs.know(),
            _ => {}
        }
    }

    /// An equal value.
    #[cycle(copy)]
    pub fn copy(&self, alloc: Global) -> Result<Value, OutOfMemory>
        ensures { IfOk result (λ v. view v ≡ view self.now) }
    {
        match self {
            Value::Missing => Ok(Value::Missing),
            Value::Null => Ok(Value::Null),
            Value::Bool(truth) => Ok(Value::Bool(*truth)),
            Value::Int(number) => Ok(Value::Int(*number)),
            Value::Time(time) => Ok(Value::Time(*time)),
            Value::Text(text) => Ok(Value::Text(text.copy(alloc)?)),
            Value::List(items) => Ok(Value::List(items.copy(alloc)?)),
            Value::Struct(pairs) => Ok(Value::Struct(pairs.copy(alloc)?)),
        }
    }
}
