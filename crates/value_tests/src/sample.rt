//! Values as plain data, which a table may hold.
use snel_values::{Items, OutOfMemory, Pairs, Text, Value};
use std::alloc::Global;

/// A value. A struct is that of the pairs whose names rise; others are left out.
pub(crate) enum Sample {
    Missing,
    Null,
    Bool(bool),
    Int(i128),
    Time(i64),
    Text(&'static str),
    List(&'static [Sample]),
    Struct(&'static [(&'static str, Sample)]),
}

/// The value, of which want of memory leaves parts out.
pub(crate) fn made(alloc: Global, sample: &Sample) -> Value {
    match sample {
        Sample::Missing => Value::Missing,
        Sample::Null => Value::Null,
        Sample::Bool(truth) => Value::Bool(*truth),
        Sample::Int(number) => Value::Int(*number),
        Sample::Time(micros) => Value::Time(*micros),
        Sample::Text(text) => text_value(Text::of(alloc, text)),
        Sample::List(samples) => {
            let mut items = Items::new(alloc);
            for sample in *samples {
                let _added = items.push(made(alloc, sample));
            }
            Value::List(items)
        }
        Sample::Struct(named) => {
            let mut pairs = Pairs::new(alloc);
            for (name, sample) in *named {
                let value = made(alloc, sample);
                put_pair(&mut pairs, Text::of(alloc, name), value);
            }
            Value::Struct(pairs)
        }
    }
}

fn text_value(text: Result<Text, OutOfMemory>) -> Value {
    match text {
        Ok(text) => Value::Text(text),
        Err(_) => Value::Missing,
    }
}

// Adds a pair, where its name stands above the last.
fn put_pair(pairs: &mut Pairs, name: Result<Text, OutOfMemory>, value: Value) {
    match name {
        Ok(name) => put_above(pairs, name, value),
        Err(_) => drop(value),
    }
}

fn put_above(pairs: &mut Pairs, name: Text, value: Value) {
    if pairs.is_above_last(name.as_str()) {
        let _added = pairs.push(name, value);
    } else {
        drop(value);
    }
}
