ghost use Rattle.std.specs.Prelude.{◌≡◌, ◌<◌, length};
ghost use Rattle.value_meaning.specs.Val.{vals, fields};
ghost use Rattle.snel_values.specs.View.{view, views};
ghost use Rattle.key_places.specs.Hashes.{hash_of, fed_value, fed_vals, fed_fields, with_word, with_number, with_text};
ghost use Rattle.key_places.specs.PairAt.{IsPairAt};

use snel_values::{Items, Pairs, Value};
use std::hash::{DefaultHasher, Hasher};

/// The hash of a list of values, from a hasher that may be keyed. Lists of equal values have one hash.
pub fn hash_values(seed: &DefaultHasher, values: &[Value]) -> u64
    ensures { result ≡ hash_of seed.now (views values.now) }
{
    let mut state = *seed;
    feed_values(&mut state, values);
    state.finish()
}

/// Feeds the values one by one.
fn feed_values(state: &mut DefaultHasher, values: &[Value])
    ensures { state.new ≡ fed_vals (vals (views values.now)) state.old }
{
    for value in values {
        feed(state, value);
    }
}

/// Feeds a number of the kind of the value, then what tells it from others of its kind.
#[cycle(feed)]
fn feed(state: &mut DefaultHasher, value: &Value)
    ensures { state.new ≡ fed_value (view value.now) state.old }
{
    match value {
        Value::Missing => feed_word(state, 0),
        Value::Null => feed_word(state, 1),
        Value::Bool(false) => feed_word(state, 2),
        Value::Bool(true) => feed_word(state, 3),
        Value::Int(number) => feed_number(state, 4, *number),
        Value::Time(time) => feed_number(state, 5, i128::from(*time)),
        Value::Text(text) => feed_text(state, 6, text.as_str().as_bytes()),
        Value::List(items) => {
            feed_word(state, 7);
            feed_items(state, items);
            feed_word(state, 9);
        }
        Value::Struct(pairs) => {
            feed_word(state, 8);
            feed_pairs(state, pairs);
            feed_word(state, 9);
        }
    }
}

/// Feeds the items of a list one by one.
#[cycle(feed)]
fn feed_items(state: &mut DefaultHasher, items: &Items)
    ensures { state.new ≡ fed_vals (vals items.now) state.old }
{
    for item in items.as_slice() {
        feed(state, item);
    }
}

/// Feeds the names and values of a struct one by one.
#[cycle(feed)]
fn feed_pairs(state: &mut DefaultHasher, pairs: &Pairs)
    ensures { state.new ≡ fed_fields (fields pairs.now) state.old }
{
    for at in 0..pairs.len() {
        let (name, value) = pair_at(pairs, at);
        feed_text(state, 6, name.as_bytes());
        feed(state, value);
    }
}

/// The name and the value at a place, counted from 0.
fn pair_at<'b>(pairs: &'b Pairs, at: usize) -> (&'b str, &'b Value)
    requires { at < length pairs.now }
    ensures { IsPairAt pairs.now at result.0.now (view result.1.now) }
{
    match pairs.name_at(at) {
        Some(name) => match pairs.value_at(at) {
            Some(value) => (name, value),
            None => unreachable!(),
        },
        None => unreachable!(),
    }
}

/// Feeds a number of 64 bits: of a value, the number of its kind. 0 is MISSING, 1 NULL, 2 false and 3 true.
#[tactic(auto, unfolding(crate::specs::Hashes::with_word))]
pub fn feed_word(state: &mut DefaultHasher, word: u64)
    ensures { state.new ≡ with_word word state.old }
{
    state.write_u64(word);
}

/// Feeds the number of a kind and a whole number. 4 is a whole number, 5 a time.
#[tactic(auto, unfolding(crate::specs::Hashes::with_number))]
pub fn feed_number(state: &mut DefaultHasher, kind: u64, number: i128)
    ensures { state.new ≡ with_number number (with_word kind state.old) }
{
    feed_word(state, kind);
    state.write_i128(number);
}

/// Feeds the number of a kind, and the bytes of a text after their length. 6 is a text.
#[tactic(auto, unfolding(crate::specs::Hashes::with_text))]
pub fn feed_text(state: &mut DefaultHasher, kind: u64, text: &[u8])
    ensures { state.new ≡ with_text text.now (with_word kind state.old) }
{
    feed_word(state, kind);
    feed_word(state, text.len() as u64);
    state.write(text);
}
