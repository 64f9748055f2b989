// What stands at a place of a list of words.
ghost use Rattle.std.specs.Prelude.{◌≡◌, ◌≤◌, ◌+◌, drop, IfSome};
ghost use Rattle.std.specs.Option.{option_map};
ghost use Rattle.snel_words.specs.Words.{is_operand, is_field, number_in, starts, setting, flag, time_field};

use itoa::Buffer;
use snel_values::Words;

/// The least and the most that a number may be, and what it is where none is given.
#[derive(Clone, Copy)]
pub struct Limits {
    /// The least.
    pub least: u32,
    /// The most.
    pub most: u32,
    /// What it is where none is given.
    pub usual: u32,
}

// The most bytes of a field's name.
const MOST_FIELD_BYTES: usize = 255;

// Whether a word can be a query's text or a file's name.
pub fn is_operand(word: &str) -> bool
    ensures { result ≡ is_operand word.now }
{
    !word.is_empty() && !word.starts_with("--")
}

// The number that a word writes, within its limits.
pub fn number_in(limits: Limits, word: &str) -> Option<u32>
    ensures { result ≡ number_in limits word.now }
{
    let _most = limits.most;
    let Ok(number) = word.parse::<u32>() else {
        return None;
    };
    let mut digits = Buffer::new();
    if digits.format(number) != word {
        return None;
    }
    if number < limits.least {
        return None;
    }
    if limits.most < number {
        return None;
    }
    Some(number)
}

// The number of 64 bits that a word writes.
pub fn start_in(word: &str) -> Option<u64>
    ensures { result ≡ number_in starts word.now }
{
    let Ok(number) = word.parse::<u64>() else {
        return None;
    };
    let mut digits = Buffer::new();
    if digits.format(number) == word {
        Some(number)
    } else {
        None
    }
}

// The number behind an option's name, where the name stands at this place, and the place after it.
pub fn setting(words: &Words, at: usize, name: &str, limits: Limits) -> Option<(u32, usize)>
    requires { at ≤ 8 }
    ensures value { option_map (λ p. (p.0, drop p.1 words.now)) result
        ≡ setting name.now limits (drop at words.now) }
    ensures near { IfSome result (λ p. p.1 ≤ at + 2) }
{
    let Some(word) = words.get(at) else {
        return Some((limits.usual, at));
    };
    let Some(value) = words.get(at + 1) else {
        return Some((limits.usual, at));
    };
    if word != name {
        return Some((limits.usual, at));
    }
    match number_in(limits, value) {
        Some(number) => Some((number, at + 2)),
        None => None,
    }
}

// Whether a word can be a field's name.
fn is_field(word: &str) -> bool
    ensures { result ≡ is_field word.now }
{
    1 <= word.len() && word.len() <= MOST_FIELD_BYTES
}

// The field's name behind `--time`, where that stands at this place, and the place after it.
pub fn time_field<'w>(words: &'w Words, at: usize) -> Option<(Option<&'w str>, usize)>
    requires { at ≤ 8 }
    ensures value { option_map (λ p. (option_map (λ t. t.now) p.0, drop p.1 words.now)) result
        ≡ time_field (drop at words.now) }
    ensures near { IfSome result (λ p. p.1 ≤ at + 2) }
{
    let Some(word) = words.get(at) else {
        return Some((None, at));
    };
    let Some(value) = words.get(at + 1) else {
        return Some((None, at));
    };
    if word != "--time" {
        return Some((None, at));
    }
    if is_field(value) {
        Some((Some(value), at + 2))
    } else {
        None
    }
}

// Whether this word stands at this place, and the place after it.
pub fn flag(words: &Words, at: usize, name: &str) -> (bool, usize)
    requires { at ≤ 8 }
    ensures value { (result.0, drop result.1 words.now) ≡ flag name.now (drop at words.now) }
    ensures near { result.1 ≤ at + 1 }
{
    let Some(word) = words.get(at) else {
        return (false, at);
    };
    if word == name {
        (true, at + 1)
    } else {
        (false, at)
    }
}
