// The names of files, which end a list of words.
ghost use Rattle.std.specs.Prelude.{◌≡◌, ◌≤◌, ◌++◌, drop, IfOk, if◌then◌else◌, Some, None};
ghost use Rattle.std.specs.List.{list_all};
ghost use Rattle.snel_words.specs.Words.{is_operand, are_files};

use crate::fronts::is_operand;
use snel_values::{OutOfMemory, Words};
use std::alloc::Global;

// How many files a command takes at most.
const MOST_FILES: usize = 64;

// The names of files from this place on, where there are only such.
pub fn names_from(alloc: Global, words: &Words, at: usize) -> Result<Option<Words>, OutOfMemory>
    requires { at ≤ 8 }
    ensures { IfOk result (λ names. names ≡ (if are_files (drop at words.now)
        then Some (drop at words.now) else None)) }
{
    if !are_files(words, at) {
        return Ok(None);
    }
    match copy_from(alloc, words, at) {
        Ok(names) => Ok(Some(names)),
        Err(e) => Err(e),
    }
}

// Whether names of files stand from this place on, and nothing else.
fn are_files(words: &Words, at: usize) -> bool
    requires { at ≤ 8 }
    ensures { result ≡ are_files (drop at words.now) }
{
    at < words.len() && words.len() - at <= MOST_FILES && are_operands(words, at)
}

// Whether each word from this place on can be a file's name.
fn are_operands(words: &Words, at: usize) -> bool
    ensures { result ≡ list_all is_operand (drop at words.now) }
{
    for i in at..words.len() {
        let Some(word) = words.get(i) else {
            return true;
        };
        if !is_operand(word) {
            return false;
        }
    }
    true
}

// The words from this place on.
fn copy_from(alloc: Global, words: &Words, at: usize) -> Result<Words, OutOfMemory>
    ensures { IfOk result (λ copy. copy ≡ drop at words.now) }
{
    let mut copy = Words::new(alloc);
    for i in at..words.len() {
        let Some(word) = words.get(i) else {
            return Ok(copy);
        };
        match copy.push(word) {
            Ok(()) => {}
            Err(e) => return Err(e),
        }
    }
    Ok(copy)
}
