// From a list of words to what it asks.
ghost use Rattle.std.specs.Prelude.{◌≡◌, ◌≤◌, drop, IfOk};
ghost use Rattle.snel_words.specs.Words.{asked, asked_query, query_of, check_of, asked_pack, pack_of, explain_of, number_in, starts, row_counts, make_with, make_of};
ghost use Rattle.snel_words.specs.Asked.{ask_view, packing_view};

use crate::ask::{Ask, Packing, Settings};
use crate::fronts::{Limits, flag, is_operand, number_in, setting, start_in, time_field};
use crate::names::names_from;
use snel_values::{OutOfMemory, Words};
use std::alloc::Global;

const WORKERS: Limits = Limits {
    least: 1,
    most: 64,
    usual: 4,
};

const GROUPS: Limits = Limits {
    least: 1,
    most: 16_777_216,
    usual: 1_048_576,
};

const BLOCK_WEIGHTS: Limits = Limits {
    least: 1_024,
    most: 1_000_000,
    usual: 1_000_000,
};

const ROW_COUNTS: Limits = Limits {
    least: 0,
    most: 1_000_000,
    usual: 0,
};

/// What the words after the program's name ask.
///
/// An error says that no memory was left for the names.
pub fn read_words<'w>(alloc: Global, words: &'w Words) -> Result<Ask<'w>, OutOfMemory>
    ensures { IfOk result (λ ask. ask_view ask ≡ asked words.now) }
{
    let Some(command) = words.get(0) else {
        return Ok(Ask::Nothing);
    };
    if command == "query" {
        return read_query(alloc, words);
    }
    if command == "check" {
        return read_check(alloc, words);
    }
    if command == "explain" {
        return Ok(read_explain(words));
    }
    if command == "pack" {
        return Ok(read_pack(words));
    }
    if command == "make" {
        return Ok(read_make(words));
    }
    Ok(Ask::Nothing)
}

// What the words behind `query` ask.
fn read_query<'w>(alloc: Global, words: &'w Words) -> Result<Ask<'w>, OutOfMemory>
    ensures { IfOk result (λ ask. ask_view ask ≡ asked_query (drop 1 words.now)) }
{
    let Some((workers, at)) = setting(words, 1, "--workers", WORKERS) else {
        return Ok(Ask::Nothing);
    };
    let Some((groups, at)) = setting(words, at, "--groups", GROUPS) else {
        return Ok(Ask::Nothing);
    };
    let (stats, at) = flag(words, at, "--stats");
    let settings = Settings {
        workers,
        groups,
        stats,
    };
    read_operands(alloc, words, at, settings)
}

// The query of the text at a place over the files behind it.
fn read_operands<'w>(
    alloc: Global,
    words: &'w Words,
    at: usize,
    settings: Settings,
) -> Result<Ask<'w>, OutOfMemory>
    requires { at ≤ 7 }
    ensures { IfOk result (λ ask. ask_view ask ≡ query_of settings (drop at words.now)) }
{
    let Some(sql) = words.get(at) else {
        return Ok(Ask::Nothing);
    };
    if !is_operand(sql) {
        return Ok(Ask::Nothing);
    }
    match names_from(alloc, words, at + 1) {
        Ok(Some(names)) => Ok(Ask::Query {
            settings,
            sql,
            names,
        }),
        Ok(None) => Ok(Ask::Nothing),
        Err(e) => Err(e),
    }
}

// What the words behind `check` ask.
fn read_check<'w>(alloc: Global, words: &'w Words) -> Result<Ask<'w>, OutOfMemory>
    ensures { IfOk result (λ ask. ask_view ask ≡ check_of (drop 1 words.now)) }
{
    match names_from(alloc, words, 1) {
        Ok(Some(names)) => Ok(Ask::Check { names }),
        Ok(None) => Ok(Ask::Nothing),
        Err(e) => Err(e),
    }
}

// What the words behind `pack` ask.
fn read_pack<'w>(words: &'w Words) -> Ask<'w>
    ensures { ask_view result ≡ asked_pack (drop 1 words.now) }
{
    let Some((time, at)) = time_field(words, 1) else {
        return Ask::Nothing;
    };
    let Some((block, at)) = setting(words, at, "--block", BLOCK_WEIGHTS) else {
        return Ask::Nothing;
    };
    let (drop_fractions, at) = flag(words, at, "--drop-fractions");
    let packing = Packing {
        time,
        block,
        drop_fractions,
    };
    read_name(words, at, packing)
}

// Packing into the file of the name at a place, which is the last word.
fn read_name<'w>(words: &'w Words, at: usize, packing: Packing<'w>) -> Ask<'w>
    requires { at ≤ 7 }
    ensures { ask_view result ≡ pack_of (packing_view packing.entry) (drop at words.now) }
{
    let Some(name) = words.get(at) else {
        return Ask::Nothing;
    };
    if at + 1 < words.len() {
        return Ask::Nothing;
    }
    if is_operand(name) {
        Ask::Pack { packing, name }
    } else {
        Ask::Nothing
    }
}

// What the words behind `explain` ask.
fn read_explain<'w>(words: &'w Words) -> Ask<'w>
    ensures { ask_view result ≡ explain_of (drop 1 words.now) }
{
    if words.len() != 2 {
        return Ask::Nothing;
    }
    let Some(sql) = words.get(1) else {
        return Ask::Nothing;
    };
    if is_operand(sql) {
        Ask::Explain { sql }
    } else {
        Ask::Nothing
    }
}

// What the words behind `make` ask.
fn read_make<'w>(words: &'w Words) -> Ask<'w>
    ensures { ask_view result ≡ make_of (drop 1 words.now) }
{
    if words.len() != 4 {
        return Ask::Nothing;
    }
    let Some(start) = words.get(1) else {
        return Ask::Nothing;
    };
    let Some(rows) = words.get(2) else {
        return Ask::Nothing;
    };
    let Some(name) = words.get(3) else {
        return Ask::Nothing;
    };
    read_log(start, rows, name)
}

// Making the log of these words.
fn read_log<'w>(start: &str, rows: &str, name: &'w str) -> Ask<'w>
    ensures { ask_view result ≡ make_with (number_in starts start.now)
        (number_in row_counts rows.now) name.now }
{
    let Some(start) = start_in(start) else {
        return Ask::Nothing;
    };
    let Some(rows) = number_in(ROW_COUNTS, rows) else {
        return Ask::Nothing;
    };
    if is_operand(name) {
        Ask::Make { start, rows, name }
    } else {
        Ask::Nothing
    }
}
