//! One row.
ghost use Rattle.std.specs.Prelude.{◌≡◌, ◌++◌, codes, OnOk, IfOk};
ghost use Rattle.snel_values.specs.View.{view};
ghost use Rattle.value_meaning.specs.Pairs.{IsAboveLast};
ghost use Rattle.log_meaning.specs.Rows as meant;
ghost use Rattle.log_meaning.specs.States as states;

use itoa::Buffer;
use snel_values::{OutOfMemory, Pairs, Text, Value};
use std::alloc::Global;

/// The row with this number, counted from 0, from its state.
#[tactic(auto, using(crate::proofs::Places::status_fits, crate::proofs::Places::time_fits, crate::proofs::Places::row_is))]
pub(crate) fn make_row(alloc: Global, number: u32, state: u64) -> Result<Value, OutOfMemory>
    ensures { IfOk result (λ row. view row ≡ meant.row_from number state) }
{
    let mut pairs = make_first_pairs(alloc, state)?;
    put_status(alloc, &mut pairs, number, state)?;
    let time = time_of(number);
    pairs.push(Text::of(alloc, "time")?, Value::Time(time))?;
    Ok(Value::Struct(pairs))
}

/// The state after a state.
#[tactic(auto, unfolding(log_meaning::specs::States::next_state))]
pub(crate) fn next_state(state: u64) -> u64
    ensures { result ≡ states.next_state state }
{
    state
        .wrapping_mul(6_364_136_223_846_793_005)
        .wrapping_add(1_442_695_040_888_963_407)
}

/// The agent, the bytes and the path of a row.
#[tactic(auto, unfolding(log_meaning::specs::Rows::first_pairs))]
fn make_first_pairs(alloc: Global, state: u64) -> Result<Pairs, OutOfMemory>
    ensures { IfOk result (λ pairs. pairs ≡ meant.first_pairs state) }
{
    let mut pairs = Pairs::new(alloc);
    let agent = Text::of(alloc, agent_of(state))?;
    pairs.push(Text::of(alloc, "agent")?, Value::Text(agent))?;
    let bytes = i128::from((state >> 32) % 65_536);
    pairs.push(Text::of(alloc, "bytes")?, Value::Int(bytes))?;
    let path = make_path(alloc, state)?;
    pairs.push(Text::of(alloc, "path")?, Value::Text(path))?;
    Ok(pairs)
}

/// Adds the status, where the row has one.
#[tactic(auto, unfolding(log_meaning::specs::Rows::status_pairs))]
fn put_status(alloc: Global, pairs: &mut Pairs, number: u32, state: u64) -> Result<(), OutOfMemory>
    requires { IsAboveLast (codes "status") pairs.old }
    ensures { OnOk result (pairs.new ≡ pairs.old ++ meant.status_pairs number state) }
{
    if number % 7 == 3 {
        return Ok(());
    }
    pairs.push(Text::of(alloc, "status")?, status_value(number, state))
}

/// The status of a row that has one.
fn status_value(number: u32, state: u64) -> Value
    ensures { view result ≡ meant.status_value number state }
{
    if number % 11 == 5 {
        Value::Null
    } else {
        Value::Int(i128::from(status_of(state)))
    }
}

/// The time: one row a second, in microseconds since 1970.
fn time_of(number: u32) -> i64
    ensures { result ≡ meant.time_of number }
{
    1_700_000_000_000_000 + i64::from(number) * 1_000_000
}

/// The program that asks.
fn agent_of(state: u64) -> &'static str
    ensures { result.now ≡ meant.agent_of state }
{
    match (state >> 60) % 4 {
        0 => "curl/8.0",
        1 => "Mozilla/5.0",
        2 => "bot",
        _ => "app/2.1",
    }
}

/// The status, 200 in half of the cases.
fn status_of(state: u64) -> u16
    ensures { result ≡ meant.status_of state }
{
    match (state >> 40) % 8 {
        3 => 301,
        4 => 404,
        5 => 500,
        7 => 204,
        _ => 200,
    }
}

/// The path, one of fifty.
fn make_path(alloc: Global, state: u64) -> Result<Text, OutOfMemory>
    ensures { IfOk result (λ path. path ≡ meant.path_of state) }
{
    let mut digits = Buffer::new();
    let mut path = String::from_str(alloc, "/p")?;
    path.push_str(digits.format((state >> 48) % 50))?;
    Text::of(alloc, path.as_str())
}
