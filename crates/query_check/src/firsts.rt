ghost use Rattle.std.specs.Prelude.{◌≡◌, ◌<◌, ◌≤◌, length, map, take, [], IfOk, IfSome, IfNone, List, ℕ, ◌-◌, slice_get, Some};
ghost use Rattle.std.specs.List.{list_any};
ghost use Rattle.std.specs.Option.{option_map};
ghost use Rattle.std.specs.Str.{bytes_eq};
ghost use Rattle.check_meaning.specs.Aggregates as aggs;
ghost use Rattle.check_meaning.specs.Names as named;
ghost use Rattle.check_meaning.specs.Verdict as verdict;
ghost use Rattle.query_tree.specs.Queries.{outs_view, query_view};
ghost use Rattle.query_check.specs.Faults.{place_view, limit_view};
ghost use Rattle.query_check.specs.Placed as placed;

use crate::fault::{Limit, Place};
use crate::names::Names;
use crate::order::{as_number, name_at, output_at, output_count};
use crate::places::{Rule, is_so, number, order_key, place_at, place_count};
use query_tree::{Exprs, Operand, Outputs, Query};
use query_walk::gather;
use snel_values::OutOfMemory;
use std::alloc::Global;

/// The first of the limits on outputs and keys that is passed.
pub(crate) fn passed_count(query: &Query) -> Option<Limit>
    ensures some { IfSome result (λ l.
        verdict.passed_limit (query_view query.now) ≡ Some (limit_view l)) }
    ensures none { IfNone result (placed.IsWithin (query_view query.now)) }
{
    if output_count(&query.outputs) > 256 {
        Some(Limit::Outputs)
    } else if query.keys.len() > 16 {
        Some(Limit::GroupKeys)
    } else if query.order.len() > 16 {
        Some(Limit::OrderKeys)
    } else {
        None
    }
}

/// The first limit that is passed, where those on outputs and keys aren't.
pub(crate) fn passed_limit(query: &Query, names: &Names, found: &Exprs) -> Option<Limit>
    requires within { placed.IsWithin (query_view query.now) }
    requires names { names.now ≡ named.names (outs_view query.now.outputs) }
    requires found { found.now ≡ aggs.aggregates (query_view query.now) }
    ensures { option_map limit_view result ≡ verdict.passed_limit (query_view query.now) }
{
    if first_place(Rule::Steps, query, names).is_some() {
        Some(Limit::Steps)
    } else if found.len() > 64 {
        Some(Limit::Aggregates)
    } else {
        None
    }
}

/// The first place that is so.
pub(crate) fn first_place(rule: Rule, query: &Query, names: &Names) -> Option<Place>
    requires within { placed.IsWithin (query_view query.now) }
    requires names { names.now ≡ named.names (outs_view query.now.outputs) }
    ensures { option_map place_view result ≡
        verdict.first_place (placed.test_of rule query.now.keys) (query_view query.now) }
{
    for at in 0..place_count(query) {
        let (place, expr) = place_at(query, names, at);
        if is_so(rule, &query.keys, place, expr) {
            return Some(place);
        }
    }
    None
}

/// The distinct aggregates, in the order in which they stand first.
pub(crate) fn aggregates(alloc: Global, query: &Query, names: &Names) -> Result<Exprs, OutOfMemory>
    requires within { placed.IsWithin (query_view query.now) }
    requires names { names.now ≡ named.names (outs_view query.now.outputs) }
    ensures { IfOk result (λ es. es ≡ aggs.aggregates (query_view query.now)) }
{
    let mut found = Exprs::new(alloc);
    for at in 0..place_count(query) {
        let (_, expr) = place_at(query, names, at);
        gather(alloc, expr, &mut found)?;
    }
    Ok(found)
}

/// Whether the query is grouped.
pub(crate) fn is_grouped(query: &Query, names: &Names) -> bool
    requires within { placed.IsWithin (query_view query.now) }
    requires names { names.now ≡ named.names (outs_view query.now.outputs) }
    ensures { result ≡ aggs.is_grouped (query_view query.now) }
{
    if query.keys.len() > 0 {
        return true;
    }
    if query.having.is_some() {
        return true;
    }
    first_place(Rule::Grouping, query, names).is_some()
}

/// The first output whose name an earlier one has.
pub(crate) fn first_same_name(names: &Names) -> Option<u32>
    requires { length names.now ≤ 256 }
    ensures { result ≡ verdict.first_number
        (λ n. list_any (bytes_eq n.1) (take (n.0 - 1) names.now)) names.now }
{
    for at in 0..names.len() {
        if stands_before(names, at) {
            return Some(number(at));
        }
    }
    None
}

/// The first order key that is the number of no output.
pub(crate) fn first_no_output(query: &Query) -> Option<u32>
    requires { placed.IsWithin (query_view query.now) }
    ensures { result ≡ verdict.first_no_output (query_view query.now) }
{
    for at in 0..query.order.len() {
        if is_no_number(&query.outputs, &order_key(&query.order, at).expr) {
            return Some(number(at));
        }
    }
    None
}

/// Whether the name at a place stands before that place too.
fn stands_before(names: &Names, at: usize) -> bool
    requires { at < length names.now }
    ensures { (name : List ℕ) → slice_get names.now at ≡ Some name →
        result ≡ list_any (bytes_eq name) (take at names.now) }
{
    let name = name_at(names, at).as_str();
    for before in 0..at {
        if name == name_at(names, before).as_str() {
            return true;
        }
    }
    false
}

/// Whether the order key is the number of no output.
fn is_no_number(outputs: &Outputs, key: &Operand) -> bool
    ensures { result ≡ verdict.is_no_number (outs_view outputs.now) key.now }
{
    match as_number(key) {
        Some(number) => output_at(outputs, number).is_none(),
        None => false,
    }
}
