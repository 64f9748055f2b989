ghost use Rattle.std.specs.Prelude.{◌≡◌, ◌<◌, ◌≤◌, ◌+◌, length, slice_get, Some};
ghost use Rattle.check_meaning.specs.Names as named;
ghost use Rattle.check_meaning.specs.Places as spec;
ghost use Rattle.check_meaning.specs.Place as site;
ghost use Rattle.check_meaning.specs.Place.{Place as Site};
ghost use Rattle.query_tree.specs.Parts.{key_view};
ghost use Rattle.query_tree.specs.Queries.{outs_view, query_view};
ghost use Rattle.query_check.specs.Faults.{place_view};
ghost use Rattle.query_check.specs.Placed as placed;

use crate::fault::Place;
use crate::names::Names;
use crate::order::{order_ex, output_count, output_ex};
use query_tree::{Exprs, Operand, OrderKey, OrderKeys, Outputs, Query};
use query_walk::{Asked, has_doubled, has_part, item};

/// How many expressions stand in the query.
pub(crate) fn place_count(query: &Query) -> usize
    requires { placed.IsWithin (query_view query.now) }
    ensures { result ≡ length (spec.places (query_view query.now)) }
{
    let outputs = output_count(&query.outputs);
    let keys = query.keys.len();
    let order = query.order.len();
    outputs + count_of(&query.filter) + keys + count_of(&query.having) + order
}

/// What stands at a place of the query, counted from 0 in the order of the text. An order key is what it stands for.
pub(crate) fn place_at<'a>(query: &'a Query, names: &Names, at: usize) -> (Place, &'a Operand)
    requires within { placed.IsWithin (query_view query.now) }
    requires names { names.now ≡ named.names (outs_view query.now.outputs) }
    requires at { at < length (spec.places (query_view query.now)) }
    ensures { slice_get (spec.places (query_view query.now)) at ≡
        Some (place_view result.0, result.1.now) }
{
    let count = output_count(&query.outputs);
    if at < count {
        (Place::Output(number(at)), some_output(&query.outputs, at))
    } else {
        where_place(query, names, at - count)
    }
}

/// What is asked of an expression at its place.
#[derive(Clone, Copy)]
pub(crate) enum Rule {
    /// Whether a path has too many steps.
    Steps,
    /// Whether an aggregate stands where none may.
    Nested,
    /// Whether an aggregate makes the query a grouped one.
    Grouping,
    /// Whether it depends on single rows of a group.
    NotGrouped,
    /// Whether it has a form that isn't computed over groups.
    OverGroups,
}

/// Whether the expression at the place is so.
pub(crate) fn is_so(rule: Rule, keys: &Exprs, place: Place, expr: &Operand) -> bool
    ensures { result ≡ placed.test_of rule keys.now (place_view place, expr.now) }
{
    match rule {
        Rule::Steps => has_part(Asked::LongPath, keys, expr),
        Rule::Nested => {
            if is_of_rows(place) {
                has_part(Asked::Aggregate, keys, expr)
            } else {
                has_doubled(keys, expr)
            }
        }
        Rule::Grouping => !is_of_rows(place) && has_part(Asked::Aggregate, keys, expr),
        Rule::NotGrouped => !is_of_rows(place) && has_part(Asked::Path, keys, expr),
        Rule::OverGroups => !is_of_rows(place) && has_part(Asked::RowForm, keys, expr),
    }
}

/// The number of what stands at a place that is counted from 0.
pub(crate) fn number(at: usize) -> u32
    requires { at < 256 }
    ensures { result ≡ 1 + at }
{
    at as u32 + 1
}

/// The order key at a place, counted from 0.
pub(crate) fn order_key(keys: &OrderKeys, at: usize) -> &OrderKey
    requires { at < length keys.now }
    ensures { slice_get keys.now at ≡ Some (key_view result.now) }
{
    match keys.get(at) {
        Some(found) => found,
        None => unreachable!(),
    }
}

/// The output at a place, counted from 0.
fn some_output(outputs: &Outputs, at: usize) -> &Operand
    requires { at < length (spec.output_exs (outs_view outputs.now)) }
    ensures { slice_get (spec.output_exs (outs_view outputs.now)) at ≡ Some result.now }
{
    match output_ex(outputs, at as u128) {
        Some(found) => found,
        None => unreachable!(),
    }
}

/// What stands at a place from WHERE on.
fn where_place<'a>(query: &'a Query, names: &Names, at: usize) -> (Place, &'a Operand)
    requires within { placed.IsWithin (query_view query.now) }
    requires names { names.now ≡ named.names (outs_view query.now.outputs) }
    requires at { at < length (placed.where_places (query_view query.now)) }
    ensures { slice_get (placed.where_places (query_view query.now)) at ≡
        Some (place_view result.0, result.1.now) }
{
    match &query.filter {
        Some(filter) => {
            if at == 0 {
                (Place::Filter, filter)
            } else {
                key_place(query, names, at - 1)
            }
        }
        None => key_place(query, names, at),
    }
}

/// What stands at a place from the group keys on.
fn key_place<'a>(query: &'a Query, names: &Names, at: usize) -> (Place, &'a Operand)
    requires within { placed.IsWithin (query_view query.now) }
    requires names { names.now ≡ named.names (outs_view query.now.outputs) }
    requires at { at < length (placed.key_places (query_view query.now)) }
    ensures { slice_get (placed.key_places (query_view query.now)) at ≡
        Some (place_view result.0, result.1.now) }
{
    let count = query.keys.len();
    if at < count {
        (Place::Key(number(at)), item(&query.keys, at))
    } else {
        having_place(query, names, at - count)
    }
}

/// What stands at a place from HAVING on.
fn having_place<'a>(query: &'a Query, names: &Names, at: usize) -> (Place, &'a Operand)
    requires within { placed.IsWithin (query_view query.now) }
    requires names { names.now ≡ named.names (outs_view query.now.outputs) }
    requires at { at < length (placed.having_places (query_view query.now)) }
    ensures { slice_get (placed.having_places (query_view query.now)) at ≡
        Some (place_view result.0, result.1.now) }
{
    match &query.having {
        Some(having) => {
            if at == 0 {
                (Place::Having, having)
            } else {
                order_place(query, names, at - 1)
            }
        }
        None => order_place(query, names, at),
    }
}

/// What an order key stands for, and its place.
fn order_place<'a>(query: &'a Query, names: &Names, at: usize) -> (Place, &'a Operand)
    requires within { placed.IsWithin (query_view query.now) }
    requires names { names.now ≡ named.names (outs_view query.now.outputs) }
    requires at { at < length (placed.order_places (query_view query.now)) }
    ensures { slice_get (placed.order_places (query_view query.now)) at ≡
        Some (place_view result.0, result.1.now) }
{
    let key = &order_key(&query.order, at).expr;
    (
        Place::Order(number(at)),
        order_ex(&query.outputs, names, key),
    )
}

/// How many expressions stand where one may be absent.
fn count_of(option: &Option<Operand>) -> usize
    ensures count { (at : Site) → length (spec.alone at option.now) ≡ result }
    ensures one { result ≤ 1 }
{
    match option {
        Some(_) => 1,
        None => 0,
    }
}

/// Whether what stands there is asked of the rows, before they are grouped.
fn is_of_rows(place: Place) -> bool
    ensures { result ≡ site.is_of_rows (place_view place) }
{
    match place {
        Place::Output(_) => false,
        Place::Filter => true,
        Place::Key(_) => true,
        Place::Having => false,
        Place::Order(_) => false,
    }
}
