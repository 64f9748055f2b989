ghost use Rattle.std.specs.Prelude.{◌≡◌, None, IfSome, IfNone};
ghost use Rattle.std.specs.Option.{option_map};
ghost use Rattle.tree_meaning.specs.WellFormed.{IsWellFormed};
ghost use Rattle.check_meaning.specs.Aggregates as aggs;
ghost use Rattle.check_meaning.specs.Names as named;
ghost use Rattle.check_meaning.specs.Places as sites;
ghost use Rattle.check_meaning.specs.Tests as tests;
ghost use Rattle.check_meaning.specs.Verdict as verdict;
ghost use Rattle.query_tree.specs.Queries.{outs_view, query_view};
ghost use Rattle.query_check.specs.Faults.{place_view, IsFirst};
ghost use Rattle.query_check.specs.Placed as placed;
ghost use Rattle.query_check.specs.Checks.{Checks, Examines};

use crate::fault::{CheckFault, Place};
use crate::findings::Findings;
use crate::firsts::{
    aggregates, first_no_output, first_place, first_same_name, is_grouped, passed_count,
    passed_limit,
};
use crate::names::{Names, names_of};
use crate::order::order_ex;
use crate::places::Rule;
use query_tree::{Exprs, Operand, Outputs, Query};
use std::alloc::Global;
use std::marker::Model;

/// An accepted query, which is well formed, seen as the query.
#[derive(Drop)]
pub struct Checked {
    query: Query,
    findings: Findings,
}

impl Model for Checked {
    ghost use Rattle.tree_meaning.specs.Tree.{Query as Tree};
    ghost use Rattle.query_check.specs.CodedQuery.{coded_query};

    ghost Value = { Tree };

    ghost coded = { coded_query };

    ghost use Rattle.query_tree.specs.Queries.{query_view};
    ghost use Rattle.query_check.specs.Accepted.{IsAccepted};

    ghost view = { λ c. query_view c.query };

    ghost invariant = { λ c. IsAccepted (query_view c.query) c.findings };
}

impl Checked {
    /// The query.
    pub fn query(&self) -> &Query
        ensures is { query_view result.now ≡ self.now }
        ensures formed { IsWellFormed self.now }
    {
        &self.query
    }

    /// Whether it is grouped.
    pub fn grouped(&self) -> bool
        ensures { result ≡ aggs.is_grouped self.now }
    {
        self.findings.grouped
    }

    /// The names of its outputs, in their order; `*` has none.
    pub fn names(&self) -> &Names
        ensures { result.now ≡ named.names self.now.outs }
    {
        &self.findings.names
    }

    /// Its distinct aggregates, in the order in which they stand first.
    pub fn aggs(&self) -> &Exprs
        ensures { result.now ≡ aggs.aggregates self.now }
    {
        &self.findings.aggregates
    }

    /// What an expression stands for as an order key: the output of that number, counted from 1, or of that name, or itself.
    pub fn order_ex<'a>(&'a self, key: &'a Operand) -> &'a Operand
        ensures { result.now ≡ sites.order_ex self.now.outs key.now }
    {
        order_ex(&self.query.outputs, &self.findings.names, key)
    }

    /// Tells what holds of every accepted query: it is well formed and has no fault.
    pub fn know(&self)
        ensures formed { IsWellFormed self.now }
        ensures no_fault { verdict.fault_of self.now ≡ None }
    {
        let _ = &self.query;
    }
}

/// The query, accepted, or its first fault.
pub fn check(alloc: Global, query: Query) -> Result<Checked, CheckFault>
    requires { IsWellFormed (query_view query) }
    ensures { Checks (query_view query) result }
{
    let findings = examine(alloc, &query)?;
    Ok(Checked { query, findings })
}

/// What is found out about a query without a fault, or its first fault.
fn examine(alloc: Global, query: &Query) -> Result<Findings, CheckFault>
    ensures { Examines (query_view query.now) result }
{
    if let Some(limit) = passed_count(query) {
        return Err(CheckFault::TooMany(limit));
    }
    let names = names_of(alloc, &query.outputs)?;
    let aggregates = aggregates(alloc, query, &names)?;
    let grouped = is_grouped(query, &names);
    match first_fault(query, &names, &aggregates, grouped) {
        Some(fault) => Err(fault),
        None => Ok(Findings {
            names,
            aggregates,
            grouped,
        }),
    }
}

/// The first fault of a query whose outputs and keys are within their limits.
fn first_fault(query: &Query, names: &Names, found: &Exprs, grouped: bool) -> Option<CheckFault>
    requires within { placed.IsWithin (query_view query.now) }
    requires names { names.now ≡ named.names (outs_view query.now.outputs) }
    requires found { found.now ≡ aggs.aggregates (query_view query.now) }
    requires grouped { grouped ≡ aggs.is_grouped (query_view query.now) }
    ensures some { IfSome result (IsFirst (verdict.fault_of (query_view query.now))) }
    ensures none { IfNone result (verdict.fault_of (query_view query.now) ≡ None) }
{
    if let Some(limit) = passed_limit(query, names, found) {
        return Some(CheckFault::TooMany(limit));
    }
    if let Some(place) = first_place(Rule::Nested, query, names) {
        return Some(CheckFault::Nested(place));
    }
    if let Some(place) = not_grouped(query, names, grouped) {
        return Some(CheckFault::NotGrouped(place));
    }
    if let Some(place) = over_groups(query, names, grouped) {
        return Some(CheckFault::OverGroups(place));
    }
    if let Some(output) = first_same_name(names) {
        return Some(CheckFault::SameName(output));
    }
    match first_no_output(query) {
        Some(key) => Some(CheckFault::NoSuchOrder(key)),
        None => None,
    }
}

/// The first place that depends on single rows of a group, where the query is grouped.
fn not_grouped(query: &Query, names: &Names, grouped: bool) -> Option<Place>
    requires within { placed.IsWithin (query_view query.now) }
    requires names { names.now ≡ named.names (outs_view query.now.outputs) }
    requires grouped { grouped ≡ aggs.is_grouped (query_view query.now) }
    ensures { option_map place_view result ≡ verdict.in_groups (query_view query.now)
        (verdict.first_not_grouped (query_view query.now) (outs_view query.now.outputs)) }
{
    if !grouped {
        return None;
    }
    match &query.outputs {
        Outputs::Star => Some(Place::Output(1)),
        Outputs::Named(_) => first_place(Rule::NotGrouped, query, names),
    }
}

/// The first place with a form that isn't computed over groups, where the query is grouped.
fn over_groups(query: &Query, names: &Names, grouped: bool) -> Option<Place>
    requires within { placed.IsWithin (query_view query.now) }
    requires names { names.now ≡ named.names (outs_view query.now.outputs) }
    requires grouped { grouped ≡ aggs.is_grouped (query_view query.now) }
    ensures { option_map place_view result ≡ verdict.in_groups (query_view query.now)
        (verdict.first_place (tests.is_over_groups query.now.keys) (query_view query.now)) }
{
    if grouped {
        first_place(Rule::OverGroups, query, names)
    } else {
        None
    }
}
