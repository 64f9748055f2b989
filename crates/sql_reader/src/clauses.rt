ghost use Rattle.std.specs.Prelude.{◌≡◌, drop};
ghost use Rattle.query_meaning.specs.Reading as spec;
ghost use Rattle.query_tree.specs.Parts.{item_view, key_view};
ghost use Rattle.query_tree.specs.Queries.{outs_view};
ghost use Rattle.sql_words.specs.ReadsAt.{ReadsAs, ReadsAt};
ghost use Rattle.sql_words.specs.Seen.{toks};

use query_meaning::Mark;
use query_tree::{Exprs, Item, Operand, OrderKey, OrderKeys, OutItems, Outputs};
use snel_values::Text;
use sql_grammar::{expr, list};
use sql_words::{Look, ParseFault, after, expect, name_at};
use std::alloc::Global;

/// What the query puts out.
#[tactic(auto, unfolding(query_meaning::specs::Reading::outputs_by))]
pub(crate) fn outputs(
    alloc: Global,
    room: usize,
    looks: &[Look<'_>],
    at: usize,
) -> Result<(Outputs, usize), ParseFault>
    ensures { ReadsAs outs_view looks.now at result (spec.outputs_by (spec.expr_at room) room) }
{
    match after(looks, at, Mark::Star) {
        Some(rest) => Ok((Outputs::Star, rest)),
        None => {
            let (items, rest) = items(alloc, room, looks, at)?;
            Ok((Outputs::Named(items), rest))
        }
    }
}

/// Outputs with commas between them.
fn items(
    alloc: Global,
    room: usize,
    looks: &[Look<'_>],
    at: usize,
) -> Result<(OutItems, usize), ParseFault>
    ensures { ReadsAt looks.now at result (spec.list_by (spec.item_by (spec.expr_at room)) room) }
{
    let mut all = OutItems::new(alloc);
    let mut rest = at;
    for _turn in 0..room {
        let (one, next) = item(alloc, room, looks, rest)?;
        all.push(one)?;
        let Some(behind) = after(looks, next, Mark::Comma) else {
            return Ok((all, next));
        };
        rest = behind;
    }
    Err(ParseFault::NotAQuery)
}

/// An output and its name, if it has one.
#[tactic(auto, unfolding(query_meaning::specs::Reading::item_by))]
fn item(
    alloc: Global,
    room: usize,
    looks: &[Look<'_>],
    at: usize,
) -> Result<(Item, usize), ParseFault>
    ensures { ReadsAs item_view looks.now at result (spec.item_by (spec.expr_at room)) }
{
    let (expr, rest) = expr(alloc, room, looks, at)?;
    let (name, behind) = alias_at(alloc, looks, rest)?;
    Ok((Item { expr, name }, behind))
}

/// A second name: a name, with or without AS before it, if there is one.
#[tactic(auto, unfolding(query_meaning::specs::Reading::alias_at))]
pub(crate) fn alias_at(
    alloc: Global,
    looks: &[Look<'_>],
    at: usize,
) -> Result<(Option<Text>, usize), ParseFault>
    ensures { ReadsAt looks.now at result spec.alias_at }
{
    if let Some(rest) = after(looks, at, Mark::As) {
        let (name, behind) = name_at(alloc, looks, rest)?;
        return Ok((Some(name), behind));
    }
    match name_at(alloc, looks, at) {
        Ok((name, behind)) => Ok((Some(name), behind)),
        Err(ParseFault::NotAQuery) => Ok((None, at)),
        Err(ParseFault::OutOfMemory) => Err(ParseFault::OutOfMemory),
    }
}

/// WHERE or HAVING and an expression, if that word stands here.
#[tactic(auto, unfolding(query_meaning::specs::Reading::filter_by))]
pub(crate) fn filter(
    alloc: Global,
    room: usize,
    word: Mark,
    looks: &[Look<'_>],
    at: usize,
) -> Result<(Option<Operand>, usize), ParseFault>
    ensures { ReadsAt looks.now at result (spec.filter_by (spec.expr_at room) word) }
{
    match after(looks, at, word) {
        None => Ok((None, at)),
        Some(rest) => {
            let (test, behind) = expr(alloc, room, looks, rest)?;
            Ok((Some(test), behind))
        }
    }
}

/// GROUP BY and its keys, if it stands here.
#[tactic(auto, unfolding(query_meaning::specs::Reading::groups_by))]
pub(crate) fn groups(
    alloc: Global,
    room: usize,
    looks: &[Look<'_>],
    at: usize,
) -> Result<(Exprs, usize), ParseFault>
    ensures { ReadsAt looks.now at result (spec.groups_by (spec.expr_at room) room) }
{
    match after(looks, at, Mark::Group) {
        None => Ok((Exprs::new(alloc), at)),
        Some(rest) => {
            let rest = expect(looks, rest, Mark::By)?;
            list(alloc, room, looks, rest)
        }
    }
}

/// ORDER BY and its keys, if it stands here.
#[tactic(auto, unfolding(query_meaning::specs::Reading::order_by))]
pub(crate) fn order(
    alloc: Global,
    room: usize,
    looks: &[Look<'_>],
    at: usize,
) -> Result<(OrderKeys, usize), ParseFault>
    ensures { ReadsAt looks.now at result (spec.order_by (spec.expr_at room) room) }
{
    match after(looks, at, Mark::Order) {
        None => Ok((OrderKeys::new(alloc), at)),
        Some(rest) => {
            let rest = expect(looks, rest, Mark::By)?;
            keys(alloc, room, looks, rest)
        }
    }
}

/// Keys with commas between them.
fn keys(
    alloc: Global,
    room: usize,
    looks: &[Look<'_>],
    at: usize,
) -> Result<(OrderKeys, usize), ParseFault>
    ensures { ReadsAt looks.now at result (spec.list_by (spec.key_by (spec.expr_at room)) room) }
{
    let mut all = OrderKeys::new(alloc);
    let mut rest = at;
    for _turn in 0..room {
        let (one, next) = key(alloc, room, looks, rest)?;
        all.push(one)?;
        let Some(behind) = after(looks, next, Mark::Comma) else {
            return Ok((all, next));
        };
        rest = behind;
    }
    Err(ParseFault::NotAQuery)
}

/// A key to order by.
#[tactic(auto, unfolding(query_meaning::specs::Reading::key_by))]
fn key(
    alloc: Global,
    room: usize,
    looks: &[Look<'_>],
    at: usize,
) -> Result<(OrderKey, usize), ParseFault>
    ensures { ReadsAs key_view looks.now at result (spec.key_by (spec.expr_at room)) }
{
    let (expr, rest) = expr(alloc, room, looks, at)?;
    let (falling, behind) = direction_at(looks, rest);
    Ok((OrderKey { expr, falling }, behind))
}

/// Whether DESC stands here, and the place behind it or behind ASC.
#[tactic(auto, unfolding(query_meaning::specs::Reading::direction_at))]
fn direction_at(looks: &[Look<'_>], at: usize) -> (bool, usize)
    ensures falling { result.0 ≡ (spec.direction_at (drop at (toks looks.now))).0 }
    ensures rest { let read = spec.direction_at (drop at (toks looks.now)) in
        drop result.1 (toks looks.now) ≡ read.1 }
{
    if let Some(rest) = after(looks, at, Mark::Desc) {
        return (true, rest);
    }
    match after(looks, at, Mark::Asc) {
        Some(rest) => (false, rest),
        None => (false, at),
    }
}
