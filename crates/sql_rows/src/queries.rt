ghost use Rattle.std.specs.Prelude.{◌≡◌, IfOk, map};
ghost use Rattle.std.specs.Option.{option_map};
ghost use Rattle.query_meaning.specs.RowName as spec;
ghost use Rattle.query_tree.specs.Queries.{outs_view, query_view};
ghost use Rattle.sql_rows.specs.RowPaths.{AreShort, short_item, short_key};

use crate::expressions::{short, short_exprs};
use query_tree::{Exprs, Item, Operand, OrderKey, OrderKeys, OutItems, Outputs, Query};
use snel_values::{OutOfMemory, Text};
use std::alloc::Global;

/// The same query, its paths without the row's name.
pub fn short_query(alloc: Global, query: Query) -> Result<Query, OutOfMemory>
    ensures { let read = query_view query in
        IfOk result (λ q. query_view q ≡ spec.without_row (spec.row_name read) read) }
{
    let parts = short_parts(alloc, &query)?;
    Ok(Query {
        outputs: parts.outputs,
        source: query.source,
        alias: query.alias,
        filter: parts.filter,
        keys: parts.keys,
        having: parts.having,
        order: parts.order,
        take: query.take,
        skip: query.skip,
    })
}

/// The parts of a query that have expressions.
#[derive(Drop)]
struct Parts {
    outputs: Outputs,
    filter: Option<Operand>,
    keys: Exprs,
    having: Option<Operand>,
    order: OrderKeys,
}

/// The row's name: the second name after FROM, or the first where it stands alone.
fn row_name(alloc: Global, query: &Query) -> Result<Text, OutOfMemory>
    ensures { IfOk result (λ t. t ≡ spec.row_name (query_view query.now)) }
{
    match &query.alias {
        Some(alias) => alias.copy(alloc),
        None => query.source.copy(alloc),
    }
}

/// The parts of a query that have expressions, their paths without the row's name.
fn short_parts(alloc: Global, query: &Query) -> Result<Parts, OutOfMemory>
    ensures { let row = spec.row_name (query_view query.now) in
        IfOk result (AreShort row query.now) }
{
    let name = row_name(alloc, query)?;
    parts_without(alloc, name.as_str(), query)
}

/// The parts of a query that have expressions, their paths without this name.
fn parts_without(alloc: Global, row: &str, query: &Query) -> Result<Parts, OutOfMemory>
    ensures { IfOk result (AreShort row.now query.now) }
{
    let outputs = short_outputs(alloc, row, &query.outputs)?;
    let (filter, having) = short_tests(alloc, row, query)?;
    let keys = short_exprs(alloc, row, &query.keys)?;
    let order = short_keys(alloc, row, &query.order)?;
    Ok(Parts {
        outputs,
        filter,
        keys,
        having,
        order,
    })
}

/// WHERE and HAVING of a query, their paths without the row's name.
fn short_tests(
    alloc: Global,
    row: &str,
    query: &Query,
) -> Result<(Option<Operand>, Option<Operand>), OutOfMemory>
    ensures filter { IfOk result (λ t. t.0 ≡ option_map (spec.short row.now) query.now.filter) }
    ensures having { IfOk result (λ t. t.1 ≡ option_map (spec.short row.now) query.now.having) }
{
    let filter = short_option(alloc, row, &query.filter)?;
    let having = short_option(alloc, row, &query.having)?;
    Ok((filter, having))
}

/// The same expression, if there is one, its paths without the row's name.
fn short_option(
    alloc: Global,
    row: &str,
    of: &Option<Operand>,
) -> Result<Option<Operand>, OutOfMemory>
    ensures { IfOk result (λ o. o ≡ option_map (spec.short row.now) of.now) }
{
    match of {
        Some(of) => Ok(Some(short(alloc, row, of)?)),
        None => Ok(None),
    }
}

/// The same outputs, their paths without the row's name.
fn short_outputs(alloc: Global, row: &str, outputs: &Outputs) -> Result<Outputs, OutOfMemory>
    ensures { IfOk result (λ o. outs_view o ≡ spec.short_outs row.now (outs_view outputs.now)) }
{
    match outputs {
        Outputs::Star => Ok(Outputs::Star),
        Outputs::Named(items) => Ok(Outputs::Named(short_items(alloc, row, items)?)),
    }
}

/// The same outputs, their paths without the row's name.
fn short_items(alloc: Global, row: &str, list: &OutItems) -> Result<OutItems, OutOfMemory>
    ensures { IfOk result (λ items. items ≡ map (short_item row.now) list.now) }
{
    let mut all = OutItems::new(alloc);
    for at in 0..list.len() {
        let Some(item) = list.get(at) else {
            unreachable!();
        };
        let expr = short(alloc, row, &item.expr)?;
        let name = copy_name(alloc, &item.name)?;
        all.push(Item { expr, name })?;
    }
    Ok(all)
}

/// The same name, if there is one.
fn copy_name(alloc: Global, name: &Option<Text>) -> Result<Option<Text>, OutOfMemory>
    ensures { IfOk result (λ n. n ≡ name.now) }
{
    match name {
        Some(name) => Ok(Some(name.copy(alloc)?)),
        None => Ok(None),
    }
}

/// The same order keys, their paths without the row's name.
fn short_keys(alloc: Global, row: &str, list: &OrderKeys) -> Result<OrderKeys, OutOfMemory>
    ensures { IfOk result (λ keys. keys ≡ map (short_key row.now) list.now) }
{
    let mut all = OrderKeys::new(alloc);
    for at in 0..list.len() {
        let Some(key) = list.get(at) else {
            unreachable!();
        };
        let falling = key.falling;
        let expr = short(alloc, row, &key.expr)?;
        all.push(OrderKey { expr, falling })?;
    }
    Ok(all)
}
