ghost use Rattle.std.specs.Prelude.{◌≡◌, ◌++◌, OnOk, All, Bool, codes, if◌then◌else◌, []};
ghost use Rattle.tree_meaning.specs.WellFormed.{IsFormed, IsOutput, IsKey, AreOutputs};
ghost use Rattle.print_meaning.specs.Texts as texts;
ghost use Rattle.query_tree.specs.Parts.{item_view, key_view};
ghost use Rattle.query_tree.specs.Queries.{outs_view};

use crate::exprs::put_expr;
use crate::places::{item_at, key_at, put_separator};
use crate::query_text::{QueryText, put, put_name};
use query_tree::{Item, OrderKey, OrderKeys, OutItems, Outputs};
use snel_values::{OutOfMemory, Text};

/// Adds `*` or the outputs.
#[tactic(auto, using(print_meaning::proofs::PrintedLists::outs_are), unfolding(print_meaning::specs::Texts::outs_text, print_meaning::specs::Pieces::spelling))]
pub(crate) fn put_outputs(
    text: &mut QueryText,
    row: &str,
    outputs: &Outputs,
) -> Result<(), OutOfMemory>
    requires { AreOutputs (outs_view outputs.now) }
    ensures { OnOk result (text.new ≡ text.old ++ texts.outs_text row.now (outs_view outputs.now)) }
{
    match outputs {
        Outputs::Star => put(text, "*"),
        Outputs::Named(items) => put_items(text, row, items),
    }
}

/// Adds the order keys with `, ` between them.
pub(crate) fn put_keys(text: &mut QueryText, row: &str, keys: &OrderKeys) -> Result<(), OutOfMemory>
    requires { All IsKey keys.now }
    ensures { OnOk result (text.new ≡ text.old ++ texts.keys_text row.now keys.now) }
{
    for at in 0..keys.len() {
        put_key(text, row, key_at(keys, at), at)?;
    }
    Ok(())
}

/// Adds AS and the name, if there is one.
pub(crate) fn put_alias(text: &mut QueryText, name: &Option<Text>) -> Result<(), OutOfMemory>
    ensures { OnOk result (text.new ≡ text.old ++ texts.alias_text name.now) }
{
    match name {
        Some(name) => {
            put(text, " AS ")?;
            put_name(text, name.as_str())
        }
        None => Ok(()),
    }
}

/// Adds the output at a place, counted from 0, behind `, ` where one stands before.
fn put_item(text: &mut QueryText, row: &str, item: &Item, at: usize) -> Result<(), OutOfMemory>
    requires { IsFormed item.now.expr }
    ensures { OnOk result (text.new ≡ text.old ++
        (texts.separator at ++ (texts.text row.now item.now.expr ++
        texts.alias_text item.now.name))) }
{
    put_separator(text, at)?;
    put_expr(text, row, item.expr.get())?;
    put_alias(text, &item.name)
}

/// Adds the outputs with `, ` between them.
fn put_items(text: &mut QueryText, row: &str, items: &OutItems) -> Result<(), OutOfMemory>
    requires { All IsOutput items.now }
    ensures { OnOk result (text.new ≡ text.old ++ texts.items_text row.now items.now) }
{
    for at in 0..items.len() {
        put_item(text, row, item_at(items, at), at)?;
    }
    Ok(())
}

/// Adds DESC where the key is descending.
fn put_direction(text: &mut QueryText, falling: bool) -> Result<(), OutOfMemory>
    ensures { OnOk result (text.new ≡ text.old ++ (if falling then codes " DESC" else [])) }
{
    if falling { put(text, " DESC") } else { Ok(()) }
}

/// Adds the order key at a place, counted from 0, behind `, ` where one stands before.
fn put_key(text: &mut QueryText, row: &str, key: &OrderKey, at: usize) -> Result<(), OutOfMemory>
    requires { IsFormed key.now.expr }
    ensures { OnOk result (text.new ≡ text.old ++
        (texts.separator at ++ (texts.text row.now key.now.expr ++
        (if key.now.falling then codes " DESC" else [])))) }
{
    put_separator(text, at)?;
    put_expr(text, row, key.expr.get())?;
    put_direction(text, key.falling)
}
