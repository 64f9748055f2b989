//! The names and the texts of rows.
ghost use Rattle.std.specs.Prelude.{◌≡◌, [], ◌∷◌, ◌++◌, filter, OnOk};
ghost use Rattle.snel_values.specs.View.{view, views};
ghost use Rattle.value_meaning.specs.Val.{vals, fields};
ghost use Rattle.write_meaning.specs.BlockTables as meant;
ghost use Rattle.ion_write.specs.Mentions.{Adds, AddsShort};

use crate::place::pair_at;
use snel_values::{Items, OutOfMemory, Pairs, Value};

/// Appends the names of the rows' structs, at every depth, and their texts of 3 to 32 bytes.
pub(crate) fn mention_rows<'b>(
    rows: &'b [Value],
    names: &mut Vec<&'b str>,
    texts: &mut Vec<&'b str>,
) -> Result<(), OutOfMemory>
    ensures names { OnOk result (Adds names.old.items names.new.items (meant.item_names (vals (views rows.now)))) }
    ensures texts { OnOk result (AddsShort texts.old.items texts.new.items (meant.item_texts (vals (views rows.now)))) }
{
    for row in rows {
        mention(row, names, texts)?;
    }
    Ok(())
}

/// Appends the text, if it has 3 to 32 bytes.
fn mention_text<'b>(text: &'b str, texts: &mut Vec<&'b str>) -> Result<(), OutOfMemory>
    ensures { OnOk result (AddsShort texts.old.items texts.new.items (text.now ∷ [])) }
{
    if 3 <= text.len() && text.len() <= 32 {
        texts.push(text)?;
    }
    Ok(())
}

#[cycle(mention)]
fn mention<'b>(
    value: &'b Value,
    names: &mut Vec<&'b str>,
    texts: &mut Vec<&'b str>,
) -> Result<(), OutOfMemory>
    ensures names { OnOk result (Adds names.old.items names.new.items (meant.names (view value.now))) }
    ensures texts { OnOk result (AddsShort texts.old.items texts.new.items (meant.texts (view value.now))) }
{
    match value {
        Value::Text(text) => mention_text(text.as_str(), texts),
        Value::List(items) => mention_items(items, names, texts),
        Value::Struct(pairs) => mention_pairs(pairs, names, texts),
        _ => Ok(()),
    }
}

#[cycle(mention)]
fn mention_items<'b>(
    items: &'b Items,
    names: &mut Vec<&'b str>,
    texts: &mut Vec<&'b str>,
) -> Result<(), OutOfMemory>
    ensures names { OnOk result (Adds names.old.items names.new.items (meant.item_names (vals items.now))) }
    ensures texts { OnOk result (AddsShort texts.old.items texts.new.items (meant.item_texts (vals items.now))) }
{
    for item in items.as_slice() {
        mention(item, names, texts)?;
    }
    Ok(())
}

#[cycle(mention)]
fn mention_pairs<'b>(
    pairs: &'b Pairs,
    names: &mut Vec<&'b str>,
    texts: &mut Vec<&'b str>,
) -> Result<(), OutOfMemory>
    ensures names { OnOk result (Adds names.old.items names.new.items (meant.pair_names (fields pairs.now))) }
    ensures texts { OnOk result (AddsShort texts.old.items texts.new.items (meant.pair_texts (fields pairs.now))) }
{
    for at in 0..pairs.len() {
        let (name, value) = pair_at(pairs, at);
        names.push(name)?;
        mention(value, names, texts)?;
    }
    Ok(())
}
