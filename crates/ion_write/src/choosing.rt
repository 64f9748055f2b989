//! Which texts a block's symbol table has.
ghost use Rattle.std.specs.Prelude.{IfOk};
ghost use Rattle.snel_values.specs.View.{views};
ghost use Rattle.value_meaning.specs.Val.{vals};
ghost use Rattle.write_meaning.specs.BlockTables.{IsTableOf};
ghost use Rattle.ion_write.specs.Mentions.{shown, AreInOrder, AreRepeated};

use crate::mentions::mention_rows;
use crate::table::Table;
use snel_values::{OutOfMemory, Value};
use std::alloc::Global;

/// The symbol table of a block of these rows: each name of their structs, at every depth, and each text of 3 to 32 bytes
/// that occurs at least twice among their values.
pub fn table_of<'b>(alloc: Global, rows: &'b [Value]) -> Result<Table<'b>, OutOfMemory>
    ensures { IfOk result (λ table. IsTableOf (vals (views rows.now)) table) }
{
    let mut names = Vec::new(alloc);
    let mut texts = Vec::new(alloc);
    mention_rows(rows, &mut names, &mut texts)?;
    put_in_order(&mut names);
    let mut twice = repeated(alloc, texts)?;
    put_in_order(&mut twice);
    names.append(&mut twice)?;
    put_in_order(&mut names);
    Ok(Table::of_texts(names))
}

/// Sorts the texts by bytes, and leaves each once.
fn put_in_order(texts: &mut Vec<&str>)
    ensures { AreInOrder (shown texts.old.items) (shown texts.new.items) }
{
    texts.sort_unstable();
    texts.dedup();
}

/// The texts that are there at least twice, maybe more than once each.
fn repeated<'b>(alloc: Global, mut all: Vec<&'b str>) -> Result<Vec<&'b str>, OutOfMemory>
    ensures { IfOk result (λ twice. AreRepeated (shown all.entry.items) (shown twice.items)) }
{
    all.sort_unstable();
    let mut twice = Vec::new(alloc);
    for at in 1..all.len() {
        let text = all[at];
        if all[at - 1] == text {
            twice.push(text)?;
        }
    }
    Ok(twice)
}
