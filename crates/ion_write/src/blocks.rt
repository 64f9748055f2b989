//! Whole blocks.
ghost use Rattle.std.specs.Prelude.{◌≡◌, ◌≤◌, ◌+◌, ◌++◌, length, sum_by, OnOk, IfOk};
ghost use Rattle.snel_values.specs.View.{views};
ghost use Rattle.value_meaning.specs.Val.{vals};
ghost use Rattle.value_meaning.specs.Sound.{AreSound};
ghost use Rattle.write_meaning.specs.Weights.{weight};
ghost use Rattle.write_meaning.specs.Standing.{AreWritableRows};
ghost use Rattle.write_meaning.specs.Encoding.{cell_bytes, encode_items};
ghost use Rattle.write_meaning.specs.BlockBytes as meant;
ghost use Rattle.ion_write.specs.Mentions.{shown};
ghost use Rattle.ion_write.specs.Written.{AreWritten, AreBlockOf};

use crate::choosing::table_of;
use crate::heads::{close_cell, put_cell};
use crate::numbers::put_var_uint;
use crate::table::Table;
use crate::values::append_value;
use snel_values::{Bytes, OutOfMemory, Value};
use std::alloc::Global;

/// The block of 1 to 65,536 rows, each of which [`writable`](crate::writable) passes, that weigh at most 1,000,000
/// together. It has at most 32 bytes more than they weigh.
pub fn block_of(alloc: Global, rows: &[Value]) -> Result<Bytes, OutOfMemory>
    requires some { 1 ≤ length rows.now }
    requires few { length rows.now ≤ 65_536 }
    requires writable { AreWritableRows (views rows.now) }
    requires light { sum_by weight (views rows.now) ≤ 1_000_000 }
    ensures written { IfOk result (λ bytes. AreWritten (views rows.now) bytes) }
    ensures block { IfOk result (λ bytes. AreBlockOf (views rows.now) bytes) }
    ensures light { IfOk result (λ bytes. length bytes ≤ sum_by weight (views rows.now) + 32) }
{
    know_rows(rows);
    write_block(alloc, rows)
}

/// What is written for the rows under their table.
pub(crate) fn write_block(alloc: Global, rows: &[Value]) -> Result<Bytes, OutOfMemory>
    ensures { IfOk result (λ bytes. AreWritten (views rows.now) bytes) }
{
    let table = table_of(alloc, rows)?;
    let mut out = Vec::new(alloc);
    put_block(&mut out, rows, &table)?;
    let mut block = Bytes::new(alloc);
    block.push_all(out.as_slice())?;
    Ok(block)
}

/// Appends the block of the rows under the table.
#[tactic(auto, unfolding(write_meaning::specs::BlockBytes::block_bytes))]
fn put_block(out: &mut Vec<u8>, rows: &[Value], table: &Table<'_>) -> Result<(), OutOfMemory>
    ensures { OnOk result (out.new.items ≡ out.old.items ++ meant.block_bytes table.now (views rows.now)) }
{
    out.extend_from_slice(&[0xE0, 0x01, 0x00, 0xEA])?;
    put_table(out, table)?;
    put_rows(out, rows, table)
}

/// Appends the symbol table.
#[tactic(auto, unfolding(write_meaning::specs::BlockBytes::table_bytes, write_meaning::specs::BlockBytes::content_bytes))]
fn put_table(out: &mut Vec<u8>, table: &Table<'_>) -> Result<(), OutOfMemory>
    ensures { OnOk result (out.new.items ≡ out.old.items ++ meant.table_bytes table.now) }
{
    let start = out.len();
    put_var_uint(out, 1)?;
    put_var_uint(out, 3)?;
    put_listing(out, table)?;
    close_cell(out, start, 14)
}

/// Appends the struct of the one pair 7, a list of the texts.
#[tactic(auto, unfolding(write_meaning::specs::BlockBytes::listing_bytes))]
fn put_listing(out: &mut Vec<u8>, table: &Table<'_>) -> Result<(), OutOfMemory>
    ensures { OnOk result (out.new.items ≡ out.old.items ++ cell_bytes 13 (meant.listing_bytes table.now)) }
{
    let start = out.len();
    put_var_uint(out, 7)?;
    let inner = out.len();
    put_texts(out, table.as_slice())?;
    close_cell(out, inner, 11)?;
    close_cell(out, start, 13)
}

/// Appends string cells of the texts, end to end.
fn put_texts(out: &mut Vec<u8>, texts: &[&str]) -> Result<(), OutOfMemory>
    ensures { OnOk result (out.new.items ≡ out.old.items ++ meant.texts_bytes (shown texts.now)) }
{
    for text in texts {
        put_cell(out, 8, text.as_bytes())?;
    }
    Ok(())
}

/// Appends the cells of the rows, end to end.
fn put_rows(out: &mut Vec<u8>, rows: &[Value], table: &Table<'_>) -> Result<(), OutOfMemory>
    ensures { OnOk result (out.new.items ≡ out.old.items ++ encode_items table.now (vals (views rows.now))) }
{
    for row in rows {
        append_value(out, row, table)?;
    }
    Ok(())
}

/// Tells what holds of all rows.
fn know_rows(rows: &[Value])
    ensures { AreSound (vals (views rows.now)) }
{
    for row in rows {
        row.know();
    }
}
