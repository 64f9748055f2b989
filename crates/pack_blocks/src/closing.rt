//! Closing the open block.
ghost use Rattle.std.specs.Prelude.{◌≡◌, ◌≤◌, ◌+◌, ◌∷◌, [], ◌++◌, length, sum_by, IfOk, OnOk};
ghost use Rattle.std.specs.Option.{option_map};
ghost use Rattle.std.specs.Str.{IsUtf8};
ghost use Rattle.snel_values.specs.View.{views};
ghost use Rattle.write_meaning.specs.Weights.{weight};
ghost use Rattle.write_meaning.specs.Standing.{AreWritableRows};
ghost use Rattle.pack_meaning.specs.PackedFiles as meant;
ghost use Rattle.pack_blocks.specs.Writing.{MayClose};

use crate::span::span_of;
use crate::writer::BlockWriter;
use ion_write::block_of;
use snel_values::{Bytes, OutOfMemory, Value};
use std::alloc::Global;
use time_index::Entry;

impl BlockWriter {
    /// The bytes of the open block, which is closed and entered into the index.
    pub(crate) fn close(&mut self, alloc: Global, field: Option<&str>) -> Result<Bytes, OutOfMemory>
        requires { MayClose self.old }
        ensures block { IfOk result (λ bytes. bytes ≡ meant.block_of (views self.old.rows.items)) }
        ensures light { IfOk result (λ bytes. length bytes ≤ 1_000_032) }
        ensures rows { OnOk result (self.new.rows.items ≡ []) }
        ensures entries { OnOk result (self.new.entries ≡ self.old.entries
            ++ meant.entry_of (option_map (λ s. s.now) field.entry) self.old.written (views self.old.rows.items) ∷ []) }
        ensures written { IfOk result (λ bytes. self.new.written ≡ self.old.written + length bytes) }
        ensures most { OnOk result (self.new.most ≡ self.old.most) }
        ensures count { OnOk result (self.new.count ≡ self.old.count) }
    {
        let block = made_block(alloc, self.rows.as_slice())?;
        let (least, greatest) = span_of(self.rows.as_slice(), field);
        let entry = Entry {
            start: self.written,
            length: block.len() as u32,
            rows: self.rows.len() as u32,
            least,
            greatest,
        };
        self.entries.push(entry)?;
        self.written += block.len() as u64;
        self.rows.clear();
        Ok(block)
    }
}

/// The block of the rows.
#[tactic(auto, using(crate::proofs::Files::written_is))]
fn made_block(alloc: Global, rows: &[Value]) -> Result<Bytes, OutOfMemory>
    requires some { 1 ≤ length rows.now }
    requires few { length rows.now ≤ 65_536 }
    requires writable { AreWritableRows (views rows.now) }
    requires light { sum_by weight (views rows.now) ≤ 1_000_000 }
    ensures block { IfOk result (λ bytes. bytes ≡ meant.block_of (views rows.now)) }
    ensures light { IfOk result (λ bytes. length bytes ≤ 1_000_032) }
{
    block_of(alloc, rows)
}

/// Tells what holds of the name of every field.
pub(crate) fn know_field(field: Option<&str>)
    ensures { IsUtf8 (meant.field_name (option_map (λ s. s.now) field.entry)) }
{
    match field {
        Some(name) => know_text(name),
        None => know_text(""),
    }
}

/// Tells what holds of every text.
fn know_text(text: &str)
    ensures { IsUtf8 text.now }
{
    let _ = text;
}
