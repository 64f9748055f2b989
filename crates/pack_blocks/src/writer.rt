//! Rows that come one after the other, as blocks.
ghost use Rattle.std.specs.Prelude.{◌≡◌, ◌≤◌, ◌<◌, ◌+◌, ◌^◌, ◌-◌, min, [], ◌∷◌, ◌++◌, ◌&&◌, nat_le, nat_lt, length, IfOk, OnOk, IsErrOf};
ghost use Rattle.std.specs.Option.{option_map};
ghost use Rattle.snel_values.specs.View.{view, views};
ghost use Rattle.pack_meaning.specs.PackedFiles as meant;
ghost use Rattle.pack_blocks.specs.Writing.{IsWriting, CanTake, Adds, IsFullFor, MayClose};

use crate::closing::know_field;
use file_meaning::MOST_BLOCKS;
use ion_write::weight;
use snel_values::{Bytes, OutOfMemory, Value};
use std::alloc::Global;
use time_index::Entries;

/// The rows of the open block, and what the index will say of the blocks before it.
///
/// The bytes of a block are given away when it is closed: memory holds the rows of the open block, and an entry of each block.
#[derive(Drop)]
pub struct BlockWriter {
    pub(crate) most: u64,
    pub(crate) weight: u64,
    pub(crate) rows: Vec<Value>,
    pub(crate) entries: Entries,
    /// How many bytes were given away.
    pub(crate) written: u64,
    /// How many rows were added; it stands still at its type's end.
    pub(crate) count: u64,
}

/// Why a row isn't added.
#[derive(Clone, Copy, Debug, PartialEq, Eq)]
pub enum RowFault {
    /// It would open one block more than a file may have.
    Full,
    /// No memory was left.
    OutOfMemory,
}

impl From<OutOfMemory> for RowFault {
    ghost use Rattle.std.specs.Prelude.{◌≡◌};
    ghost use Rattle.pack_blocks.specs.declared.writer.RowFault.TheVariants as fault;

    ghost from_gives = { λ _ e. e ≡ fault.OutOfMemory };

    fn from(_error: OutOfMemory) -> RowFault {
        RowFault::OutOfMemory
    }
}

impl BlockWriter {
    /// No rows, which will be cut into blocks of at most so much weight, and of which this field will be indexed.
    #[tactic(auto, using(crate::proofs::Writing::writes_none))]
    pub fn new(alloc: Global, field: Option<&str>, most: u32) -> BlockWriter
        requires low { most ≤ 1_000_000 }
        requires name { length (meant.field_name (option_map (λ s. s.now) field)) ≤ 255 }
        ensures { IsWriting (option_map (λ s. s.now) field.entry) most [] [] result }
    {
        know_field(field);
        BlockWriter {
            most: u64::from(most),
            weight: 0,
            rows: Vec::new(alloc),
            entries: Entries::new(alloc),
            written: 0,
            count: 0,
        }
    }

    /// Adds a row, and gives the bytes of the block that it closes: none where it fits into the open one. `field` is the
    /// indexed field.
    ///
    /// `Full` comes exactly where the row would open one block more than a file may have, and leaves the rows as they were.
    pub fn add(&mut self, alloc: Global, row: Value, field: Option<&str>) -> Result<Bytes, RowFault>
        requires { CanTake (option_map (λ s. s.now) field) self.old (view row) }
        ensures added { IfOk result (λ bytes.
            Adds (option_map (λ s. s.now) field.entry) (view row) self.old self.new bytes) }
        ensures full { IsErrOf result RowFault.Full
            → IsFullFor (option_map (λ s. s.now) field.entry) (view row) self.old }
    {
        row.know();
        let weight = weight(&row);
        if self.takes(weight) {
            match self.join(row, weight) {
                Ok(()) => Ok(Bytes::new(alloc)),
                Err(fault) => Err(fault),
            }
        } else {
            match self.open(alloc, row, weight, field) {
                Ok(closed) => Ok(closed),
                Err(fault) => Err(fault),
            }
        }
    }

    /// Whether a row of this weight fits into the open block.
    fn takes(&self, weight: u64) -> bool
        ensures { result ≡ (nat_le (min (self.now.weight + weight) (2 ^ 64 - 1)) self.now.most
            && nat_lt (length self.now.rows.items) 65_536) }
    {
        self.weight.saturating_add(weight) <= self.most && self.rows.len() < 65_536
    }

    /// Adds a row of this weight to the open block.
    fn join(&mut self, row: Value, weight: u64) -> Result<(), RowFault>
        ensures few { OnOk result (length self.old.entries + 1 ≤ MOST_BLOCKS) }
        ensures full { IsErrOf result RowFault.Full → MOST_BLOCKS < length self.old.entries + 1 }
        ensures rows { OnOk result (self.new.rows.items ≡ self.old.rows.items ++ row ∷ []) }
        ensures weight { OnOk result (self.new.weight ≡ min (self.old.weight + weight) (2 ^ 64 - 1)) }
        ensures most { OnOk result (self.new.most ≡ self.old.most) }
        ensures entries { OnOk result (self.new.entries ≡ self.old.entries) }
        ensures written { OnOk result (self.new.written ≡ self.old.written) }
        ensures count { OnOk result (self.new.count ≡ min (self.old.count + 1) (2 ^ 64 - 1)) }
    {
        if self.entries.len() >= MOST_BLOCKS {
            return Err(RowFault::Full);
        }
        match self.rows.push(row) {
            Ok(()) => {}
            Err(_) => return Err(RowFault::OutOfMemory),
        }
        self.weight = self.weight.saturating_add(weight);
        self.count = self.count.saturating_add(1);
        Ok(())
    }

    /// Closes the open block, and opens the next with a row of this weight.
    fn open(
        &mut self,
        alloc: Global,
        row: Value,
        weight: u64,
        field: Option<&str>,
    ) -> Result<Bytes, RowFault>
        requires { MayClose self.old }
        ensures few { OnOk result (length self.old.entries + 2 ≤ MOST_BLOCKS) }
        ensures full { IsErrOf result RowFault.Full → MOST_BLOCKS < length self.old.entries + 2 }
        ensures block { IfOk result (λ bytes. bytes ≡ meant.block_of (views self.old.rows.items)) }
        ensures light { IfOk result (λ bytes. length bytes ≤ 1_000_032) }
        ensures rows { OnOk result (self.new.rows.items ≡ row ∷ []) }
        ensures weight { OnOk result (self.new.weight ≡ weight) }
        ensures most { OnOk result (self.new.most ≡ self.old.most) }
        ensures entries { OnOk result (self.new.entries ≡ self.old.entries
            ++ meant.entry_of (option_map (λ s. s.now) field.entry) self.old.written (views self.old.rows.items) ∷ []) }
        ensures written { IfOk result (λ bytes. self.new.written ≡ self.old.written + length bytes) }
        ensures count { OnOk result (self.new.count ≡ min (self.old.count + 1) (2 ^ 64 - 1)) }
    {
        if self.entries.len() >= MOST_BLOCKS - 1 {
            return Err(RowFault::Full);
        }
        let block = match self.close(alloc, field) {
            Ok(block) => block,
            Err(_) => return Err(RowFault::OutOfMemory),
        };
        match self.rows.push(row) {
            Ok(()) => {}
            Err(_) => return Err(RowFault::OutOfMemory),
        }
        self.weight = weight;
        self.count = self.count.saturating_add(1);
        Ok(block)
    }
}
