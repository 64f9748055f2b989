//! The end of a block file: its last block, and the index.
ghost use Rattle.std.specs.Prelude.{◌≡◌, ◌≤◌, length, IfOk};
ghost use Rattle.std.specs.Option.{option_map};
ghost use Rattle.pack_meaning.specs.PackedFiles as meant;
ghost use Rattle.pack_blocks.specs.Writing.{IsGoing, ClosesAll, Finishes};

use crate::writer::BlockWriter;
use snel_values::{Bytes, OutOfMemory};
use std::alloc::Global;
use time_index::write_index;

/// What ends a file, and the counts of the whole.
#[derive(Drop)]
pub struct Finished {
    /// The last block, if the file has any, the index and the tail.
    pub bytes: Bytes,
    /// The rows of the file; the count stands still at its type's end.
    pub rows: u64,
    /// The blocks of the file.
    pub blocks: u32,
    /// The bytes of the whole file.
    pub length: u64,
}

impl BlockWriter {
    /// What follows the blocks that were given away: with them it is the file of all rows. `field` is the indexed field.
    pub fn finish(self, alloc: Global, field: Option<&str>) -> Result<Finished, OutOfMemory>
        requires { IsGoing (option_map (λ s. s.now) field) self }
        ensures { IfOk result (λ finished.
            Finishes (option_map (λ s. s.now) field.entry) self finished) }
    {
        let mut writer = self;
        let before = writer.written;
        let mut bytes = writer.close_last(alloc, field)?;
        let start = writer.written;
        write_index(writer.entries.as_slice(), name_of(field), start, &mut bytes)?;
        Ok(Finished {
            rows: writer.count,
            blocks: writer.entries.len() as u32,
            length: before + bytes.len() as u64,
            bytes,
        })
    }

    /// The bytes of the open block, if it has a row.
    fn close_last(&mut self, alloc: Global, field: Option<&str>) -> Result<Bytes, OutOfMemory>
        requires { IsGoing (option_map (λ s. s.now) field) self.old }
        ensures { IfOk result (λ bytes.
            ClosesAll (option_map (λ s. s.now) field.entry) self.old self.new bytes) }
    {
        if self.rows.as_slice().is_empty() {
            Ok(Bytes::new(alloc))
        } else {
            let last = self.close(alloc, field)?;
            Ok(last)
        }
    }
}

/// The name of the indexed field, empty where none is.
fn name_of(field: Option<&str>) -> &str
    ensures { result.now ≡ meant.field_name (option_map (λ s. s.now) field.entry) }
{
    match field {
        Some(name) => name,
        None => "",
    }
}
