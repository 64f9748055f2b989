ghost use Rattle.std.specs.Prelude.{◌≡◌, ◌≤◌, ◌++◌, ℕ, List, length, flat_map, OnOk};
ghost use Rattle.std.specs.Int.{to_be_bytes, cast_unsigned, w16, w32, w64};
ghost use Rattle.time_index.specs.Heads.{head_bytes};
ghost use Rattle.file_meaning.specs.Files.{index_bytes, tail_bytes, entry_bytes, IsFile, StandEndToEnd};

use crate::entry::Entry;
use file_meaning::{MOST_BLOCKS, MOST_NAME_BYTES};
use snel_values::{Bytes, OutOfMemory};

/// Adds the index of these entries and this indexed field, and the tail that names where the index starts: what follows
/// the blocks in a block file. The blocks of the entries stand end to end from byte 0 to `start`; behind bytes of that many
/// the whole is a block file. For want of memory some of it may stand behind the bytes.
pub fn write_index(
    entries: &[Entry],
    field: &str,
    start: u64,
    into: &mut Bytes,
) -> Result<(), OutOfMemory>
    requires few { length entries.now ≤ MOST_BLOCKS }
    requires short_name { length field.now ≤ MOST_NAME_BYTES }
    requires stand { StandEndToEnd 0 entries.now start }
    ensures added { OnOk result (into.new ≡ into.old
        ++ (index_bytes field.now entries.now ++ tail_bytes start)) }
    ensures file { (before : List ℕ) → length (before ++ into.old) ≡ start
        → OnOk result (IsFile (before ++ into.new) field.now entries.now) }
{
    write_head(entries.len() as u32, field, into)?;
    write_entries(entries, into)?;
    write_tail(start, into)
}

// The magic, the field's name and the count of entries.
fn write_head(count: u32, field: &str, into: &mut Bytes) -> Result<(), OutOfMemory>
    requires { length field.now ≤ MOST_NAME_BYTES }
    ensures { OnOk result (into.new ≡ into.old ++ head_bytes field.now count) }
{
    into.push_all(b"SNX1")?;
    into.push_all(&(field.len() as u16).to_be_bytes())?;
    into.push_all(field.as_bytes())?;
    put_u32(count, into)
}

fn write_entries(entries: &[Entry], into: &mut Bytes) -> Result<(), OutOfMemory>
    ensures { OnOk result (into.new ≡ into.old ++ flat_map entry_bytes entries.now) }
{
    for entry in entries {
        write_entry(entry, into)?;
    }
    Ok(())
}

fn write_entry(entry: &Entry, into: &mut Bytes) -> Result<(), OutOfMemory>
    ensures { OnOk result (into.new ≡ into.old ++ entry_bytes entry.now) }
{
    put_u64(entry.start, into)?;
    put_u32(entry.length, into)?;
    put_u32(entry.rows, into)?;
    put_i64(entry.least, into)?;
    put_i64(entry.greatest, into)
}

// Where the index starts, and the magic.
fn write_tail(start: u64, into: &mut Bytes) -> Result<(), OutOfMemory>
    ensures { OnOk result (into.new ≡ into.old ++ tail_bytes start) }
{
    into.push_all(&start.to_be_bytes())?;
    into.push_all(b"SNX1")
}

// Numbers in big endian order.
fn put_u32(number: u32, into: &mut Bytes) -> Result<(), OutOfMemory>
    ensures { OnOk result (into.new ≡ into.old ++ to_be_bytes w32 number) }
{
    into.push_all(&number.to_be_bytes())
}

fn put_u64(number: u64, into: &mut Bytes) -> Result<(), OutOfMemory>
    ensures { OnOk result (into.new ≡ into.old ++ to_be_bytes w64 number) }
{
    into.push_all(&number.to_be_bytes())
}

fn put_i64(number: i64, into: &mut Bytes) -> Result<(), OutOfMemory>
    ensures { OnOk result (into.new ≡ into.old ++ to_be_bytes w64 (cast_unsigned w64 number)) }
{
    into.push_all(&number.to_be_bytes())
}
