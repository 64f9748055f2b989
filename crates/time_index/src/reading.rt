ghost use Rattle.std.specs.Prelude.{◌≡◌, ◌+◌, ◌-◌, ◌*◌, ◌^◌, ◌≤◌, length, IfOk, IfSome};
ghost use Rattle.std.specs.Option.{option_map};
ghost use Rattle.file_meaning.specs.Files.{tail_bytes, SpellsIndex};
ghost use Rattle.file_meaning.specs.Reading.{entry_at, stands_at, entries_at, named_at, index_in, gap_in};

use crate::entries::Entries;
use crate::entry::Entry;
use crate::index::Index;
use crate::numbers::{has_magic, u16_at, u32_at, u64_at};
use file_meaning::{
    LEAST_INDEX_BYTES, MOST_BLOCKS, MOST_ENTRY_BYTES, MOST_ENTRY_ROWS, MOST_INDEX_BYTES,
    MOST_NAME_BYTES,
};
use snel_values::{OutOfMemory, Text};
use std::alloc::Global;

// What the 32 bytes at a place say of a block.
#[tactic(auto, unfolding(file_meaning::specs::Reading::entry_at))]
pub(crate) fn entry_at(bytes: &[u8], at: usize) -> Entry
    requires { at + 32 ≤ length bytes.now }
    ensures { result ≡ entry_at at bytes.now }
{
    Entry {
        start: u64_at(bytes, at),
        length: u32_at(bytes, at + 8),
        rows: u32_at(bytes, at + 12),
        least: u64_at(bytes, at + 16).cast_signed(),
        greatest: u64_at(bytes, at + 24).cast_signed(),
    }
}

// Whether the entry is of a block that starts there, and is in range.
#[tactic(auto, unfolding(file_meaning::specs::Reading::stands_at))]
pub(crate) fn stands_at(from: u64, entry: &Entry) -> bool
    ensures { result ≡ stands_at from entry.now }
{
    entry.start == from
        && 1 <= entry.length
        && entry.length <= MOST_ENTRY_BYTES
        && 1 <= entry.rows
        && entry.rows <= MOST_ENTRY_ROWS
}

// So many entries at a place, up to the end of the bytes, of blocks that stand end to end from the
// start of the file up to `to`. `None` where the bytes aren't such entries.
pub(crate) fn entries_at(
    alloc: Global,
    bytes: &[u8],
    at: usize,
    count: usize,
    to: u64,
) -> Result<Option<Entries>, OutOfMemory>
    requires few { count ≤ MOST_BLOCKS }
    requires long { length bytes.now ≡ at + 32 * count }
    ensures { IfOk result (λ entries. entries ≡ entries_at 0 to count at bytes.now) }
{
    let mut entries = Entries::new(alloc);
    let mut from = 0;
    for i in 0..count {
        let entry = entry_at(bytes, at + 32 * i);
        if !stands_at(from, &entry) {
            return Ok(None);
        }
        entries.push(entry)?;
        from += u64::from(entry.length);
    }
    Ok(if from == to { Some(entries) } else { None })
}

// The field's name of `size` bytes at place 6, and behind it `count` entries up to the end of the
// bytes. `None` where the bytes aren't so.
fn named_at(
    alloc: Global,
    bytes: &[u8],
    size: usize,
    count: usize,
    to: u64,
) -> Result<Option<Index>, OutOfMemory>
    ensures { IfOk result (λ index. option_map (λ i. (i.field, i.entries)) index
        ≡ named_at to size count bytes.now) }
{
    if size > MOST_NAME_BYTES || count > MOST_BLOCKS || bytes.len() != 10 + size + 32 * count {
        return Ok(None);
    }
    let Ok(name) = str::from_utf8(&bytes[6..6 + size]) else {
        return Ok(None);
    };
    let Some(entries) = entries_at(alloc, bytes, 10 + size, count, to)? else {
        return Ok(None);
    };
    let field = Text::of(alloc, name)?;
    Ok(Some(Index { field, entries }))
}

// The index that the bytes are, of blocks up to `to`. `None` where they are none.
pub(crate) fn index_in(alloc: Global, bytes: &[u8], to: u64) -> Result<Option<Index>, OutOfMemory>
    requires { LEAST_INDEX_BYTES ≤ length bytes.now }
    ensures read { IfOk result (λ index. option_map (λ i. (i.field, i.entries)) index
        ≡ index_in to bytes.now) }
    ensures spelled { IfOk result (λ index. IfSome index
        (λ i. SpellsIndex bytes.now i.field i.entries to)) }
{
    if !has_magic(bytes, 0) {
        return Ok(None);
    }
    let size = usize::from(u16_at(bytes, 4));
    if bytes.len() < 10 + size {
        return Ok(None);
    }
    let count = u32_at(bytes, 6 + size) as usize;
    named_at(alloc, bytes, size, count, to)
}

// How many bytes lie between the start that a tail names and the tail, which stands at `at`.
// `None` where no index can lie there.
#[tactic(auto, unfolding(file_meaning::specs::Reading::gap_in))]
pub(crate) fn gap_in(at: u64, tail: &[u8]) -> Option<u64>
    requires { length tail.now ≡ 12 }
    ensures gap { result ≡ gap_in at tail.now }
    ensures least { IfSome result (λ gap. LEAST_INDEX_BYTES ≤ gap) }
    ensures most { IfSome result (λ gap. gap ≤ MOST_INDEX_BYTES) }
    ensures within { IfSome result (λ gap. gap ≤ at) }
    ensures spelled { IfSome result (λ gap. tail.now ≡ tail_bytes (at - gap)) }
{
    let gap = at.saturating_sub(u64_at(tail, 0));
    if has_magic(tail, 8) && LEAST_INDEX_BYTES <= gap && gap <= MOST_INDEX_BYTES {
        Some(gap)
    } else {
        None
    }
}
