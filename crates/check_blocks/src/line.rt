//! The line of a file whose blocks are good.
ghost use Rattle.std.specs.Prelude.{◌≡◌, ◌^◌, ◌<◌, ◌≤◌, length, IfOk};
ghost use Rattle.scan_meaning.specs.Checks as checks;
ghost use Rattle.check_blocks.specs.Tested.{rows_of};

use snel_values::OutOfMemory;
use std::alloc::Global;
use time_index::Entry;

/// The line of a sound file: its name, and how many blocks and rows it has.
pub fn check_line(alloc: Global, name: &str, entries: &[Entry]) -> Result<String, OutOfMemory>
    requires few { length entries.now ≤ 2 ^ 20 }
    ensures { IfOk result (λ line. line.bytes.items ≡ checks.check_line name.now entries.now) }
{
    let blocks = entries.len();
    let rows = count_rows(entries);
    match format!(in alloc; "{name}: blocks {blocks}, rows {rows}\n") {
        Ok(line) => Ok(line),
        Err(_) => Err(OutOfMemory),
    }
}

// How many rows the blocks of these entries have.
fn count_rows(entries: &[Entry]) -> u64
    requires few { length entries.now ≤ 2 ^ 20 }
    ensures { result ≡ rows_of entries.now }
{
    let mut rows = 0;
    for number in 0..entries.len() {
        rows += rows_in(&entries[number]);
    }
    rows
}

// How many rows the block of an entry has.
fn rows_in(entry: &Entry) -> u64
    ensures rows { result ≡ entry.now.rows }
    ensures few { result < 2 ^ 32 }
{
    u64::from(entry.rows)
}
