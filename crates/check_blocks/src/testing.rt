//! Tests one block.
ghost use Rattle.std.specs.Prelude.{◌≡◌, ◌<◌, ℕ, List, Some, length, IfOk, IfErr, IsErrOf};
ghost use Rattle.std.specs.Option.{ForSome};
ghost use Rattle.snel_device.specs.Causes.{HasCause};
ghost use Rattle.scan_meaning.specs.Blocks as blocks;
ghost use Rattle.scan_meaning.specs.Batches as batches;
ghost use Rattle.scan_files.specs.Places.{file_at, IsPlaced};
ghost use Rattle.scan_files.specs.Surveys.{IsReadOrMemory};
ghost use Rattle.check_blocks.specs.Tested.{block_in};

use block_file::{BlockFault, open_block};
use scan_files::{FilesFault, Place, Stored, read_block};
use snel_device::Files;
use snel_values::{OutOfMemory, Words};
use std::alloc::Global;
use time_index::in_range;

/// Reads the block at a place, in a file that indexes this field, and tells whether it is bad.
pub(crate) fn test_place<F: Files>(
    alloc: Global,
    names: &Words,
    place: &Place,
    field: &str,
    files: &mut F,
) -> Result<bool, FilesFault>
    requires named { place.now.file < length names.now }
    requires placed { ForSome (F.told files.old) (λ told. IsPlaced told names.now place.now) }
    ensures tested { IfOk result (λ bad. ForSome (F.told files.old) (λ told. (bytes : List ℕ)
        → file_at told names.now place.now.file ≡ Some bytes
        → bad ≡ batches.is_bad (blocks.block_of bytes field.now place.now))) }
    ensures refused { IfErr result (λ fault. IsReadOrMemory fault) }
    ensures fault { HasCause (F.read_faults files.old) (F.read_faults files.new)
        (IsErrOf result FilesFault.ReadFault) }
    ensures told { F.told files.new ≡ F.told files.old }
    ensures same_misses { F.misses files.new ≡ F.misses files.old }
    ensures same_write_faults { F.write_faults files.new ≡ F.write_faults files.old }
{
    let block = match read_block(alloc, names, place, files) {
        Ok(block) => block,
        Err(fault) => return Err(fault),
    };
    match is_bad(alloc, &block, field) {
        Ok(bad) => Ok(bad),
        Err(OutOfMemory) => Err(FilesFault::OutOfMemory),
    }
}

// Whether the block that was read is damaged, or breaks the range of its entry.
fn is_bad(alloc: Global, block: &Stored, field: &str) -> Result<bool, OutOfMemory>
    ensures { IfOk result (λ bad. bad ≡ batches.is_bad (block_in field.now block.now)) }
{
    let place = block.place;
    let entry = place.entry;
    match open_block(alloc, &block.bytes, entry.rows) {
        Ok(opened) => Ok(!in_range(&opened, &entry, field)),
        Err(BlockFault::Damaged) => Ok(true),
        Err(BlockFault::OutOfMemory) => Err(OutOfMemory),
    }
}
