//! Tests the blocks of a file.
ghost use Rattle.std.specs.Prelude.{◌≡◌, ◌^◌, ◌<◌, ◌≤◌, ℕ, List, Some, length, IfOk, IfErr, IsErrOf};
ghost use Rattle.std.specs.Option.{ForSome};
ghost use Rattle.snel_device.specs.Causes.{HasCause};
ghost use Rattle.scan_files.specs.Places.{file_at};
ghost use Rattle.scan_files.specs.Surveys.{IsReadOrMemory};
ghost use Rattle.check_blocks.specs.Tested.{NamesFirstBad, IsIndexed};

use crate::testing::test_place;
use scan_files::{FilesFault, Place};
use snel_device::Files;
use snel_values::Words;
use std::alloc::Global;
use time_index::Index;

/// Reads and tests each block of the file with this number, in order, up to the first bad one, and answers its number in the
/// file, or none where no block is bad. At most one block is held at a time.
pub fn first_bad<F: Files>(
    alloc: Global,
    names: &Words,
    file: u32,
    index: &Index,
    files: &mut F,
) -> Result<Option<u32>, FilesFault>
    requires named { file < length names.now }
    requires few { length index.now.entries ≤ 2 ^ 20 }
    requires indexed { ForSome (F.told files.old)
        (λ told. IsIndexed (file_at told names.now file) index.now.field index.now.entries) }
    ensures found { IfOk result (λ found. ForSome (F.told files.old) (λ told. (bytes : List ℕ)
        → file_at told names.now file ≡ Some bytes → NamesFirstBad file (record {
          bytes = bytes;
          field = index.now.field;
          entries = index.now.entries;
        }) found)) }
    ensures refused { IfErr result (λ fault. IsReadOrMemory fault) }
    ensures fault { HasCause (F.read_faults files.old) (F.read_faults files.new)
        (IsErrOf result FilesFault.ReadFault) }
    ensures told { F.told files.new ≡ F.told files.old }
    ensures same_misses { F.misses files.new ≡ F.misses files.old }
    ensures same_write_faults { F.write_faults files.new ≡ F.write_faults files.old }
{
    let field = index.field.as_str();
    let entries = index.entries.as_slice();
    for number in 0..entries.len() {
        let place = Place {
            file,
            block: number as u32,
            entry: entries[number],
        };
        match test_place(alloc, names, &place, field, files) {
            Ok(true) => return Ok(Some(number as u32)),
            Ok(false) => {}
            Err(fault) => return Err(fault),
        }
    }
    Ok(None)
}
