//! Adding to the file that is made.
ghost use Rattle.std.specs.Prelude.{◌≡◌, ◌⊎◌, ℕ, length, take, IfOk, IfErr, OnOk, OnErr, IsSome, IsErr, IsErrOf};
ghost use Rattle.std.specs.Option.{ForSome, option_map};
ghost use Rattle.pack_blocks.specs.Writing.{IsGoing};
ghost use Rattle.snel_device.specs.Causes.{HasCause};
ghost use Rattle.snel_device.specs.Contents.{Extends};
ghost use Rattle.json_pack.specs.Packs.{sum_view};
ghost use Rattle.json_pack.specs.Ending.{EndsFile, BreaksFile, SumsUp};

use crate::packer::PackedRows;
use crate::sums::{PackFault, PackSum};
use snel_device::{Failed, Files};
use std::alloc::Global;

/// Adds the piece at the end of the file, without a call where it is empty.
pub(crate) fn put_piece<F: Files>(name: &str, piece: &[u8], files: &mut F) -> Result<(), Failed>
    requires { ForSome (F.told files.old) (λ told. IsSome (told name.now)) }
    ensures grown { OnOk result (Extends (F.told files.old) (F.told files.new) name.now piece.now) }
    ensures cut { OnErr result ((n : ℕ)
        × Extends (F.told files.old) (F.told files.new) name.now (take n piece.now)) }
    ensures fault { HasCause (F.write_faults files.old) (F.write_faults files.new) (IsErr result) }
    ensures same_misses { F.misses files.new ≡ F.misses files.old }
    ensures same_read_faults { F.read_faults files.new ≡ F.read_faults files.old }
    ensures same_taken { F.taken files.new ≡ F.taken files.old }
{
    if piece.is_empty() {
        return Ok(());
    }
    files.append(name, piece)
}

/// Adds what ends the file of the rows: the last block, the index and the tail. `field` is the indexed field.
pub(crate) fn end_file<F: Files>(
    alloc: Global,
    name: &str,
    field: Option<&str>,
    rows: PackedRows,
    files: &mut F,
) -> Result<PackSum, PackFault>
    requires there { ForSome (F.told files.old) (λ told. IsSome (told name.now)) }
    requires rows { IsGoing (option_map (λ s. s.now) field) rows.writer }
    ensures file { OnOk result (EndsFile (option_map (λ s. s.now) field.entry) rows.writer
        (F.told files.old) (F.told files.new) name.now) }
    ensures sum { IfOk result (λ sum. SumsUp (option_map (λ s. s.now) field.entry) rows (sum_view sum)) }
    ensures broken { OnErr result (BreaksFile (option_map (λ s. s.now) field.entry) rows.writer
        (F.told files.old) (F.told files.new) name.now) }
    ensures only { IfErr result (λ f. (f ≡ PackFault.WriteFault) ⊎ (f ≡ PackFault.OutOfMemory)) }
    ensures fault { HasCause (F.write_faults files.old) (F.write_faults files.new)
        (IsErrOf result PackFault.WriteFault) }
    ensures same_misses { F.misses files.new ≡ F.misses files.old }
    ensures same_read_faults { F.read_faults files.new ≡ F.read_faults files.old }
    ensures same_taken { F.taken files.new ≡ F.taken files.old }
{
    let dropped = rows.dropped;
    let last = match rows.writer.finish(alloc, field) {
        Ok(last) => last,
        Err(_) => return Err(PackFault::OutOfMemory),
    };
    match files.append(name, last.bytes.as_slice()) {
        Ok(()) => Ok(PackSum {
            rows: last.rows,
            blocks: last.blocks,
            dropped,
            bytes: last.length,
        }),
        Err(_) => Err(PackFault::WriteFault),
    }
}
