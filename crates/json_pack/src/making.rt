//! Making logs.
ghost use Rattle.std.specs.Prelude.{◌≡◌, ◌↔◌, ◌⊎◌, ◌≤◌, ◌<◌, ◌+◌, ℕ, take, OnOk, OnErr, IfOk, IfErr, IsSome, IsErrOf};
ghost use Rattle.std.specs.Option.{ForSome};
ghost use Rattle.snel_device.specs.Causes.{HasCause};
ghost use Rattle.snel_device.specs.Contents.{Sets, Extends};
ghost use Rattle.json_pack.specs.Packs.{sum_view};
ghost use Rattle.json_pack.specs.Making.{made_file, made_sum, HoldsLog, LeavesLogFront, CanMake, MakesRow};

use crate::appending::{end_file, put_piece};
use crate::packer::PackedRows;
use crate::sums::{PackFault, PackSum};
use log_meaning::{rows_are_light, rows_may_be_written};
use log_rows::LogRows;
use pack_blocks::{BlockWriter, RowFault};
use snel_device::{Files, FreshFault};
use snel_values::Bytes;
use std::alloc::Global;

/// The field of times.
const TIME_FIELD: &str = "time";

/// The most weight of a block's rows.
const BLOCK: u32 = 1_000_000;

/// Makes a log: the file of this name with the first rows of the log that starts from this number, so many, in blocks of the
/// default size, with its field of times indexed.
///
/// At `Ok` the file holds just these rows; it is the one file of them. After another answer the file, if this call made it,
/// has a front of that. Memory holds the rows of one block with its bytes, and an entry of each block.
///
/// `Exists` comes exactly where there is a file of this name, and `WriteFault` only where the count of the files' write faults
/// rose; neither `Line` nor `ReadFault` comes.
pub fn make<F: Files>(
    alloc: Global,
    start: u64,
    rows: u32,
    name: &str,
    files: &mut F,
) -> Result<PackSum, PackFault>
    requires few { rows ≤ 1_000_000 }

    ensures file { OnOk result (Sets (F.told files.old) (F.told files.new) name.now
        (made_file start rows)) }
    ensures holds { OnOk result (HoldsLog start rows) }
    ensures sum { IfOk result (λ sum. sum_view sum ≡ made_sum start rows) }
    ensures front { OnErr result (LeavesLogFront start rows (F.told files.old) (F.told files.new)
        name.now) }

    ensures exists { ForSome (F.told files.old) (λ told. IsErrOf result PackFault.Exists
        ↔ IsSome (told name.now)) }
    ensures kept { IsErrOf result PackFault.Exists → F.told files.new ≡ F.told files.old }
    ensures only { IfErr result (λ f. (f ≡ PackFault.Exists) ⊎ (f ≡ PackFault.WriteFault)
        ⊎ (f ≡ PackFault.OutOfMemory)) }
    ensures missed { HasCause (F.misses files.old) (F.misses files.new)
        (IsErrOf result PackFault.Exists) }
    ensures write_fault { HasCause (F.write_faults files.old) (F.write_faults files.new)
        (IsErrOf result PackFault.WriteFault) }
    ensures same_read_faults { F.read_faults files.new ≡ F.read_faults files.old }
    ensures same_taken { F.taken files.new ≡ F.taken files.old }
{
    match files.fresh(name) {
        Ok(()) => fill_log(alloc, start, rows, name, files),
        Err(FreshFault::Exists) => Err(PackFault::Exists),
        Err(FreshFault::Failed) => Err(PackFault::WriteFault),
    }
}

/// Adds the file of the log to the empty file of this name.
fn fill_log<F: Files>(
    alloc: Global,
    start: u64,
    rows: u32,
    name: &str,
    files: &mut F,
) -> Result<PackSum, PackFault>
    requires few { rows ≤ 1_000_000 }
    requires there { ForSome (F.told files.old) (λ told. IsSome (told name.now)) }
    ensures file { OnOk result (Extends (F.told files.old) (F.told files.new) name.now
        (made_file start rows)) }
    ensures holds { OnOk result (HoldsLog start rows) }
    ensures sum { IfOk result (λ sum. sum_view sum ≡ made_sum start rows) }
    ensures front { OnErr result ((n : ℕ) × Extends (F.told files.old) (F.told files.new) name.now
        (take n (made_file start rows))) }
    ensures only { IfErr result (λ f. (f ≡ PackFault.WriteFault) ⊎ (f ≡ PackFault.OutOfMemory)) }
    ensures write_fault { HasCause (F.write_faults files.old) (F.write_faults files.new)
        (IsErrOf result PackFault.WriteFault) }
    ensures same_misses { F.misses files.new ≡ F.misses files.old }
    ensures same_read_faults { F.read_faults files.new ≡ F.read_faults files.old }
    ensures same_taken { F.taken files.new ≡ F.taken files.old }
{
    let mut log = LogRows::new(start);
    let mut packed = PackedRows {
        writer: BlockWriter::new(alloc, Some(TIME_FIELD), BLOCK),
        dropped: 0,
    };
    let mut made = 0;
    while made < rows {
        let closed = match add_row(alloc, &mut log, &mut packed) {
            Ok(closed) => closed,
            Err(fault) => return Err(fault),
        };
        match put_piece(name, closed.as_slice(), files) {
            Ok(()) => {}
            Err(_) => return Err(PackFault::WriteFault),
        }
        made += 1;
    }
    end_file(alloc, name, Some(TIME_FIELD), packed, files)
}

/// Adds the next row of the log, and gives the bytes of the block that it closes: none where it closes none.
fn add_row(alloc: Global, log: &mut LogRows, packed: &mut PackedRows) -> Result<Bytes, PackFault>
    requires few { log.old.1 < 1_000_000 }
    requires rows { CanMake log.old.0 log.old.1 packed.old }
    ensures row { IfOk result (λ closed. MakesRow log.old.0 log.old.1 packed.old packed.new closed) }
    ensures log { OnOk result (log.new ≡ (log.old.0, log.old.1 + 1)) }
    ensures dropped { packed.new.dropped ≡ packed.old.dropped }
    ensures only { IfErr result (λ f. f ≡ PackFault.OutOfMemory) }
{
    rows_may_be_written();
    rows_are_light();
    let row = match log.next_row(alloc) {
        Ok(row) => row,
        Err(_) => return Err(PackFault::OutOfMemory),
    };
    match packed.writer.add(alloc, row, Some(TIME_FIELD)) {
        Ok(closed) => Ok(closed),
        Err(RowFault::Full) => unreachable!(),
        Err(RowFault::OutOfMemory) => Err(PackFault::OutOfMemory),
    }
}
