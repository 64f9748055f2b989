//! Checking files.
ghost use Rattle.std.specs.Prelude.{◌≡◌, ◌^◌, ◌<◌, ◌≤◌, ℕ, List, Some, None, length, slice_get, Option, IsErrOf};
ghost use Rattle.std.specs.Option.{ForSome};
ghost use Rattle.snel_device.specs.Causes.{HasCause, Rose};
ghost use Rattle.scan_meaning.specs.Batches.{first_bad as first_bad_of};
ghost use Rattle.scan_meaning.specs.Opened.{Opened, opened, IsNamed, blocks_of};
ghost use Rattle.query_run.specs.Statuses.{status_after, IsAbsent};
ghost use Rattle.query_run.specs.Checking.{Checks, HasCheckCause, SaysOfOne, IsOfFiles, IsOfOut};

use crate::query_fault::QueryFault;
use check_blocks::{check_line, first_bad};
use scan_files::{FilesFault, index_of};
use snel_device::{Failed, Files, Out};
use snel_values::{OutOfMemory, Words};
use std::alloc::Global;
use time_index::Entry;

/// Checks 1 to 64 files, one after the other: reads the index and every block of each, and puts its line, `NAME: blocks B,
/// rows R`, where no block is damaged or breaks the range that the index tells. One index and one block are held at a time.
pub fn check_files<F: Files, O: Out>(
    alloc: Global,
    names: &Words,
    files: &mut F,
    out: &mut O,
) -> Result<(), QueryFault>
    requires some { 1 ≤ length names.now }
    requires few { length names.now ≤ 64 }

    // The answer is Ok, or the first fault that the names and the files give rise to, and the lines of the files before it are
    // written.
    ensures ends { Checks names.now (F.told files.old) (status_after result) (O.holds out.old)
        (O.holds out.new) }
    ensures cause { HasCheckCause names.now (F.told files.old) result }

    ensures absent { IsAbsent result → Rose (F.misses files.old) (F.misses files.new) }
    ensures read_fault { IsErrOf result QueryFault.ReadFault
        → Rose (F.read_faults files.old) (F.read_faults files.new) }
    ensures write_fault { IsErrOf result QueryFault.WriteFault
        → Rose (O.faults out.old) (O.faults out.new) }
    ensures told { F.told files.new ≡ F.told files.old }
    ensures same_write_faults { F.write_faults files.new ≡ F.write_faults files.old }
{
    for number in 0..names.len() {
        match check_file(alloc, names, number as u32, files, out) {
            Ok(()) => {}
            Err(fault) => return Err(fault),
        }
    }
    Ok(())
}

// Checks the file with this number, and puts its line.
fn check_file<F: Files, O: Out>(
    alloc: Global,
    names: &Words,
    file: u32,
    files: &mut F,
    out: &mut O,
) -> Result<(), QueryFault>
    requires named { file < length names.now }
    ensures says { ForSome (F.told files.old) (λ told. (name : List ℕ)
        → slice_get names.now file ≡ Some name
        → SaysOfOne (told name) name file result (O.holds out.old) (O.holds out.new)) }
    ensures of_files { IsOfFiles result }
    ensures absent { HasCause (F.misses files.old) (F.misses files.new) (IsAbsent result) }
    ensures read_fault { HasCause (F.read_faults files.old) (F.read_faults files.new)
        (IsErrOf result QueryFault.ReadFault) }
    ensures write_fault { HasCause (O.faults out.old) (O.faults out.new)
        (IsErrOf result QueryFault.WriteFault) }
    ensures told { F.told files.new ≡ F.told files.old }
    ensures same_write_faults { F.write_faults files.new ≡ F.write_faults files.old }
{
    let Some(name) = names.get(file as usize) else {
        unreachable!()
    };
    let index = match index_of(alloc, name, file, files) {
        Ok(index) => index,
        Err(FilesFault::Absent(_)) => return Err(QueryFault::Absent(file)),
        Err(FilesFault::NotAFile(_)) => return Err(QueryFault::NotAFile(file)),
        Err(FilesFault::ReadFault) => return Err(QueryFault::ReadFault),
        Err(FilesFault::OutOfMemory) => return Err(QueryFault::OutOfMemory),
    };
    match first_bad(alloc, names, file, &index, files) {
        Ok(None) => put_line(alloc, name, index.entries.as_slice(), out),
        Ok(Some(block)) => Err(QueryFault::Damaged { file, block }),
        Err(FilesFault::ReadFault) => Err(QueryFault::ReadFault),
        Err(_) => Err(QueryFault::OutOfMemory),
    }
}

// Puts the line of a sound file, by one call.
fn put_line<O: Out>(
    alloc: Global,
    name: &str,
    entries: &[Entry],
    out: &mut O,
) -> Result<(), QueryFault>
    requires few { length entries.now ≤ 2 ^ 20 }
    ensures says { (file : Option (List ℕ)) (number : ℕ) (o : Opened) → IsNamed file (opened o)
        → first_bad_of (blocks_of number o) ≡ None → o.entries ≡ entries.now
        → SaysOfOne file name.now number result (O.holds out.old) (O.holds out.new) }
    ensures of_out { IsOfOut result }
    ensures fault { HasCause (O.faults out.old) (O.faults out.new)
        (IsErrOf result QueryFault.WriteFault) }
{
    let line = match check_line(alloc, name, entries) {
        Ok(line) => line,
        Err(OutOfMemory) => return Err(QueryFault::OutOfMemory),
    };
    match out.put(line.as_bytes()) {
        Ok(()) => Ok(()),
        Err(Failed) => Err(QueryFault::WriteFault),
    }
}
