ghost use Rattle.std.specs.Prelude.{◌≡◌, ◌≢◌, ◌↔◌, ◌+◌, ◌≤◌, length, take, drop, IfOk, IsErr, IsErrOf, None};
ghost use Rattle.std.specs.Option.{ForSome};
ghost use Rattle.snel_device.specs.Causes.{HasCause};
ghost use Rattle.snel_device.specs.Contents.{IsWithin, HasAt};
ghost use Rattle.file_meaning.specs.Files.{IsFile};
ghost use Rattle.time_index.specs.Answers.{Knows, IsNoFile, IsSomeIndex, Costs};

use crate::index::{Index, IndexFault};
use crate::reading::{gap_in, index_in};
use snel_device::{Failed, Files, SizeFault};
use std::alloc::Global;

// The bytes of a tail, and of the smallest block file, which has no blocks and no field.
const TAIL_BYTES: u64 = 12;

const LEAST_FILE_BYTES: u64 = 22;

/// Reads the index of the block file of this name. It asks for the size and reads the tail and the
/// index, each by one call, and nothing else; an index is read only where its place, from the
/// start that the tail names to the tail, has a length that an index can have.
///
/// `Absent` and `Failed` come only where the files' count of misses or of read faults rose. Where
/// the files are told, `Absent` comes exactly where there is no file of this name, and `NotAFile`
/// only where it is no block file. No file changes. What is Ok is within the limits of an index
/// also where nothing is told.
pub fn read_index<F: Files>(alloc: Global, files: &mut F, name: &str) -> Result<Index, IndexFault>
    ensures file { IfOk result (λ index. Knows (F.told files.old) name.now
        (λ bytes. IsFile bytes index.field index.entries)) }
    ensures index { IfOk result (λ index. IsSomeIndex index.field index.entries) }
    ensures absent { ForSome (F.told files.old) (λ told. IsErrOf result IndexFault.Absent
        ↔ (told name.now ≡ None)) }
    ensures no_file { IsErrOf result IndexFault.NotAFile
        → Knows (F.told files.old) name.now IsNoFile }

    ensures fault { HasCause (F.read_faults files.old) (F.read_faults files.new)
        (IsErrOf result IndexFault.Failed) }
    ensures missed { HasCause (F.misses files.old) (F.misses files.new)
        (IsErrOf result IndexFault.Absent) }
    ensures cost { Costs (F.told files.old) name.now (F.taken files.old) (F.taken files.new) }
    ensures told { F.told files.new ≡ F.told files.old }
    ensures same_write_faults { F.write_faults files.new ≡ F.write_faults files.old }
{
    let size = match files.size(name) {
        Ok(size) => size,
        Err(SizeFault::Absent) => return Err(IndexFault::Absent),
        Err(SizeFault::Failed) => return Err(IndexFault::Failed),
    };
    read_sized(alloc, files, name, size)
}

// The same, of a file that is there and has this many bytes.
fn read_sized<F: Files>(
    alloc: Global,
    files: &mut F,
    name: &str,
    size: u64,
) -> Result<Index, IndexFault>
    requires { Knows (F.told files.old) name.now (λ bytes. size ≡ length bytes) }
    ensures file { IfOk result (λ index. Knows (F.told files.old) name.now
        (λ bytes. IsFile bytes index.field index.entries)) }
    ensures index { IfOk result (λ index. IsSomeIndex index.field index.entries) }
    ensures not_absent { result ≢ Err IndexFault.Absent }
    ensures no_file { IsErrOf result IndexFault.NotAFile
        → Knows (F.told files.old) name.now IsNoFile }

    ensures fault { HasCause (F.read_faults files.old) (F.read_faults files.new)
        (IsErrOf result IndexFault.Failed) }
    ensures cost { Costs (F.told files.old) name.now (F.taken files.old) (F.taken files.new) }
    ensures told { F.told files.new ≡ F.told files.old }
    ensures same_misses { F.misses files.new ≡ F.misses files.old }
    ensures same_write_faults { F.write_faults files.new ≡ F.write_faults files.old }
{
    if size < LEAST_FILE_BYTES {
        return Err(IndexFault::NotAFile);
    }
    let at = size - TAIL_BYTES;
    let tail = read_tail(files, name, at)?;
    let Some(gap) = gap_in(at, &tail) else {
        return Err(IndexFault::NotAFile);
    };
    let to = at - gap;
    let part = read_part(alloc, files, name, to, gap as usize)?;
    match index_in(alloc, &part, to)? {
        Some(index) => Ok(index),
        None => Err(IndexFault::NotAFile),
    }
}

// The tail of a file, which stands at `at`.
fn read_tail<F: Files>(files: &mut F, name: &str, at: u64) -> Result<[u8; 12], Failed>
    requires { Knows (F.told files.old) name.now (λ bytes. at + 12 ≡ length bytes) }
    ensures tail { IfOk result (λ tail. Knows (F.told files.old) name.now (λ bytes. tail
        ≡ drop at bytes)) }
    ensures fault { HasCause (F.read_faults files.old) (F.read_faults files.new) (IsErr result) }
    ensures later { F.taken files.old ≤ F.taken files.new }
    ensures most { F.taken files.new ≤ F.taken files.old + 12 }
    ensures told { F.told files.new ≡ F.told files.old }
    ensures same_misses { F.misses files.new ≡ F.misses files.old }
    ensures same_write_faults { F.write_faults files.new ≡ F.write_faults files.old }
{
    let mut tail = [0; 12];
    files.read_at(name, at, &mut tail)?;
    Ok(tail)
}

// So many bytes of a file from a place on.
fn read_part<F: Files>(
    alloc: Global,
    files: &mut F,
    name: &str,
    at: u64,
    count: usize,
) -> Result<Vec<u8>, IndexFault>
    requires { ForSome (F.told files.old) (λ told. IsWithin told name.now at count) }
    ensures part { IfOk result (λ part. ForSome (F.told files.old)
        (λ told. HasAt told name.now at part.items)) }
    ensures count { IfOk result (λ part. length part.items ≡ count) }
    ensures not_absent { result ≢ Err IndexFault.Absent }
    ensures not_no_file { result ≢ Err IndexFault.NotAFile }
    ensures fault { HasCause (F.read_faults files.old) (F.read_faults files.new)
        (IsErrOf result IndexFault.Failed) }
    ensures later { F.taken files.old ≤ F.taken files.new }
    ensures most { F.taken files.new ≤ F.taken files.old + count }
    ensures told { F.told files.new ≡ F.told files.old }
    ensures same_misses { F.misses files.new ≡ F.misses files.old }
    ensures same_write_faults { F.write_faults files.new ≡ F.write_faults files.old }
{
    let Ok(mut part) = vec![in alloc; 0; count] else {
        return Err(IndexFault::OutOfMemory);
    };
    files.read_at(name, at, &mut part)?;
    Ok(part)
}
