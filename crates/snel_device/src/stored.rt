// A map from names to bytes, as files.
ghost use Rattle.std.specs.Prelude.{◌≡◌, OnOk, OnErr, IsSome, length};
ghost use Rattle.snel_device.specs.Contents.{with_file, with_piece, IsWithin, HasAt};
ghost use Rattle.snel_device.specs.Stored.{held_in};

use std::alloc::{AllocError, Global};
use std::collections::BTreeMap;

// Puts a file there, in place of one of this name.
pub fn put_file(
    alloc: Global,
    files: &mut BTreeMap<String, Vec<u8>>,
    name: &str,
    bytes: &[u8],
) -> Result<(), AllocError>
    ensures put { OnOk result (held_in files.new
        ≡ with_file name.now bytes.now (held_in files.old)) }
    ensures unchanged { OnErr result (held_in files.new ≡ held_in files.old) }
{
    let key = String::from_str(alloc, name)?;
    let value = bytes.to_vec(alloc)?;
    match files.insert(key, value) {
        Ok(_) => Ok(()),
        Err(_) => Err(AllocError),
    }
}

// The part of a file from a place on that fills `into`.
pub fn copy_part(files: &BTreeMap<String, Vec<u8>>, name: &str, at: u64, into: &mut [u8])
    requires { IsWithin (held_in files.now) name.now at (length into.old) }
    ensures { HasAt (held_in files.now) name.now at into.new }
{
    match files.get(name) {
        Some(bytes) => {
            let at = at as usize;
            into.copy_from_slice(&bytes[at..at + into.len()]);
        }
        None => unreachable!(),
    }
}

// Adds a piece at the end of a file.
pub fn extend_file(
    files: &mut BTreeMap<String, Vec<u8>>,
    name: &str,
    piece: &[u8],
) -> Result<(), AllocError>
    requires { IsSome (held_in files.old name.now) }
    ensures grown { OnOk result (held_in files.new
        ≡ with_piece name.now piece.now (held_in files.old)) }
    ensures unchanged { OnErr result (held_in files.new ≡ held_in files.old) }
{
    match files.get_mut(name) {
        Some(bytes) => match bytes.extend_from_slice(piece) {
            Ok(()) => Ok(()),
            Err(e) => Err(e),
        },
        None => unreachable!(),
    }
}
