//! Reads blocks at their places.
ghost use Rattle.std.specs.Prelude.{◌≡◌, ◌+◌, ◌*◌, ◌<◌, ◌≤◌, ℕ, List, length, take, drop, All, IfOk, IfErr, IsErrOf};
ghost use Rattle.std.specs.Option.{ForSome};
ghost use Rattle.snel_device.specs.Causes.{HasCause};
ghost use Rattle.scan_files.specs.Places.{block_at, blocks_at, block_held, blocks_held, IsPlaced, room_of};
ghost use Rattle.scan_files.specs.Surveys.{IsReadOrMemory};

use crate::block::{Place, Stored};
use crate::fault::FilesFault;
use snel_device::{Failed, Files};
use snel_values::Words;
use std::alloc::Global;

/// The places of the batch with this number, from 0: at most 64, in order.
pub fn batch_of(places: &[Place], number: usize) -> &[Place]
    requires { 64 * number < length places.now }
    ensures { result.now ≡ take 64 (drop (64 * number) places.now) }
{
    let from = 64 * number;
    let to = if places.len() - from < 64 {
        places.len()
    } else {
        from + 64
    };
    &places[from..to]
}

/// Reads the blocks at some places, each by one call.
pub fn read_batch<F: Files>(
    alloc: Global,
    names: &Words,
    places: &[Place],
    files: &mut F,
) -> Result<Vec<Stored>, FilesFault>
    requires named { All (λ p. p.file < length names.now) places.now }
    requires placed { ForSome (F.told files.old)
        (λ told. All (λ p. IsPlaced told names.now p) places.now) }
    ensures blocks { IfOk result (λ bs. ForSome (F.told files.old) (λ told.
        (fields : List (List ℕ)) → blocks_held fields bs.items
        ≡ blocks_at told names.now fields places.now)) }
    ensures count { IfOk result (λ bs. length bs.items ≡ length places.now) }
    ensures refused { IfErr result (λ fault. IsReadOrMemory fault) }
    ensures fault { HasCause (F.read_faults files.old) (F.read_faults files.new)
        (IsErrOf result FilesFault.ReadFault) }
    ensures later { F.taken files.old ≤ F.taken files.new }
    ensures most { F.taken files.new ≤ F.taken files.old + room_of places.now }
    ensures told { F.told files.new ≡ F.told files.old }
    ensures same_misses { F.misses files.new ≡ F.misses files.old }
    ensures same_write_faults { F.write_faults files.new ≡ F.write_faults files.old }
{
    let mut blocks = Vec::new(alloc);
    for place in places {
        let block = match read_block(alloc, names, place, files) {
            Ok(block) => block,
            Err(fault) => return Err(fault),
        };
        if blocks.push(block).is_err() {
            return Err(FilesFault::OutOfMemory);
        }
    }
    Ok(blocks)
}

/// Reads the block at a place, by one call.
pub fn read_block<F: Files>(
    alloc: Global,
    names: &Words,
    place: &Place,
    files: &mut F,
) -> Result<Stored, FilesFault>
    requires named { place.now.file < length names.now }
    requires placed { ForSome (F.told files.old) (λ told. IsPlaced told names.now place.now) }
    ensures block { IfOk result (λ b. ForSome (F.told files.old)
        (λ told. (fields : List (List ℕ)) → block_held fields b
        ≡ block_at told names.now fields place.now)) }
    ensures refused { IfErr result (λ fault. IsReadOrMemory fault) }
    ensures fault { HasCause (F.read_faults files.old) (F.read_faults files.new)
        (IsErrOf result FilesFault.ReadFault) }
    ensures later { F.taken files.old ≤ F.taken files.new }
    ensures most { F.taken files.new ≤ F.taken files.old + place.now.entry.length }
    ensures told { F.told files.new ≡ F.told files.old }
    ensures same_misses { F.misses files.new ≡ F.misses files.old }
    ensures same_write_faults { F.write_faults files.new ≡ F.write_faults files.old }
{
    let Some(name) = names.get(place.file as usize) else {
        unreachable!()
    };
    let entry = place.entry;
    let Ok(mut bytes) = vec![in alloc; 0; entry.length as usize] else {
        return Err(FilesFault::OutOfMemory);
    };
    match files.read_at(name, entry.start, &mut bytes) {
        Ok(()) => Ok(Stored {
            place: *place,
            bytes,
        }),
        Err(Failed) => Err(FilesFault::ReadFault),
    }
}
