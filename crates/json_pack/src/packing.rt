//! From an input of lines to a block file.
ghost use Rattle.std.specs.Prelude.{◌≡◌, ◌↔◌, ◌≤◌, ◌-◌, ℕ, length, take, IfOk, IfErr, OnOk, OnErr, IfSome, IsSome, IsErrOf};
ghost use Rattle.std.specs.Option.{ForSome};
ghost use Rattle.std.specs.Io.KnownBytes.{IsAtEnd};
ghost use Rattle.snel_device.specs.Causes.{HasCause};
ghost use Rattle.snel_device.specs.Contents.{Sets, Extends};
ghost use Rattle.pack_meaning.specs.Splitting.{lines_of};
ghost use Rattle.pack_meaning.specs.Packing.{refusal, sum_of};
ghost use Rattle.json_rows.specs.LineViews.{settings_view};
ghost use Rattle.json_pack.specs.Packs.{sum_view, counted, refusal_in, file_for, HoldsLines, HasFrontOf, LeavesFront};
ghost use Rattle.json_pack.specs.Packing.{ExtendsFront};

use crate::appending::{end_file, put_piece};
use crate::packer::LinePacker;
use crate::reader::LineReader;
use crate::sums::{PackFault, PackSum};
use json_rows::PackSettings;
use pack_meaning::MOST_INPUT_BYTES;
use snel_device::{Files, FreshFault, Input};
use std::alloc::Global;

/// Packs the lines of the input into a new file of this name, in blocks of rows that weigh at most `settings.block`
/// together.
///
/// Where the input is told: at `Ok` no line is refused, and the file holds just the rows of the lines, in their order; it
/// is the one file of these rows. `Line` names the first line that is refused, and why. After another answer than `Ok`
/// the file, if this call made it, has a front of the file of the rows of the lines before the fault.
///
/// Lines are read one after the other, and a block is added to the file as soon as a row doesn't fit into it any more: memory
/// holds a piece of the input, a line, the rows of one block with its bytes, and an entry of each block. A line of more than
/// 1,048,576 bytes is refused as soon as it has more.
///
/// `Exists` comes exactly where there is a file of this name, `ReadFault` only where the count of faults of the input rose,
/// and `WriteFault` only where that of the files' write faults did.
pub fn pack<F: Files, I: Input>(
    alloc: Global,
    name: &str,
    settings: &PackSettings<'_>,
    files: &mut F,
    input: &mut I,
) -> Result<PackSum, PackFault>
    requires block { settings.now.block ≤ 1_000_000 }
    requires time { IfSome settings.now.time (λ field. (1 ≤ length field.now) × (length field.now ≤ 255)) }

    ensures accepted { OnOk result (ForSome (I.left input.old)
        (λ bytes. refusal (settings_view settings.now) (lines_of bytes) ≡ None)) }
    ensures file { OnOk result (ForSome (I.left input.old) (λ bytes.
        Sets (F.told files.old) (F.told files.new) name.now
        (file_for (settings_view settings.now) (lines_of bytes)))) }
    ensures holds { OnOk result (ForSome (I.left input.old)
        (λ bytes. HoldsLines (settings_view settings.now) (lines_of bytes))) }
    ensures sum { IfOk result (λ sum. ForSome (I.left input.old) (λ bytes. sum_view sum
        ≡ counted (sum_of (settings_view settings.now) (lines_of bytes)))) }
    ensures ended { OnOk result (ForSome (I.left input.old) (λ bytes. IsAtEnd (I.left input.new))) }

    ensures refused { IfErr result (λ fault. IfSome (refusal_in fault) (λ r. ForSome (I.left input.old)
        (λ bytes. refusal (settings_view settings.now) (lines_of bytes) ≡ Some r))) }
    ensures before { IfErr result (λ fault. IfSome (refusal_in fault) (λ r. ForSome (I.left input.old)
        (λ bytes. HasFrontOf (settings_view settings.now) (take (r.number - 1) (lines_of bytes))
        (F.told files.old) (F.told files.new) name.now))) }
    ensures front { OnErr result (ForSome (I.left input.old) (λ bytes. LeavesFront
        (settings_view settings.now) (lines_of bytes)
        (F.told files.old) (F.told files.new) name.now)) }

    ensures exists { ForSome (F.told files.old) (λ told. IsErrOf result PackFault.Exists
        ↔ IsSome (told name.now)) }
    ensures kept { IsErrOf result PackFault.Exists → F.told files.new ≡ F.told files.old }
    ensures missed { HasCause (F.misses files.old) (F.misses files.new)
        (IsErrOf result PackFault.Exists) }
    ensures read_fault { HasCause (I.faults input.old) (I.faults input.new)
        (IsErrOf result PackFault.ReadFault) }
    ensures write_fault { HasCause (F.write_faults files.old) (F.write_faults files.new)
        (IsErrOf result PackFault.WriteFault) }
    ensures same_read_faults { F.read_faults files.new ≡ F.read_faults files.old }
    ensures same_taken { F.taken files.new ≡ F.taken files.old }
{
    match files.fresh(name) {
        Ok(()) => fill(alloc, name, settings, files, input),
        Err(FreshFault::Exists) => Err(PackFault::Exists),
        Err(FreshFault::Failed) => Err(PackFault::WriteFault),
    }
}

/// Adds the file of the lines' rows to the empty file of this name.
fn fill<F: Files, I: Input>(
    alloc: Global,
    name: &str,
    settings: &PackSettings<'_>,
    files: &mut F,
    input: &mut I,
) -> Result<PackSum, PackFault>
    requires block { settings.now.block ≤ 1_000_000 }
    requires time { IfSome settings.now.time (λ field. (1 ≤ length field.now) × (length field.now ≤ 255)) }
    requires there { ForSome (F.told files.old) (λ told. IsSome (told name.now)) }

    ensures accepted { OnOk result (ForSome (I.left input.old)
        (λ bytes. refusal (settings_view settings.now) (lines_of bytes) ≡ None)) }
    ensures file { OnOk result (ForSome (I.left input.old) (λ bytes.
        Extends (F.told files.old) (F.told files.new) name.now
        (file_for (settings_view settings.now) (lines_of bytes)))) }
    ensures holds { OnOk result (ForSome (I.left input.old)
        (λ bytes. HoldsLines (settings_view settings.now) (lines_of bytes))) }
    ensures sum { IfOk result (λ sum. ForSome (I.left input.old) (λ bytes. sum_view sum
        ≡ counted (sum_of (settings_view settings.now) (lines_of bytes)))) }
    ensures ended { OnOk result (ForSome (I.left input.old) (λ bytes. IsAtEnd (I.left input.new))) }

    ensures refused { IfErr result (λ fault. IfSome (refusal_in fault) (λ r. ForSome (I.left input.old)
        (λ bytes. refusal (settings_view settings.now) (lines_of bytes) ≡ Some r))) }
    ensures before { IfErr result (λ fault. IfSome (refusal_in fault) (λ r. ForSome (I.left input.old)
        (λ bytes. ExtendsFront (settings_view settings.now) (take (r.number - 1) (lines_of bytes))
        (F.told files.old) (F.told files.new) name.now))) }
    ensures front { OnErr result (ForSome (I.left input.old) (λ bytes. (k : ℕ)
        × ExtendsFront (settings_view settings.now) (take k (lines_of bytes))
        (F.told files.old) (F.told files.new) name.now)) }

    ensures not_exists { IsErrOf result PackFault.Exists → ⊥ }
    ensures read_fault { HasCause (I.faults input.old) (I.faults input.new)
        (IsErrOf result PackFault.ReadFault) }
    ensures write_fault { HasCause (F.write_faults files.old) (F.write_faults files.new)
        (IsErrOf result PackFault.WriteFault) }
    ensures same_misses { F.misses files.new ≡ F.misses files.old }
    ensures same_read_faults { F.read_faults files.new ≡ F.read_faults files.old }
    ensures same_taken { F.taken files.new ≡ F.taken files.old }
{
    let Ok(mut reader) = LineReader::new(alloc) else {
        return Err(PackFault::OutOfMemory);
    };
    let mut packer = LinePacker::new(alloc, settings);
    while packer.at <= MOST_INPUT_BYTES {
        let closed = match packer.pack_line(alloc, settings, &mut reader, input) {
            Ok(Some(closed)) => closed,
            Ok(None) => return end_file(alloc, name, settings.time, packer.rows, files),
            Err(fault) => return Err(fault),
        };
        match put_piece(name, closed.as_slice(), files) {
            Ok(()) => {}
            Err(_) => return Err(PackFault::WriteFault),
        }
    }
    unreachable!()
}
