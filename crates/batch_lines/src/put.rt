//! Puts the lines of a batch.
ghost use Rattle.std.specs.Prelude.{◌≡◌, length, IfOk, OnOk, OnErr, IsErr};
ghost use Rattle.std.specs.Io.KnownBytes.{Appends};
ghost use Rattle.snel_device.specs.Causes.{HasCause};
ghost use Rattle.scan_batches.specs.Lines.{let_through, text_of, TakesPart};

use block_lines::Lines;
use scan_batches::{Cut, range_of};
use snel_device::{Failed, Out};

/// Puts the lines of a batch that OFFSET and LIMIT let through, each by one call, and says how many they are.
pub(crate) fn put_lines<O: Out>(lines: &Lines, cut: &Cut, out: &mut O) -> Result<u64, Failed>
    ensures put { OnOk result (Appends (O.holds out.old) (O.holds out.new)
        (text_of (let_through cut.now.skip cut.now.take lines.now))) }
    ensures count { IfOk result
        (λ n. n ≡ length (let_through cut.now.skip cut.now.take lines.now)) }
    ensures part { OnErr result (TakesPart (O.holds out.old) (O.holds out.new)
        (text_of (let_through cut.now.skip cut.now.take lines.now))) }
    ensures fault { HasCause (O.faults out.old) (O.faults out.new) (IsErr result) }
{
    let (from, to) = range_of(cut, lines.len());
    for at in from..to {
        let Some(line) = lines.get(at) else {
            unreachable!()
        };
        match out.put(line) {
            Ok(()) => {}
            Err(Failed) => return Err(Failed),
        }
    }
    Ok((to - from) as u64)
}
