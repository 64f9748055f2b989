//! Puts lines.
ghost use Rattle.std.specs.Prelude.{OnOk, OnErr, IsErr};
ghost use Rattle.std.specs.Io.KnownBytes.{Appends};
ghost use Rattle.snel_device.specs.Causes.{HasCause};
ghost use Rattle.scan_batches.specs.Lines.{text_of, TakesPart};
ghost use Rattle.scan_batches.specs.Gathers.{lines_of};

use snel_device::{Failed, Out};
use snel_values::MadeRows;

/// Puts the lines of made rows, in order, each by one call.
pub fn put_rows<O: Out>(rows: &MadeRows, out: &mut O) -> Result<(), Failed>
    ensures put { OnOk result
        (Appends (O.holds out.old) (O.holds out.new) (text_of (lines_of rows.now))) }
    ensures part { OnErr result
        (TakesPart (O.holds out.old) (O.holds out.new) (text_of (lines_of rows.now))) }
    ensures fault { HasCause (O.faults out.old) (O.faults out.new) (IsErr result) }
{
    for at in 0..rows.len() {
        let Some(row) = rows.get(at) else {
            unreachable!()
        };
        match out.put(row.line.as_slice()) {
            Ok(()) => {}
            Err(Failed) => return Err(Failed),
        }
    }
    Ok(())
}
