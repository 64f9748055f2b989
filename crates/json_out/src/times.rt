ghost use Rattle.std.specs.Prelude.{◌≡◌, ◌++◌, ◌∷◌, [], OnOk};
ghost use Rattle.time_meaning.specs.Moments.{IsTime};
ghost use Rattle.time_meaning.specs.Printed.{time_text};

use snel_values::{Bytes, OutOfMemory};
use time_print::put_time;

/// Adds the text of the time, in quotes.
pub fn put_quoted_time(into: &mut Bytes, time: i64) -> Result<(), OutOfMemory>
    requires { IsTime time }
    ensures { OnOk result (into.new ≡ into.old ++ 34 ∷ (time_text time ++ 34 ∷ [])) }
{
    into.push_all(b"\"")?;
    put_time(into, time)?;
    into.push_all(b"\"")
}
