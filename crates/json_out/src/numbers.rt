ghost use Rattle.std.specs.Prelude.{◌≡◌, ◌++◌, OnOk};

use itoa::{Buffer, Integer};
use snel_values::{Bytes, OutOfMemory};

/// Adds the number's decimal digits, behind a `-` where it is negative.
pub fn put_number<N: Integer>(into: &mut Bytes, number: N) -> Result<(), OutOfMemory>
    ensures { OnOk result (into.new ≡ into.old ++ N.text number) }
{
    let mut digits = Buffer::new();
    into.push_all(digits.format(number).as_bytes())
}
