ghost use Rattle.std.specs.Prelude.{◌≡◌, ◌++◌, decimal, OnOk, OnErr};

use itoa::Buffer;
use snel_values::{Bytes, OutOfMemory};

/// Adds the piece, all of it or, for want of memory, nothing.
pub fn put(text: &mut Bytes, piece: &str) -> Result<(), OutOfMemory>
    ensures ok { OnOk result (text.new ≡ text.old ++ piece.now) }
    ensures err { OnErr result (text.new ≡ text.old) }
{
    text.push_all(piece.as_bytes())
}

/// Adds the number's decimal digits, all of them or, for want of memory, none.
pub fn put_digits(text: &mut Bytes, number: u128) -> Result<(), OutOfMemory>
    ensures ok { OnOk result (text.new ≡ text.old ++ decimal number) }
    ensures err { OnErr result (text.new ≡ text.old) }
{
    let mut digits = Buffer::new();
    put(text, digits.format(number))
}
