ghost use Rattle.std.specs.Prelude.{◌≡◌, [], ◌∷◌, ◌++◌, OnOk};
ghost use Rattle.print_meaning.specs.Pieces.{doubled, in_quotes};

use snel_values::{Bytes, OutOfMemory};

/// Adds the name between `"`, each `"` within it twice. For want of memory some of it may stand behind the bytes.
pub fn put_name(text: &mut Bytes, name: &str) -> Result<(), OutOfMemory>
    ensures { OnOk result (text.new ≡ text.old ++ in_quotes 34 name.now) }
{
    put_in_quotes(text, b'"', name.as_bytes())
}

/// Adds the text as a string, between `'`, each `'` within it twice. For want of memory some of it may stand behind the
/// bytes.
pub fn put_string(text: &mut Bytes, string: &str) -> Result<(), OutOfMemory>
    ensures { OnOk result (text.new ≡ text.old ++ in_quotes 39 string.now) }
{
    put_in_quotes(text, b'\'', string.as_bytes())
}

/// Adds the bytes between two quotes, each quote within them twice.
fn put_in_quotes(text: &mut Bytes, quote: u8, bytes: &[u8]) -> Result<(), OutOfMemory>
    ensures { OnOk result (text.new ≡ text.old ++ in_quotes quote bytes.now) }
{
    text.push_all(&[quote])?;
    for byte in bytes {
        put_byte(text, quote, *byte)?;
    }
    text.push_all(&[quote])
}

/// Adds the byte, twice where it is the quote.
fn put_byte(text: &mut Bytes, quote: u8, byte: u8) -> Result<(), OutOfMemory>
    ensures { OnOk result (text.new ≡ text.old ++ doubled quote (byte ∷ [])) }
{
    if byte == quote {
        text.push_all(&[quote, quote])
    } else {
        text.push_all(&[byte])
    }
}
