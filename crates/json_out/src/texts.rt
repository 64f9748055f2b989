ghost use Rattle.std.specs.Prelude.{◌≡◌, ◌∷◌, ◌++◌, [], ◌<◌, OnOk, IsTrue};
ghost use Rattle.std.specs.Char.{digit_char};
ghost use Rattle.json.specs.Print.{escape_byte, escape, quoted};

use snel_values::{Bytes, OutOfMemory};

/// The lower-case hexadecimal digit.
fn hex_digit(number: u8) -> u8
    requires { number < 16 }
    ensures { result ≡ digit_char number }
{
    if number < 10 {
        number + 48
    } else {
        number + 87
    }
}

/// Whether the byte stands in a string as it is.
#[tactic(auto, unfolding(json::specs::Print::escape_byte))]
fn is_plain(byte: u8) -> bool
    ensures { IsTrue result → escape_byte byte ≡ byte ∷ [] }
{
    match byte {
        0..=31 | b'"' | b'\\' => false,
        _ => true,
    }
}

/// Adds what stands in a string for the byte.
#[tactic(auto, unfolding(json::specs::Print::escape_byte))]
fn put_escape(into: &mut Bytes, byte: u8) -> Result<(), OutOfMemory>
    ensures { OnOk result (into.new ≡ into.old ++ escape_byte byte) }
{
    match byte {
        b'"' => into.push_all(b"\\\""),
        b'\\' => into.push_all(b"\\\\"),
        8 => into.push_all(b"\\b"),
        12 => into.push_all(b"\\f"),
        b'\n' => into.push_all(b"\\n"),
        b'\r' => into.push_all(b"\\r"),
        b'\t' => into.push_all(b"\\t"),
        0..=31 => into.push_all(&[
            b'\\',
            b'u',
            b'0',
            b'0',
            hex_digit(byte / 16),
            hex_digit(byte % 16),
        ]),
        _ => into.push_all(&[byte]),
    }
}

/// Adds the bytes as they stand in a string. Those that stand as they are go in runs.
fn put_escaped(into: &mut Bytes, text: &[u8]) -> Result<(), OutOfMemory>
    ensures { OnOk result (into.new ≡ into.old ++ escape text.now) }
{
    let mut from = 0;
    for (at, byte) in text.iter().enumerate() {
        if !is_plain(*byte) {
            into.push_all(&text[from..at])?;
            put_escape(into, *byte)?;
            from = at + 1;
        }
    }
    into.push_all(&text[from..])
}

/// Adds the bytes of a text as a string, in quotes.
pub fn put_quoted_bytes(into: &mut Bytes, text: &[u8]) -> Result<(), OutOfMemory>
    ensures { OnOk result (into.new ≡ into.old ++ quoted text.now) }
{
    into.push_all(b"\"")?;
    put_escaped(into, text)?;
    into.push_all(b"\"")
}

/// Adds the text as a string, in quotes.
pub fn put_quoted(into: &mut Bytes, text: &str) -> Result<(), OutOfMemory>
    ensures { OnOk result (into.new ≡ into.old ++ quoted text.now) }
{
    put_quoted_bytes(into, text.as_bytes())
}
