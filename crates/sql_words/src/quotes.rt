ghost use Rattle.std.specs.Prelude.{◌≡◌, ◌<◌, IfOk};
ghost use Rattle.query_meaning.specs.Tokens as spec;

use snel_values::{OutOfMemory, Text};
use std::alloc::Global;

/// The text with one quote in place of each two in a row. The quote is an ASCII character.
pub fn undoubled(alloc: Global, text: &str, quote: u8) -> Result<Text, OutOfMemory>
    requires { quote < 128 }
    ensures { IfOk result (λ t. t ≡ spec.undoubled quote text.now) }
{
    let bytes = undoubled_bytes(alloc, text.as_bytes(), quote)?;
    match std::str::from_utf8(&bytes) {
        Ok(undoubled) => Text::of(alloc, undoubled),
        Err(_) => unreachable!(),
    }
}

/// The bytes with one quote in place of each two in a row.
fn undoubled_bytes(alloc: Global, bytes: &[u8], quote: u8) -> Result<Vec<u8>, OutOfMemory>
    ensures { IfOk result (λ v. v.items ≡ spec.undoubled quote bytes.now) }
{
    let mut all = Vec::new(alloc);
    let mut held = false;
    for byte in bytes {
        let is_quote = *byte == quote;
        if held && is_quote {
            held = false;
        } else {
            all.push(*byte)?;
            held = is_quote;
        }
    }
    Ok(all)
}
