ghost use Rattle.std.specs.Prelude.{◌≡◌, ◌+◌, ◌-◌, ◌<◌, ◌≤◌, ◌^◌, length, drop, take, is_some};
ghost use Rattle.std.specs.Str.{is_utf8};
ghost use Rattle.block_meaning.specs.Tables.{text_of};
ghost use Rattle.block_meaning.specs.CellReading.{one_byte, scalar, whole, blank_table};

use crate::numbers::magnitude;
use crate::times::is_timestamp;
use crate::types::{FALSE, NEGATIVE, STRING, SYMBOL, TIMESTAMP, TRUE, WHOLE};
use simdutf8::basic;

/// Whether the byte alone is a cell: a null, false or true.
#[inline(always)]
#[tactic(auto, unfolding(block_meaning::specs::CellReading::one_byte))]
pub(crate) fn is_one_byte(byte: u8) -> bool
    ensures { result ≡ is_some (one_byte byte) }
{
    matches!(
        byte,
        FALSE | TRUE | 0x0F | 0x1F | 0x2F | 0x3F | 0x6F | 0x7F | 0x8F | 0xBF | 0xDF
    )
}

/// Whether the bytes are UTF-8.
#[inline(never)]
pub(crate) fn is_text(bytes: &[u8]) -> bool
    ensures { result ≡ is_utf8 bytes.now }
{
    match basic::from_utf8(bytes) {
        Ok(_) => true,
        Err(_) => false,
    }
}

/// Whether a table whose last number is `last` has a text of this number.
#[inline(always)]
pub(crate) fn is_symbol(number: u64, last: u32) -> bool
    ensures { result ≡ is_some (text_of (blank_table last) number) }
{
    10 <= number && number <= u64::from(last)
}

/// Whether the payload is a whole number below 2^63, of at most eight bytes. Fewer bytes always are one.
#[inline(always)]
fn is_whole(payload: &[u8]) -> bool
    ensures { result ≡ is_some (whole payload.now) }
{
    payload.len() < 8 || (payload.len() == 8 && magnitude(payload) < 1 << 63)
}

/// Whether the payload is one of its type, which holds no cells.
#[inline(always)]
#[tactic(auto, unfolding(block_meaning::specs::CellReading::scalar))]
pub(crate) fn is_scalar(kind: u8, payload: &[u8], last: u32) -> bool
    ensures { result ≡ is_some (scalar (blank_table last) kind payload.now) }
{
    match kind {
        WHOLE => is_whole(payload),
        NEGATIVE => payload.len() <= 8 && matches!(magnitude(payload), 1..=0x8000_0000_0000_0000),
        TIMESTAMP => is_timestamp(payload),
        SYMBOL => payload.len() <= 4 && is_symbol(magnitude(payload), last),
        STRING => is_text(payload),
        _ => false,
    }
}
