//! Numbers inside cells.
ghost use Rattle.std.specs.Prelude.{◌≡◌, ◌≤◌, ◌<◌, ◌++◌, length, OnOk};
ghost use Rattle.write_meaning.specs.Encoding as meant;

use snel_values::OutOfMemory;

/// How many digits the number has in the base, at most `room`.
#[tactic(auto, unfolding(write_meaning::specs::Encoding::digits))]
pub(crate) fn count_digits(number: u64, base: u64, room: usize) -> usize
    requires base { 2 ≤ base }
    requires room { room ≤ 8 }
    ensures value { result ≡ length (meant.digits base room number) }
    ensures few { result ≤ room }
{
    if room == 0 || number == 0 {
        0
    } else {
        count_digits(number / base, base, room - 1) + 1
    }
}

/// Appends the digits of the number in the base, at most `room`, the most significant first.
#[tactic(auto, unfolding(write_meaning::specs::Encoding::digits))]
pub(crate) fn put_digits(
    out: &mut Vec<u8>,
    number: u64,
    base: u64,
    room: usize,
) -> Result<(), OutOfMemory>
    requires low { 2 ≤ base }
    requires high { base ≤ 256 }
    ensures { OnOk result (out.new.items ≡ out.old.items ++ meant.digits base room number) }
{
    if room == 0 {
        return Ok(());
    }
    if number == 0 {
        return Ok(());
    }
    put_digits(out, number / base, base, room - 1)?;
    out.push((number % base) as u8)?;
    Ok(())
}

/// Appends a VarUInt of the fewest bytes, for a number below 2^28.
#[tactic(auto, unfolding(write_meaning::specs::Encoding::var_uint_bytes))]
pub(crate) fn put_var_uint(out: &mut Vec<u8>, number: u64) -> Result<(), OutOfMemory>
    ensures { OnOk result (out.new.items ≡ out.old.items ++ meant.var_uint_bytes number) }
{
    put_digits(out, number / 128, 128, 3)?;
    out.push((number % 128) as u8 + 128)?;
    Ok(())
}
