//! Times.
ghost use Rattle.std.specs.Prelude.{◌≡◌, ◌≤◌, ◌++◌, ◌/◌, ◌%◌, length, take, drop, OnOk};
ghost use Rattle.write_meaning.specs.Encoding as meant;

use crate::clock::{Clock, clock_at};
use crate::heads::close_cell;
use crate::numbers::{put_digits, put_var_uint};
use snel_values::OutOfMemory;

/// Puts a 0 in front of the coefficient that stands from the place `start` on, where its first bit is set.
fn clear_sign(out: &mut Vec<u8>, start: usize) -> Result<(), OutOfMemory>
    requires { start ≤ length out.old.items }
    ensures { OnOk result (out.new.items ≡ take start out.old.items ++ meant.with_clear_sign (drop start out.old.items)) }
{
    if start < out.len() && out[start] >= 128 {
        out.push(0)?;
        out[start..].rotate_right(1);
    }
    Ok(())
}

/// Appends the fraction of a second, nothing where there are no microseconds.
#[tactic(auto, unfolding(write_meaning::specs::Encoding::micros_bytes))]
fn put_micros(out: &mut Vec<u8>, micros: u32) -> Result<(), OutOfMemory>
    ensures { OnOk result (out.new.items ≡ out.old.items ++ meant.micros_bytes micros) }
{
    if micros == 0 {
        return Ok(());
    }
    out.push(198)?;
    let start = out.len();
    put_digits(out, u64::from(micros), 256, 3)?;
    clear_sign(out, start)
}

/// Appends three numbers.
fn put_three(out: &mut Vec<u8>, first: u32, second: u32, third: u32) -> Result<(), OutOfMemory>
    ensures { OnOk result (out.new.items ≡ out.old.items ++ (meant.var_uint_bytes first ++ (meant.var_uint_bytes second ++ meant.var_uint_bytes third))) }
{
    put_var_uint(out, u64::from(first))?;
    put_var_uint(out, u64::from(second))?;
    put_var_uint(out, u64::from(third))
}

/// Appends the payload of a timestamp.
fn put_moment(out: &mut Vec<u8>, clock: Clock) -> Result<(), OutOfMemory>
    ensures { OnOk result (out.new.items ≡ out.old.items ++ meant.moment_bytes clock.year clock.month clock.day (clock.second / 3600) (clock.second / 60 % 60) (clock.second % 60) clock.micros) }
{
    out.push(128)?;
    put_three(
        out,
        u32::from(clock.year),
        u32::from(clock.month),
        u32::from(clock.day),
    )?;
    put_three(
        out,
        clock.second / 3600,
        clock.second / 60 % 60,
        clock.second % 60,
    )?;
    put_micros(out, clock.micros)
}

/// Appends the cell of a time, nothing where it is out of range.
#[tactic(auto, unfolding(write_meaning::specs::Encoding::time_bytes, write_meaning::specs::Encoding::time_cell))]
pub(crate) fn put_time(out: &mut Vec<u8>, time: i64) -> Result<(), OutOfMemory>
    ensures { OnOk result (out.new.items ≡ out.old.items ++ meant.time_cell time) }
{
    if time < -62_135_596_800_000_000 {
        return Ok(());
    }
    if time > 253_402_300_799_999_999 {
        return Ok(());
    }
    let start = out.len();
    put_moment(out, clock_at(time))?;
    close_cell(out, start, 6)
}
