//! Heads of cells.
ghost use Rattle.std.specs.Prelude.{◌≡◌, ◌≤◌, ◌++◌, length, take, drop, OnOk};
ghost use Rattle.write_meaning.specs.Encoding as meant;

use crate::numbers::{count_digits, put_digits, put_var_uint};
use snel_values::OutOfMemory;

/// Appends the head of a cell of this type whose payload has so many bytes.
#[tactic(auto, unfolding(write_meaning::specs::Encoding::head_bytes))]
pub(crate) fn put_head(out: &mut Vec<u8>, kind: u8, count: usize) -> Result<(), OutOfMemory>
    requires { kind ≤ 14 }
    ensures { OnOk result (out.new.items ≡ out.old.items ++ meant.head_bytes kind count) }
{
    if count <= 13 {
        out.push(16 * kind + count as u8)?;
        Ok(())
    } else {
        out.push(16 * kind + 14)?;
        put_var_uint(out, count as u64)
    }
}

/// Appends a cell of this type whose payload is a magnitude of at most `room` bytes.
#[tactic(auto, unfolding(write_meaning::specs::Encoding::cell_bytes))]
pub(crate) fn put_magnitude(
    out: &mut Vec<u8>,
    kind: u8,
    number: u64,
    room: usize,
) -> Result<(), OutOfMemory>
    requires kind { kind ≤ 14 }
    requires room { room ≤ 8 }
    ensures { OnOk result (out.new.items ≡ out.old.items ++ meant.cell_bytes kind (meant.digits 256 room number)) }
{
    put_head(out, kind, count_digits(number, 256, room))?;
    put_digits(out, number, 256, room)
}

/// Appends a cell of this type with this payload.
#[tactic(auto, unfolding(write_meaning::specs::Encoding::cell_bytes))]
pub(crate) fn put_cell(out: &mut Vec<u8>, kind: u8, payload: &[u8]) -> Result<(), OutOfMemory>
    requires { kind ≤ 14 }
    ensures { OnOk result (out.new.items ≡ out.old.items ++ meant.cell_bytes kind payload.now) }
{
    put_head(out, kind, payload.len())?;
    out.extend_from_slice(payload)?;
    Ok(())
}

/// Makes what stands from the place `start` on the payload of a cell of this type.
#[tactic(auto, unfolding(write_meaning::specs::Encoding::cell_bytes))]
pub(crate) fn close_cell(out: &mut Vec<u8>, start: usize, kind: u8) -> Result<(), OutOfMemory>
    requires kind { kind ≤ 14 }
    requires within { start ≤ length out.old.items }
    ensures { OnOk result (out.new.items ≡ take start out.old.items ++ meant.cell_bytes kind (drop start out.old.items)) }
{
    let end = out.len();
    put_head(out, kind, end - start)?;
    let head = out.len() - end;
    out[start..].rotate_right(head);
    Ok(())
}
