ghost use Rattle.std.specs.Prelude.{◌≡◌, ◌<◌, ◌≤◌, ◌^◌, true, length, drop, IfSome};
ghost use Rattle.std.specs.Option.{option_map};
ghost use Rattle.ion_cells.specs.Left.{are_fields, pairs_of};
ghost use Rattle.ion_cells.specs.Finding.{pair_front, FindsPair};

use crate::cell::Cell;
use crate::front::{is_short, read_front};
use crate::numbers::var_uint;

/// The cell of the pair with the label, among the pairs that the bytes are, whose labels rise from `first` on. The pairs
/// before it are passed by their labels and the first bytes of their cells.
#[inline(always)]
pub(crate) fn find_label(bytes: &[u8], last: u32, first: u32, label: u32) -> Option<Cell<'_>>
    requires { are_fields last first bytes.now ≡ true }
    ensures { FindsPair last (λ table. pairs_of table first bytes.now) label result }
{
    let mut at = 0;
    while at < bytes.len() {
        let Some((next, start, end)) = pair_at(bytes, at) else {
            unreachable!();
        };
        if next == label {
            return Some(Cell::of_bytes(&bytes[start..end], last));
        }
        if next > label {
            return None;
        }
        at = end;
    }
    None
}

/// The label of the pair that begins at the place `at`, the place where its cell begins and the place after it. A label
/// below 128 whose cell tells its length in the first byte is the short way.
#[inline(always)]
#[tactic(auto, unfolding(crate::specs::Finding::pair_front))]
fn pair_at(bytes: &[u8], at: usize) -> Option<(u32, usize, usize)>
    requires { at ≤ length bytes.now }
    ensures front { option_map (λ p. (p.0, drop p.1 bytes.now, drop p.2 bytes.now)) result
        ≡ pair_front (drop at bytes.now) }
    ensures within { IfSome result (λ p. (at < p.1) × (p.1 ≤ p.2) × (p.2 ≤ length bytes.now)
        × (p.0 < 2 ^ 28)) }
{
    if bytes.len() - at > 1 && bytes[at] >= 128 && is_short(bytes[at + 1]) {
        let end = at + 2 + usize::from(bytes[at + 1] % 16);
        if bytes.len() < end {
            return None;
        }
        return Some((u32::from(bytes[at] - 128), at + 1, end));
    }
    long_pair_at(bytes, at)
}

/// The same of any pair.
#[inline(never)]
#[tactic(auto, unfolding(crate::specs::Finding::pair_front))]
fn long_pair_at(bytes: &[u8], at: usize) -> Option<(u32, usize, usize)>
    requires { at ≤ length bytes.now }
    ensures front { option_map (λ p. (p.0, drop p.1 bytes.now, drop p.2 bytes.now)) result
        ≡ pair_front (drop at bytes.now) }
    ensures within { IfSome result (λ p. (at < p.1) × (p.1 ≤ p.2) × (p.2 ≤ length bytes.now)
        × (p.0 < 2 ^ 28)) }
{
    let (label, start) = var_uint(bytes, at)?;
    let front = read_front(&bytes[start..])?;
    Some((label, start, start + front.end))
}
