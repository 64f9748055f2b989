ghost use Rattle.std.specs.Prelude.{◌≡◌, ◌↔◌, ◌+◌, ◌-◌, ◌<◌, ◌≤◌, ◌^◌, IsTrue, length, drop, take, is_some, IfSome};
ghost use Rattle.std.specs.Option.{option_map};
ghost use Rattle.block_meaning.specs.CellReading.{cell_to, cells_by, pairs_by, blank_table};
ghost use Rattle.ion_cells.specs.Steps.{payload_to, pair_by};

use crate::heads::head;
use crate::numbers::var_uint;
use crate::scalars::{is_one_byte, is_scalar, is_symbol};
use crate::types::{LIST, STRUCT};

/// Whether the byte begins a whole number of at most seven bytes, which each such number of bytes is.
#[inline(always)]
fn is_short_whole(first: u8) -> bool
    ensures { IsTrue result ↔ (32 ≤ first) × (first ≤ 39) }
{
    (0x20..=0x27).contains(&first)
}

/// The place after the cell that begins at the place `at`, within which lists and structs may stand `room` deep. The
/// last number of the table is `last`.
#[inline(always)]
#[cycle(check)]
pub(crate) fn check_to(bytes: &[u8], at: usize, last: u32, room: u8) -> Option<usize>
    requires { at ≤ length bytes.now }
    ensures end { option_map (λ e. drop e bytes.now) result
        ≡ option_map (λ x. x.1) (cell_to (blank_table last) room (drop at bytes.now)) }
    ensures within { IfSome result (λ e. (at < e) × (e ≤ length bytes.now)) }
{
    if at >= bytes.len() {
        return None;
    }
    let first = bytes[at];
    if is_short_whole(first) {
        let end = at + 1 + usize::from(first % 16);
        return if end <= bytes.len() { Some(end) } else { None };
    }
    if is_one_byte(first) {
        return Some(at + 1);
    }
    let head = head(bytes, at)?;
    let end = head.start + head.count;
    if is_payload(head.kind, &bytes[head.start..end], last, room) {
        Some(end)
    } else {
        None
    }
}

/// Whether the payload is one of its type, within which lists and structs may stand `room` deep.
#[inline(always)]
#[cycle(check)]
#[tactic(auto, unfolding(crate::specs::Steps::payload_to))]
fn is_payload(kind: u8, payload: &[u8], last: u32, room: u8) -> bool
    ensures { result ≡ is_some (payload_to (blank_table last) room kind payload.now) }
{
    if room == 0 {
        is_scalar(kind, payload, last)
    } else if kind == LIST {
        are_cells(payload, last, room - 1)
    } else if kind == STRUCT {
        are_pairs(payload, last, room - 1)
    } else {
        is_scalar(kind, payload, last)
    }
}

/// Whether the bytes are cells, end to end.
#[inline(never)]
#[cycle(check)]
fn are_cells(bytes: &[u8], last: u32, room: u8) -> bool
    ensures { result ≡ is_some (cells_by (cell_to (blank_table last) room) (length bytes.now)
        bytes.now) }
{
    let mut at = 0;
    while at < bytes.len() {
        match check_to(bytes, at, last, room) {
            Some(end) => at = end,
            None => return false,
        }
    }
    true
}

/// Whether the bytes are pairs of a label and a cell, end to end, the labels strictly increasing from 10 on.
#[inline(never)]
#[cycle(check)]
fn are_pairs(bytes: &[u8], last: u32, room: u8) -> bool
    ensures { result ≡ is_some (pairs_by (cell_to (blank_table last) room) (blank_table last) 10
        (length bytes.now) bytes.now) }
{
    let mut at = 0;
    let mut low = 10;
    while at < bytes.len() {
        match check_pair(bytes, at, low, last, room) {
            Some((label, end)) => {
                at = end;
                low = label + 1;
            }
            None => return false,
        }
    }
    true
}

/// The label of the pair that begins at the place `at`, which is `low` or more, and the place after the pair.
#[inline(always)]
#[cycle(check)]
#[tactic(auto, unfolding(crate::specs::Steps::pair_by))]
fn check_pair(bytes: &[u8], at: usize, low: u32, last: u32, room: u8) -> Option<(u32, usize)>
    requires { at ≤ length bytes.now }
    ensures end { option_map (λ p. (p.0, drop p.1 bytes.now)) result
        ≡ pair_by (cell_to (blank_table last) room) (blank_table last) low (drop at bytes.now) }
    ensures within { IfSome result (λ p. (at < p.1) × (p.1 ≤ length bytes.now) × (p.0 < 2 ^ 28)) }
{
    let (label, start) = var_uint(bytes, at)?;
    if label < low || !is_symbol(u64::from(label), last) {
        return None;
    }
    match check_to(bytes, start, last, room) {
        Some(end) => Some((label, end)),
        None => None,
    }
}
