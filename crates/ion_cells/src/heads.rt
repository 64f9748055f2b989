ghost use Rattle.std.specs.Prelude.{◌≡◌, ◌+◌, ◌-◌, ◌<◌, ◌≤◌, ◌^◌, length, drop, take, IfSome};
ghost use Rattle.std.specs.Option.{option_map};
ghost use Rattle.block_meaning.specs.CellReading.{counted, head_at};
ghost use Rattle.block_meaning.specs.Blocks.{payload_of, only_payload};

use crate::numbers::var_uint;
use crate::types::{STRUCT, STRUCT_IN_ORDER};

/// What the first bytes of a cell say.
#[derive(Clone, Copy, Debug, PartialEq, Eq)]
pub struct CellHead {
    /// The type of the cell, 0 to 15.
    pub kind: u8,
    /// How many bytes its payload has.
    pub count: usize,
    /// The place where the payload begins.
    pub start: usize,
}

/// The head of a cell of the type `kind` behind whose first byte the length of the payload stands, at least `least`.
#[inline(always)]
#[tactic(auto, unfolding(block_meaning::specs::CellReading::counted))]
fn counted(bytes: &[u8], at: usize, kind: u8, least: u32) -> Option<CellHead>
    requires { at ≤ length bytes.now }
    ensures head { option_map (λ h. (h.kind, h.count, drop h.start bytes.now)) result
        ≡ counted kind least (drop at bytes.now) }
    ensures within { IfSome result (λ h. (at < h.start) × (h.start + h.count ≤ length bytes.now)
        × (h.start ≤ at + 4)) }
{
    let (count, start) = var_uint(bytes, at)?;
    if count < least || bytes.len() - start < count as usize {
        None
    } else {
        Some(CellHead {
            kind,
            count: count as usize,
            start,
        })
    }
}

/// The head of the cell that begins at the place `at`, whose payload lies within the bytes. None where no head stands
/// there, or where the payload would pass the end. The low nibble 15, which says null, is no head.
#[inline(always)]
#[tactic(auto, unfolding(block_meaning::specs::CellReading::head_at))]
pub fn head(bytes: &[u8], at: usize) -> Option<CellHead>
    requires { at ≤ length bytes.now }
    ensures head { option_map (λ h. (h.kind, h.count, drop h.start bytes.now)) result
        ≡ head_at (drop at bytes.now) }
    ensures within { IfSome result (λ h. (at < h.start) × (h.start + h.count ≤ length bytes.now)
        × (h.start ≤ at + 5)) }
{
    if at >= bytes.len() {
        return None;
    }
    let first = bytes[at];
    if first == STRUCT_IN_ORDER {
        counted(bytes, at + 1, STRUCT, 1)
    } else if first % 16 < 14 {
        let count = usize::from(first % 16);
        if bytes.len() - (at + 1) < count {
            None
        } else {
            Some(CellHead {
                kind: first / 16,
                count,
                start: at + 1,
            })
        }
    } else if first % 16 == 14 {
        counted(bytes, at + 1, first / 16, 0)
    } else {
        None
    }
}

/// The payload of the cell of the type `kind` at the front, and what follows the cell. None where no cell of that type
/// begins there; a null has no payload.
#[tactic(auto, unfolding(block_meaning::specs::Blocks::payload_of))]
pub fn payload(kind: u8, bytes: &[u8]) -> Option<(&[u8], &[u8])>
    ensures { option_map (λ p. (p.0.now, p.1.now)) result ≡ payload_of kind bytes.now }
{
    let head = head(bytes, 0)?;
    if head.kind == kind {
        Some((
            &bytes[head.start..head.start + head.count],
            &bytes[head.start + head.count..],
        ))
    } else {
        None
    }
}

/// The payload of bytes that are one cell of the type `kind` and nothing else. None where they aren't; a null has no
/// payload.
#[tactic(auto, unfolding(block_meaning::specs::Blocks::only_payload))]
pub fn only_payload(kind: u8, bytes: &[u8]) -> Option<&[u8]>
    ensures { option_map (λ p. p.now) result ≡ only_payload kind bytes.now }
{
    let (content, rest) = payload(kind, bytes)?;
    if rest.is_empty() { Some(content) } else { None }
}
