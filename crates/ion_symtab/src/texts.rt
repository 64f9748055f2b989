ghost use Rattle.std.specs.Prelude.{◌≡◌, ◌+◌, ◌<◌, ◌≤◌, None, Some, length, drop, map, IfOk, IfSome, IsErrOf, if◌then◌else◌};
ghost use Rattle.std.specs.Option.{option_map};
ghost use Rattle.std.specs.Str.{is_utf8};
ghost use Rattle.block_meaning.specs.Blocks.{is_above, payload_of, texts_by};
ghost use Rattle.ion_symtab.specs.TextCells.{text_by};

use crate::fault::TabFault;
use ion_cells::head;
use ion_cells::types::STRING;
use simdutf8::basic;
use std::alloc::Global;

/// Whether the text is above the one before, if there is one.
fn is_rising(before: Option<&str>, text: &str) -> bool
    ensures { result ≡ is_above (option_map (λ s. s.now) before.entry) text.now }
{
    match before {
        Some(other) => other < text,
        None => true,
    }
}

/// The bytes as a text, where they are UTF-8.
fn as_text(bytes: &[u8]) -> Option<&str>
    ensures { option_map (λ s. s.now) result
        ≡ (if is_utf8 bytes.now then Some bytes.now else None) }
{
    match basic::from_utf8(bytes) {
        Ok(text) => Some(text),
        Err(_) => None,
    }
}

/// The payload of the string cell that begins at the place `at`, and the place after the cell.
#[tactic(auto, unfolding(block_meaning::specs::Blocks::payload_of))]
fn text_bytes(bytes: &[u8], at: usize) -> Option<(&[u8], usize)>
    requires { at ≤ length bytes.now }
    ensures bytes { option_map (λ p. (p.0.now, drop p.1 bytes.now)) result
        ≡ payload_of 8 (drop at bytes.now) }
    ensures within { IfSome result (λ p. (at < p.1) × (p.1 ≤ length bytes.now)) }
{
    let head = head(bytes, at)?;
    if head.kind == STRING {
        let end = head.start + head.count;
        Some((&bytes[head.start..end], end))
    } else {
        None
    }
}

/// The text of the string cell that begins at the place `at`, which is above the text before, and the place after the
/// cell.
#[tactic(auto, unfolding(crate::specs::TextCells::text_by))]
fn text_at<'b>(bytes: &'b [u8], at: usize, before: Option<&str>) -> Option<(&'b str, usize)>
    requires { at ≤ length bytes.now }
    ensures text { option_map (λ p. (p.0.now, drop p.1 bytes.now)) result
        ≡ text_by (option_map (λ s. s.now) before.entry) (drop at bytes.now) }
    ensures within { IfSome result (λ p. (at < p.1) × (p.1 ≤ length bytes.now)) }
{
    let (payload, end) = text_bytes(bytes, at)?;
    let text = as_text(payload)?;
    if is_rising(before, text) {
        Some((text, end))
    } else {
        None
    }
}

/// The texts of the string cells that the bytes are, end to end. Each text is above the one before.
pub(crate) fn texts_of<'b>(alloc: Global, cells: &'b [u8]) -> Result<Vec<&'b str>, TabFault>
    ensures texts { IfOk result (λ v. texts_by None (length cells.now) cells.now
        ≡ Some (map (λ s. s.now) v.items)) }
    ensures bad { IsErrOf result TabFault.BadTable
        → texts_by None (length cells.now) cells.now ≡ None }
{
    let mut texts = Vec::new(alloc);
    let mut before: Option<&'b str> = None;
    let mut at = 0;
    while at < cells.len() {
        match text_at(cells, at, before) {
            None => return Err(TabFault::BadTable),
            Some((text, end)) => {
                let Ok(()) = texts.push(text) else {
                    return Err(TabFault::OutOfMemory);
                };
                before = Some(text);
                at = end;
            }
        }
    }
    Ok(texts)
}
