ghost use Rattle.std.specs.Prelude.{◌≡◌, ◌-◌, ◌<◌, ◌≤◌, length, drop, IfSome};
ghost use Rattle.std.specs.Option.{option_map};
ghost use Rattle.ion_cells.specs.Tags as tags;
ghost use Rattle.ion_cells.specs.Tags.{opening};

use crate::heads::head;
use crate::scalars::is_one_byte;
use crate::tag::{Tag, byte_tag, type_tag};
use crate::types::STRUCT_IN_ORDER;

/// What the first bytes say of the cell that begins with them.
#[derive(Clone, Copy)]
pub(crate) struct Front {
    pub(crate) tag: Tag,
    /// The place where its content begins, 1 to 5.
    pub(crate) start: u8,
    /// The place after the cell.
    pub(crate) end: usize,
}

/// Whether the length of the content stands in this first byte, and the byte isn't the whole of a cell.
#[inline(always)]
pub(crate) fn is_short(first: u8) -> bool
    ensures { result ≡ tags.is_short first }
{
    first >= 0x20 && first % 16 < 14 && first != STRUCT_IN_ORDER
}

/// The front of the first of the cells. None where no cell begins there.
#[inline(always)]
#[tactic(auto, unfolding(crate::specs::Tags::opening))]
pub(crate) fn read_front(bytes: &[u8]) -> Option<Front>
    ensures opens { option_map (λ f. (f.tag, f.end - f.start, drop f.start bytes.now)) result
        ≡ opening bytes.now }
    ensures within { IfSome result (λ f. (f.start ≤ f.end) × (f.end ≤ length bytes.now)) }
{
    if bytes.is_empty() {
        return None;
    }
    let first = bytes[0];
    if is_short(first) {
        let end = 1 + usize::from(first % 16);
        if bytes.len() < end {
            return None;
        }
        return Some(Front {
            tag: type_tag(first / 16),
            start: 1,
            end,
        });
    }
    if is_one_byte(first) {
        return Some(Front {
            tag: byte_tag(first),
            start: 1,
            end: 1,
        });
    }
    let head = head(bytes, 0)?;
    Some(Front {
        tag: type_tag(head.kind),
        start: head.start as u8,
        end: head.start + head.count,
    })
}
