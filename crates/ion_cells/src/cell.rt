ghost use Rattle.std.specs.Prelude.{◌≡◌, ◌≤◌, true, length};
ghost use Rattle.block_meaning.specs.CellReading.{is_cell, blank_table};
ghost use Rattle.ion_cells.specs.Tags.{Opens};

use crate::content::Content;
use crate::front::{Front, read_front};
use crate::iterators::{Cells, Fields};
use crate::kind::Kind;
use crate::numbers::magnitude;
use crate::tag::Tag;
use crate::times::micros_of;

/// A cell, by its bytes, under a symbol table with a certain last number. What its first bytes say is found once, when the
/// cell is made. Each reader of one kind is None exactly where the cell is of another kind.
#[derive(Clone, Copy)]
pub struct Cell<'b> {
    bytes: &'b [u8],
    last: u32,
    tag: Tag,
    start: u8,
    ghost legal: { is_cell (blank_table last) bytes.now ≡ true },
    ghost opens: { Opens tag start bytes.now },
    ghost within: { start ≤ length bytes.now },
}

impl<'b> Cell<'b> {
    ghost use Rattle.std.specs.Prelude.{◌≡◌, ◌≤◌, Some, None, IfSome, IsTrue, if◌then◌else◌};
    ghost use Rattle.std.specs.Option.{option_map};
    ghost use Rattle.value_meaning.specs.Val.{Val};
    ghost use Rattle.time_meaning.specs.Moments.{IsTime};
    ghost use Rattle.block_meaning.specs.Numbers.{magnitude};
    ghost use Rattle.block_meaning.specs.Tables.{Table, text_of};
    ghost use Rattle.block_meaning.specs.Cells.{IsCell};
    ghost use Rattle.block_meaning.specs.Blocks.{only_payload};
    ghost use Rattle.ion_cells.specs.Shown.{cell_bytes, cell_last, cell_content, shown, is_symbol_cell, Fits};
    ghost use Rattle.ion_cells.specs.Kinds.{kind_of};
    ghost use Rattle.ion_cells.specs.Values.{int_of, truth_of, time_of, text_in, items_in, pairs_in};
    ghost use Rattle.ion_cells.specs.Iterating.{items_last, values_left, fields_last, pairs_left};
    ghost use Rattle.ion_cells.specs.Contents.{content_value, symbol_in, IsWithin};

    /// The cell of these bytes, which are one and nothing else. They aren't checked: the caller knows it.
    #[inline(always)]
    #[tactic(auto, unfolding(crate::specs::Shown::cell_bytes, crate::specs::Shown::cell_last))]
    pub fn of_bytes(bytes: &'b [u8], last: u32) -> Cell<'b>
        requires { is_cell (blank_table last) bytes.now ≡ true }
        ensures bytes { cell_bytes result ≡ bytes.now }
        ensures last { cell_last result ≡ last }
    {
        match read_front(bytes) {
            Some(front) => Cell {
                bytes,
                last,
                tag: front.tag,
                start: front.start,
            },
            None => unreachable!(),
        }
    }

    /// The same of bytes whose front is known.
    #[inline(always)]
    #[tactic(auto, unfolding(crate::specs::Shown::cell_bytes, crate::specs::Shown::cell_last))]
    pub(crate) fn of_front(bytes: &'b [u8], last: u32, front: Front) -> Cell<'b>
        requires legal { is_cell (blank_table last) bytes.now ≡ true }
        requires opens { Opens front.tag front.start bytes.now }
        requires within { front.start ≤ length bytes.now }
        ensures bytes { cell_bytes result ≡ bytes.now }
        ensures last { cell_last result ≡ last }
    {
        Cell {
            bytes,
            last,
            tag: front.tag,
            start: front.start,
        }
    }

    /// The same cell, under the tables with this last number.
    #[inline(always)]
    #[tactic(auto, unfolding(crate::specs::Shown::cell_bytes, crate::specs::Shown::cell_last))]
    pub fn under(&self, last: u32) -> Cell<'b>
        requires { is_cell (blank_table last) (cell_bytes self.now) ≡ true }
        ensures bytes { cell_bytes result ≡ cell_bytes self.now }
        ensures last { cell_last result ≡ last }
    {
        Cell {
            bytes: self.bytes,
            last,
            tag: self.tag,
            start: self.start,
        }
    }

    /// The bytes of the cell.
    #[inline(always)]
    #[tactic(auto, unfolding(crate::specs::Shown::cell_bytes))]
    pub fn bytes(&self) -> &'b [u8]
        ensures bytes { result.now ≡ cell_bytes self.now }
        ensures cell { (table : Table) → Fits table self.now
            → IsCell table 0 (shown table self.now) result.now }
    {
        self.bytes
    }

    /// What kind of value the cell denotes.
    #[inline(always)]
    pub fn kind(&self) -> Kind
        ensures { (table : Table) → Fits table self.now
            → result ≡ kind_of (is_symbol_cell self.now) (shown table self.now) }
    {
        self.tag.kind()
    }

    /// What stands behind the first bytes, which say the kind and, where they do, the length.
    #[inline(always)]
    #[tactic(auto, unfolding(crate::specs::Shown::cell_content))]
    fn payload(&self) -> &'b [u8]
        ensures { result.now ≡ cell_content self.now }
    {
        &self.bytes[usize::from(self.start)..]
    }

    /// What the cell denotes, with its kind.
    #[inline(always)]
    pub fn content(&self) -> Content<'b>
        ensures value { (table : Table) → Fits table self.now
            → content_value table result ≡ shown table self.now }
        ensures symbol { symbol_in result
            ≡ option_map magnitude (only_payload 7 (cell_bytes self.now)) }
        ensures within { IsWithin (cell_last self.now) result }
    {
        let last = self.last;
        let payload = self.payload();
        match self.tag {
            Tag::Null => Content::Null,
            Tag::False => Content::Bool(false),
            Tag::True => Content::Bool(true),
            Tag::Whole => Content::Int(magnitude(payload) as i64),
            Tag::Negative => Content::Int(-1 - (magnitude(payload) - 1) as i64),
            Tag::Time => match micros_of(payload) {
                Some(micros) => Content::Time(micros),
                None => unreachable!(),
            },
            Tag::Symbol => Content::Symbol(magnitude(payload) as u32),
            Tag::Text => Content::Text(unsafe { std::str::from_utf8_unchecked(payload) }),
            Tag::List => Content::List(Cells::of_bytes(payload, last)),
            Tag::Struct => Content::Struct(Fields::of_bytes(payload, last)),
        }
    }

    /// The number.
    #[inline(always)]
    pub fn int(&self) -> Option<i64>
        ensures { (table : Table) → Fits table self.now → result ≡ int_of (shown table self.now) }
    {
        match self.content() {
            Content::Int(number) => Some(number),
            _ => None,
        }
    }

    /// The truth value.
    #[inline(always)]
    pub fn boolean(&self) -> Option<bool>
        ensures { (table : Table) → Fits table self.now → result ≡ truth_of (shown table self.now) }
    {
        match self.content() {
            Content::Bool(truth) => Some(truth),
            _ => None,
        }
    }

    /// The time, in microseconds from 1970-01-01T00:00:00Z on. It lies from the year 1 to the year 9999.
    #[inline(always)]
    pub fn micros(&self) -> Option<i64>
        ensures time { (table : Table) → Fits table self.now
            → result ≡ time_of (shown table self.now) }
        ensures range { IfSome result IsTime }
    {
        match self.content() {
            Content::Time(micros) => Some(micros),
            _ => None,
        }
    }

    /// The text whose bytes stand in the cell.
    #[inline(always)]
    pub fn text(&self) -> Option<&'b str>
        ensures { (table : Table) → Fits table self.now
            → option_map (λ s. s.now) result
            ≡ (if is_symbol_cell self.now then None else text_in (shown table self.now)) }
    {
        match self.content() {
            Content::Text(text) => Some(text),
            _ => None,
        }
    }

    /// The number in the symbol table of the text that the cell denotes, where the number stands in the cell.
    #[inline(always)]
    pub fn symbol(&self) -> Option<u32>
        ensures number { result ≡ option_map magnitude (only_payload 7 (cell_bytes self.now)) }
        ensures range { IfSome result (λ n. (10 ≤ n) × (n ≤ cell_last self.now)) }
        ensures text { IfSome result (λ n. (table : Table) → Fits table self.now
            → text_of table n ≡ text_in (shown table self.now)) }
    {
        match self.content() {
            Content::Symbol(number) => Some(number),
            _ => None,
        }
    }

    /// The cells of the list, in order.
    #[inline(always)]
    pub fn items(&self) -> Option<Cells<'b>>
        ensures values { (table : Table) → Fits table self.now
            → option_map (values_left table) result ≡ items_in (shown table self.now) }
        ensures last { IfSome result (λ s. items_last s ≡ cell_last self.now) }
    {
        match self.content() {
            Content::List(cells) => Some(cells),
            _ => None,
        }
    }

    /// The pairs of the struct, a label and a cell each, in order. The text of a label is its text in the symbol table.
    #[inline(always)]
    pub fn fields(&self) -> Option<Fields<'b>>
        ensures pairs { (table : Table) → Fits table self.now
            → option_map (pairs_left table) result ≡ pairs_in (shown table self.now) }
        ensures last { IfSome result (λ s. fields_last s ≡ cell_last self.now) }
    {
        match self.content() {
            Content::Struct(pairs) => Some(pairs),
            _ => None,
        }
    }
}
