ghost use Rattle.std.specs.Prelude.{◌≡◌};
ghost use Rattle.ion_cells.specs.Tags.{tag_of_byte, tag_of_type, kind_of_tag};

use crate::kind::Kind;
use crate::types::{FALSE, LIST, NEGATIVE, STRING, SYMBOL, TIMESTAMP, TRUE, WHOLE};

/// What the first byte of a cell says: its value, or what stands in its content.
#[derive(Clone, Copy)]
pub(crate) enum Tag {
    Null,
    False,
    True,
    Whole,
    Negative,
    Time,
    Symbol,
    Text,
    List,
    Struct,
}

impl Tag {
    /// The kind of the cells with this tag.
    #[inline(always)]
    pub(crate) fn kind(self) -> Kind
        ensures { result ≡ kind_of_tag self }
    {
        match self {
            Tag::Null => Kind::Null,
            Tag::False => Kind::Bool,
            Tag::True => Kind::Bool,
            Tag::Whole => Kind::Int,
            Tag::Negative => Kind::Int,
            Tag::Time => Kind::Time,
            Tag::Symbol => Kind::Symbol,
            Tag::Text => Kind::Text,
            Tag::List => Kind::List,
            Tag::Struct => Kind::Struct,
        }
    }
}

/// The tag of a cell of one byte.
#[inline(always)]
pub(crate) fn byte_tag(byte: u8) -> Tag
    ensures { result ≡ tag_of_byte byte }
{
    match byte {
        TRUE => Tag::True,
        FALSE => Tag::False,
        _ => Tag::Null,
    }
}

/// The tag of a cell whose content is of this type.
#[inline(always)]
pub(crate) fn type_tag(kind: u8) -> Tag
    ensures { result ≡ tag_of_type kind }
{
    match kind {
        WHOLE => Tag::Whole,
        NEGATIVE => Tag::Negative,
        TIMESTAMP => Tag::Time,
        SYMBOL => Tag::Symbol,
        STRING => Tag::Text,
        LIST => Tag::List,
        _ => Tag::Struct,
    }
}
