use query_check::{Limit, Place};

/// Why the text of a query isn't answered. Places in the text count bytes from 0; outputs and keys are counted from 1.
#[derive(Clone, Copy)]
pub enum TextFault {
    /// It has more than 65,536 bytes.
    TooLong,
    /// At this place no token can be taken.
    BadToken(u32),
    /// It has more than 2,048 tokens.
    TooManyTokens,
    /// A refused word stands at this place.
    RefusedWord(u32),
    /// The token at this place nests more than 64 deep.
    TooDeep(u32),
    /// Its tokens are no query.
    NotAQuery,
    /// The query passes this limit.
    TooMany(Limit),
    /// An aggregate is misplaced there.
    Nested(Place),
    /// What stands there isn't grouped.
    NotGrouped(Place),
    /// What stands there isn't allowed over groups.
    OverGroups(Place),
    /// The output of this number has an earlier output's name.
    SameName(u32),
    /// The order key of this number is the number of no output.
    NoSuchOrder(u32),
}
