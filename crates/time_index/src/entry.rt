use std::marker::Model;

/// What an index says of a block. The times of a block are those of the indexed field; a least
/// time above the greatest says that the block has none.
#[derive(Clone, Copy, Debug, PartialEq, Eq)]
pub struct Entry {
    /// Where the block starts in the file, in bytes.
    pub start: u64,
    /// The block's bytes.
    pub length: u32,
    /// The block's rows.
    pub rows: u32,
    /// The block's least time, in microseconds since 1970-01-01T00:00:00Z.
    pub least: i64,
    /// The block's greatest time, in the same unit.
    pub greatest: i64,
}

impl Model for Entry {
    ghost use Rattle.file_meaning.specs.Files.{Entry as BlockEntry};

    ghost Value = { BlockEntry };

    ghost view = { λ e. record { start = e.start; length = e.length; rows = e.rows; least = e.least; greatest = e.greatest } };

    ghost inverse = { λ e. record { start = e.start; length = e.length; rows = e.rows; least = e.least; greatest = e.greatest } };
}
