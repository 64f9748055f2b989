//! What block files are, their limits, and which rows they hold. Nothing here runs: each function is a law of the
//! definitions.
#![tactic(auto)]

ghost use Rattle.file_meaning.specs.Laws.{OneIndex, ReadsExactly, OneListOfFileRows};

/// The most blocks of a file of the first version.
pub const MOST_BLOCKS: usize = 1_048_576;

/// The most bytes of the name of the field that a file of the first version indexes.
pub const MOST_NAME_BYTES: usize = 255;

/// The most bytes of a block in a file of the first version.
pub const MOST_ENTRY_BYTES: u32 = 1_048_576;

/// The most rows of a block in a file of the first version.
pub const MOST_ENTRY_ROWS: u32 = 65_536;

/// The bytes of the shortest index, without a name and without entries.
pub const LEAST_INDEX_BYTES: u64 = 10;

/// The bytes of the longest index, with the longest name and the most entries.
pub const MOST_INDEX_BYTES: u64 = 33_554_697;

/// Bytes are a block file with at most one index.
pub fn one_index()
    ensures { OneIndex }
{}

/// Reading the tail and then the index answers exactly the index of a block file.
pub fn reading_is_exact()
    ensures { ReadsExactly }
{}

/// The rows of a file's undamaged blocks are one list, and there always is one.
pub fn one_list_of_rows()
    ensures { OneListOfFileRows }
{}
