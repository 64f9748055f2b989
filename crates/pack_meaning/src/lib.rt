//! What packing means: the rows of lines of JSON, which line is refused and why, how rows are cut into blocks, and the
//! one file that is written for them. Nothing here runs: each function is a law of the definitions.
#![tactic(auto)]

ghost use Rattle.pack_meaning.specs.Laws.{LinesAre, CutsAreMade, TablesAreOfRows, FilesHoldRows, CutsHoldTheSame};

/// The most bytes of a line, without the byte that ends it.
pub const MOST_LINE_BYTES: usize = 1_048_576;

/// The most bytes of an input.
pub const MOST_INPUT_BYTES: u64 = 4_398_046_511_104;

/// Why a line is refused. Of several reasons the first of this order counts.
#[derive(Clone, Copy, Debug, PartialEq, Eq)]
pub enum LineWhy {
    /// It reaches past the 2^42 bytes that an input may have.
    TooMuch,
    /// It has more than 1,048,576 bytes.
    TooLong,
    /// It is no JSON that `serde_json` reads.
    NotJson,
    /// It is no object.
    NotObject,
    /// It holds a fraction, and fractions aren't dropped.
    Number,
    /// Its row weighs more than a block may.
    TooLarge,
    /// Its row would open one block more than a file may have.
    Full,
}

/// Up to each line end there is a line, and one behind the last, if any byte follows it.
pub fn lines_are_split()
    ensures { LinesAre }
{}

/// Cutting row by row makes the cut, and there is no other.
pub fn cuts_are_made()
    ensures { CutsAreMade }
{}

/// The table that is written is the table of the rows.
pub fn tables_are_of_rows()
    ensures { TablesAreOfRows }
{}

/// The file of rows is a block file of just these rows, whose entries are sound.
pub fn files_hold_rows()
    ensures { FilesHoldRows }
{}

/// However rows are cut, their files hold the same rows, and no others.
pub fn cuts_hold_the_same()
    ensures { CutsHoldTheSame }
{}
