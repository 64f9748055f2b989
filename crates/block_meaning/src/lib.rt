//! What cells, symbol tables and blocks are, and their limits. Nothing here runs: each function is a law of the
//! definitions.
#![tactic(auto)]

ghost use Rattle.block_meaning.specs.Laws.{CellsAreRead, TablesAreRead, BlocksAreRead, OneListOfRows, LastSymbolDecides, RowsAreSound, CellsAreStored};
ghost use Rattle.block_meaning.specs.Examples.{ExamplesAreReadSo};

/// The most bytes of a block.
pub const MOST_BLOCK_BYTES: usize = 1_048_576;

/// The most rows of a block, which has one at least.
pub const MOST_BLOCK_ROWS: u32 = 65_536;

/// The most lists and structs within one another, a row being the first.
pub const MOST_DEPTH: u8 = 128;

/// Reading answers exactly the cell that stands at the front, at every depth.
pub fn cells_are_read()
    ensures { CellsAreRead }
{}

/// Reading answers exactly the symbol table that stands at the front.
pub fn tables_are_read()
    ensures { TablesAreRead }
{}

/// Reading answers exactly the table and the rows of which the bytes are the block.
pub fn blocks_are_read()
    ensures { BlocksAreRead }
{}

/// Bytes are a block of at most one list of rows.
pub fn one_list_of_rows()
    ensures { OneListOfRows }
{}

/// Which bytes are a cell depends on the last number of the table alone.
pub fn last_symbol_decides()
    ensures { LastSymbolDecides }
{}

/// The rows of a block have names that rise and texts that are UTF-8, at every depth, and each of them is stored.
pub fn rows_are_sound()
    ensures { RowsAreSound }
{}

/// What a cell denotes is stored: no MISSING is in it, its numbers and times stand in their ranges, and it isn't too deep.
pub fn cells_are_stored()
    ensures { CellsAreStored }
{}

/// Blocks, symbol tables and cells that were written by hand are read as what they are.
pub fn examples_are_read_so()
    ensures { ExamplesAreReadSo }
{}
