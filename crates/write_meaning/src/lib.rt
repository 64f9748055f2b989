//! What is written for values, rows and blocks: how much they weigh, the symbol table of a block, and the bytes.
//! Nothing here runs: each function is a law of the definitions.
#![tactic(auto)]

ghost use Rattle.write_meaning.specs.Laws.{EncodingsAreCells, EncodingsAreLight, BlocksAreWritten};
ghost use Rattle.write_meaning.specs.Laws.{BlocksAreLight, RowsMayBeBlocks, OneTable, PlacingIsExact};

/// What is written for a value is its cell.
pub fn encodings_are_cells()
    ensures { EncodingsAreCells }
{}

/// A value takes at most as many bytes as it weighs.
pub fn encodings_are_light()
    ensures { EncodingsAreLight }
{}

/// What is written for rows is their block.
pub fn blocks_are_written()
    ensures { BlocksAreWritten }
{}

/// Rows have at most one table.
pub fn rows_have_one_table()
    ensures { OneTable }
{}

/// Putting texts into their places makes a table that rises and has just these texts.
pub fn placing_is_exact()
    ensures { PlacingIsExact }
{}

/// A block takes at most 32 bytes more than its rows weigh.
pub fn blocks_are_light()
    ensures { BlocksAreLight }
{}

/// Rows that may be written may stand in one block under their table.
pub fn rows_may_be_blocks()
    ensures { RowsMayBeBlocks }
{}
