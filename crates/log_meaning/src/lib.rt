//! The rows of a made log: row by row a function of the number that the log starts from, as a generator of 64 bits gives
//! them. Nothing here runs: each function is a law of the definitions.
#![tactic(auto)]

ghost use Rattle.log_meaning.specs.Laws.{RowsMayBeWritten, RowsAreLight, RowsHaveTimes};

/// Every row of a log may stand in a block.
pub fn rows_may_be_written()
    ensures { RowsMayBeWritten }
{}

/// A row weighs at most 130.
pub fn rows_are_light()
    ensures { RowsAreLight }
{}

/// Each row has its time.
pub fn rows_have_times()
    ensures { RowsHaveTimes }
{}
