//! Which times a WHERE leaves of a field, and which blocks of a file hold none of them. Nothing here runs: each function
//! is a law of the definitions.
#![tactic(auto)]

ghost use Rattle.range_meaning.specs.Laws.{IntervalsAreExact, MeetsAreExact, NoExcludedRowPasses};

/// The times that the conjuncts of a WHERE leave of a field, in microseconds since 1970-01-01T00:00:00Z.
#[derive(Clone, Copy, Debug, PartialEq, Eq)]
pub enum Bounds {
    /// No conjunct binds the field: rows with any time of it may pass, and so may rows with none.
    All,
    /// Only rows with a time from `low` to `high`, both included, may pass. Where `low` is above `high` none may.
    Between { low: i64, high: i64 },
}

/// The interval of a comparison with a moment has exactly the times of 64 bits for which the comparison holds.
pub fn intervals_are_exact()
    ensures { IntervalsAreExact }
{}

/// A number lies in a meet exactly where it lies in both bounds.
pub fn meets_are_exact()
    ensures { MeetsAreExact }
{}

/// No row of an excluded block whose entry is sound passes the WHERE that excludes the block.
pub fn no_excluded_row_passes()
    ensures { NoExcludedRowPasses }
{}
