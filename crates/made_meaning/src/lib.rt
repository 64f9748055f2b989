//! What a query makes of rows: a made row of each that WHERE keeps, or of each group. Nothing here runs: each function is
//! a law of the definitions.
#![tactic(auto)]

ghost use Rattle.made_meaning.specs.Laws.{OrderOfRowsIsFree, StarMakesAllRows, UngroupedMakesRows};

/// A query that isn't grouped makes one row of each that WHERE keeps.
pub fn ungrouped_makes_rows()
    ensures { UngroupedMakesRows }
{}

/// `SELECT *` makes of each row its own pairs.
pub fn star_makes_all_rows()
    ensures { StarMakesAllRows }
{}

/// Rows in another order have the same answers.
pub fn order_of_rows_is_free()
    ensures { OrderOfRowsIsFree }
{}
