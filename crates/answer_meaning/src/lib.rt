//! What an answer is, and how it is written. Nothing here runs: each function is a law of the definitions.
#![tactic(auto)]

ghost use Rattle.answer_meaning.specs.Laws.{OrderOfMadeRowsIsFree};

/// Made rows in another order have the same answers.
pub fn order_of_made_rows_is_free()
    ensures { OrderOfMadeRowsIsFree }
{}
