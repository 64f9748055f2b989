//! The query that is put to a log once it is made, and how it ends over the log's file. Nothing here runs: each function is a
//! law of the definitions.
#![tactic(auto)]

ghost use Rattle.make_meaning.specs.Laws.{LogQueryIsAccepted, LogQueryEnds};

/// The text of the query is a query, which is accepted.
pub fn log_query_is_accepted()
    ensures { LogQueryIsAccepted }
{}

/// Over a file of few rows whose entries are sound, the query finds no bad block and not too many groups, and what it writes
/// is an answer for these rows.
pub fn log_query_ends()
    ensures { LogQueryEnds }
{}
