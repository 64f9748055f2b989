//! How queries are printed, and that what is printed is read again. Nothing here runs: each function is a law.
#![tactic(auto)]

ghost use Rattle.print_meaning.specs.Laws.{
  PrintedTimesAreRead,
  PrintedTokensAreTheQuery,
  PrintedTextHasItsTokens,
  PrintedQueriesAreReadAgain,
};
ghost use Rattle.print_meaning.specs.Examples.{ArePrintedSo};

/// Some forty forms of expressions, and two queries, are printed as it is written beside them.
pub fn examples_are_printed_so()
    ensures { ArePrintedSo }
{}

/// The printed text of each time in range spells that time.
pub fn printed_times_are_read()
    ensures { PrintedTimesAreRead }
{}

/// The printed tokens of a well-formed query are that query, in the grammar and to its reader.
pub fn printed_tokens_are_the_query()
    ensures { PrintedTokensAreTheQuery }
{}

/// The printed text of a well-formed query has the printed tokens, and none of them is a refused word.
pub fn printed_text_has_its_tokens()
    ensures { PrintedTextHasItsTokens }
{}

/// Reading the printed text of a well-formed query gives that query, unless a limit refuses the text.
pub fn printed_queries_are_read_again()
    ensures { PrintedQueriesAreReadAgain }
{}
