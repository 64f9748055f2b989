//! How tokens are spelled and how they stand in a text. Nothing here runs: [`tokens_are_the_longest`] is the law that
//! the lexer of `query_meaning` takes, from left to right, the longest token at each place.
#![tactic(auto)]

ghost use Rattle.token_meaning.specs.Laws.{TokensAreTheLongest};

/// The tokens of a text follow each other from its front to its end, each the longest at its place.
pub fn tokens_are_the_longest()
    ensures { TokensAreTheLongest }
{}
