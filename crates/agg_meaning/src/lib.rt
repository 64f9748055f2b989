//! What aggregates are: the value of each over the values that its operand has on the rows of a group, the state that is
//! kept of such values and joined, and when the key lists of two rows are one group's. Nothing here runs: each function is
//! a law of the definitions.
#![tactic(auto)]

ghost use Rattle.agg_meaning.specs.Laws.{AggregatesAreUnordered, PartialsHaveTheValue, PartialsAreUnordered, PartialsJoin};
ghost use Rattle.agg_meaning.specs.Laws.{LeastIsLeast, GreatestIsGreatest, SameKeysAreEqual};

/// An aggregate's value doesn't depend on the order of the rows.
pub fn aggregates_are_unordered()
    ensures { AggregatesAreUnordered }
{}

/// A partial aggregate has the aggregate's value.
pub fn partials_have_the_value()
    ensures { PartialsHaveTheValue }
{}

/// A partial aggregate doesn't depend on the order of the rows.
pub fn partials_are_unordered()
    ensures { PartialsAreUnordered }
{}

/// A partial aggregate of two lists, one after the other, is made of theirs.
pub fn partials_join()
    ensures { PartialsJoin }
{}

/// MIN and EARLIEST are the least of what they look at.
pub fn least_is_least()
    ensures { LeastIsLeast }
{}

/// MAX and LATEST are the greatest of what they look at.
pub fn greatest_is_greatest()
    ensures { GreatestIsGreatest }
{}

/// Lists of keys are the same exactly where they are equal.
pub fn same_keys_are_equal()
    ensures { SameKeysAreEqual }
{}
