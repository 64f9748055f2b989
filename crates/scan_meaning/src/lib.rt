//! What a query over several files gives rise to: which blocks it reads, in which batches, the first thing that stands in its
//! way, how it may end and how many bytes it may read. Nothing here runs: each function is a law of the definitions.
#![tactic(auto)]

ghost use Rattle.scan_meaning.specs.Laws.{BlocksAreExact, RangesAreExact, UnwantedAreExcluded, OneVerdict, SomeVerdict, OneCount, SomeCount, FirstBadIsFirst, SomeAnswer, EndedIsAnswered};

/// The rows of a block are those of which its bytes are a block of so many rows.
pub fn blocks_are_exact()
    ensures { BlocksAreExact }
{}

/// The test of a block's range is the soundness of its entry.
pub fn ranges_are_exact()
    ensures { RangesAreExact }
{}

/// A block isn't read exactly where the bounds of the WHERE exclude it.
pub fn unwanted_are_excluded()
    ensures { UnwantedAreExcluded }
{}

/// A query, names and files give rise to at most one verdict.
pub fn one_verdict()
    ensures { OneVerdict }
{}

/// Where files hold bytes, there is a verdict.
pub fn some_verdict()
    ensures { SomeVerdict }
{}

/// The blocks of the batches that count are determined.
pub fn one_count()
    ensures { OneCount }
{}

/// Some number of batches counts.
pub fn some_count()
    ensures { SomeCount }
{}

/// The first bad block in the batches that count is the first of all.
pub fn first_bad_is_first()
    ensures { FirstBadIsFirst }
{}

/// Each query has an answer for each list of rows.
pub fn some_answer()
    ensures { SomeAnswer }
{}

/// A query that ended as its verdict allows has written lines of an answer for the rows of its files.
pub fn ended_is_answered()
    ensures { EndedIsAnswered }
{}
