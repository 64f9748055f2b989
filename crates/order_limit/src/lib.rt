//! Rows in the order of their sort keys: [`arrange`] sorts made rows and cuts them by OFFSET and LIMIT, as in
//! `arrange(alloc, rows, &[true], 0, Some(10))?` for `ORDER BY x DESC LIMIT 10`; a [`TopK`] holds no more rows than it gives.
#![tactic(auto)]

ghost use Rattle.order_limit.specs.Laws.{ArrangedRowsAreAnswers};

mod arranging;
mod compare;
mod heap;
mod moving;
mod top_rows;

pub use arranging::arrange;
pub use top_rows::TopK;

/// The lines of rows that are arranged are those of an answer for the made rows of which they are the keys and lines, in any order.
pub fn arranged_rows_are_answers()
    ensures { ArrangedRowsAreAnswers }
{}
