//! The answer of a grouped query from the rows of its groups: [`answer_of_groups`] makes their sort keys and lines, sorts them,
//! and cuts them by OFFSET and LIMIT, as in `answer_of_groups(alloc, &checked, rows)?`.
#![tactic(auto)]

mod answering;
mod flags;

pub use answering::answer_of_groups;
