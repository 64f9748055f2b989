//! Testing the blocks of one block file, one after the other: [`first_bad`] names the first bad one, and [`check_line`] is the
//! line of a file that has none: `first_bad(alloc, &names, 0, &index, &mut files)?`.
#![tactic(auto)]

mod line;
mod scan;
mod testing;

pub use line::check_line;
pub use scan::first_bad;
