//! Forms of expressions over their operands: [`binary`] and its like put operands into a form,
//! `binary(alloc, BinOp::Add, left, right)?`; [`signs`] and [`denials`] count forms that stand one in another.
#![tactic(auto)]

mod building;
mod counting;

pub use building::{between, binary, cast, choice, is, literal, matching, member, negs, not, nots};
pub use counting::{denials, signs};
