//! What stands in the expressions of a query: [`same_expr`] says whether two are equal, [`copy_expr`] makes an equal one,
//! [`has_part`] looks for a form among the parts of one, and [`gather`] collects its aggregates.
#![tactic(auto)]

mod copies;
mod equality;
mod head;
mod operands;
mod parts;

pub use copies::copy_expr;
pub use equality::{is_among, same_expr};
pub use operands::item;
pub use parts::{Asked, gather, has_doubled, has_part};
