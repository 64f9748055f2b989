//! Trees of queries as code: a [`Query`] with its expressions, each of which lies behind an [`Operand`].
#![tactic(auto)]

mod arms;
mod expr;
mod lists;
mod query;

pub use arms::{Arm, Arms};
pub use expr::{Expr, Operand};
pub use lists::{Exprs, Item, OrderKey, OrderKeys, OutItems};
pub use query::{Outputs, Query};
