//! Expressions of queries: [`expr`] reads the one that begins at a place, `expr(alloc, room, looks, at)?`.
//! Each rule is a method of [`Grammar`], over a reader of the expressions that stand within; only `expr` calls itself.
#![tactic(auto)]

mod calls;
mod conditions;
mod grammar;
mod heads;
mod levels;
mod operands;
mod paths;
mod tails;

pub use grammar::{Grammar, expr, list};
