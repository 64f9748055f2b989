//! Tokens of a query's text: [`tokens`] cuts a text into the longest tokens, `tokens(alloc, "SELECT a FROM t")?`.
//! The trees that a text is read into are those of `query_tree`.
#![tactic(auto)]

mod classes;
mod cuts;
mod lexer;
mod numbers;
mod quotes;
mod signs;
mod token;

pub use lexer::tokens;
pub use numbers::number_of;
pub use query_tree::{
    Arm, Arms, Expr, Exprs, Item, Operand, OrderKey, OrderKeys, OutItems, Outputs, Query,
};
pub use signs::sign_of;
pub use token::{LexFault, Token, Tokens};
pub use tree_meaning::{AggName, BinOp, CastTo, Func, How, IsWhat, Part};
