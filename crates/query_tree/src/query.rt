use crate::expr::Operand;
use crate::lists::{Exprs, OrderKeys, OutItems};
use snel_values::Text;

/// What a query puts out: the whole row, or the values of expressions.
#[derive(Drop)]
pub enum Outputs {
    Star,
    Named(OutItems),
}

/// A query.
#[derive(Drop)]
pub struct Query {
    pub outputs: Outputs,
    /// The first name after FROM.
    pub source: Text,
    /// The second name after FROM, which is then the row's name.
    pub alias: Option<Text>,
    /// WHERE
    pub filter: Option<Operand>,
    /// GROUP BY, with no keys where it is absent
    pub keys: Exprs,
    pub having: Option<Operand>,
    /// ORDER BY, with no keys where it is absent
    pub order: OrderKeys,
    /// LIMIT
    pub take: Option<u64>,
    /// OFFSET, which is 0 where it is absent
    pub skip: u64,
}
