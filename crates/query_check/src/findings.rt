use crate::names::Names;
use query_tree::Exprs;

/// What a check finds out about a query.
#[derive(Drop)]
pub(crate) struct Findings {
    /// The names of its outputs.
    pub names: Names,
    /// Its distinct aggregates, in the order in which they stand first.
    pub aggregates: Exprs,
    pub grouped: bool,
}
