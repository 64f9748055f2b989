ghost use Rattle.std.specs.Prelude.{◌≡◌};
ghost use Rattle.std.specs.Option.{option_map};
ghost use Rattle.snel_values.specs.View.{view};
ghost use Rattle.made_meaning.specs.OverGroups.{value_beside};
ghost use Rattle.eval_row.specs.Known.{known_in};

use query_tree::{Exprs, Operand};
use query_walk::{item, same_expr};
use snel_values::{Items, Value};

/// The values that are known of parts of expressions: of each of the keys and of each of the aggregates, in order. A key
/// comes before an aggregate that is equal to it, and of equal ones the first.
#[derive(Clone, Copy)]
pub struct KnownParts<'k> {
    pub keys: &'k Exprs,
    pub key_values: &'k Items,
    pub aggs: &'k Exprs,
    pub agg_values: &'k Items,
}

impl KnownParts<'_> {
    /// The value of the expression, where it is known.
    pub(crate) fn find(&self, of: &Operand) -> Option<&Value>
        ensures { option_map (λ v. view v.now) result ≡ known_in self.now of.now }
    {
        match beside(self.keys, self.key_values, of) {
            Some(value) => Some(value),
            None => beside(self.aggs, self.agg_values, of),
        }
    }
}

/// The value beside the first expression that is equal to this one.
fn beside<'k>(exprs: &Exprs, values: &'k Items, of: &Operand) -> Option<&'k Value>
    ensures { option_map (λ v. view v.now) result ≡ value_beside exprs.now values.now of.now }
{
    for at in 0..exprs.len() {
        if same_expr(item(exprs, at), of) {
            return values.get(at);
        }
    }
    None
}
