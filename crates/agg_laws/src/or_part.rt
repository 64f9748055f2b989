use crate::best::either_of;
use crate::partial::Partial;
use crate::seen::{Seen, truth_of};
use snel_values::Value;

/// BOOL_OR: whether one truth value is true.
#[derive(Clone, Copy, Debug)]
pub struct OrPart {
    best: Option<bool>,
}

impl Partial for OrPart {
    ghost use Rattle.tree_meaning.specs.declared.AggName.TheVariants as aggs;
    ghost use Rattle.agg_meaning.specs.Partials.{truth_so_far};

    ghost name = { aggs.BoolOr };

    ghost kept = { λ p. truth_so_far p.best };

    fn empty() -> OrPart {
        OrPart { best: None }
    }

    fn add(&mut self, item: Seen) {
        self.best = either_of(self.best, truth_of(item));
    }

    fn merge(&mut self, other: &OrPart) {
        self.best = either_of(self.best, other.best);
    }

    fn finish(&self) -> Value {
        match self.best {
            None => Value::Null,
            Some(truth) => Value::Bool(truth),
        }
    }
}
