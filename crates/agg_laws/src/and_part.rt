use crate::best::both_of;
use crate::partial::Partial;
use crate::seen::{Seen, truth_of};
use snel_values::Value;

/// BOOL_AND: whether all truth values are true.
#[derive(Clone, Copy, Debug)]
pub struct AndPart {
    best: Option<bool>,
}

impl Partial for AndPart {
    ghost use Rattle.tree_meaning.specs.declared.AggName.TheVariants as aggs;
    ghost use Rattle.agg_meaning.specs.Partials.{truth_so_far};

    ghost name = { aggs.BoolAnd };

    ghost kept = { λ p. truth_so_far p.best };

    fn empty() -> AndPart {
        AndPart { best: None }
    }

    fn add(&mut self, item: Seen) {
        self.best = both_of(self.best, truth_of(item));
    }

    fn merge(&mut self, other: &AndPart) {
        self.best = both_of(self.best, other.best);
    }

    fn finish(&self) -> Value {
        match self.best {
            None => Value::Null,
            Some(truth) => Value::Bool(truth),
        }
    }
}
