use crate::best::greater;
use crate::partial::Partial;
use crate::seen::{Seen, number_of};
use snel_values::Value;

/// MAX: the greatest number.
#[derive(Clone, Copy, Debug)]
pub struct MaxPart {
    best: Option<i64>,
}

impl Partial for MaxPart {
    ghost use Rattle.tree_meaning.specs.declared.AggName.TheVariants as aggs;
    ghost use Rattle.agg_meaning.specs.Partials.{best_number};

    ghost name = { aggs.Max };

    ghost kept = { λ p. best_number p.best };

    fn empty() -> MaxPart {
        MaxPart { best: None }
    }

    fn add(&mut self, item: Seen) {
        self.best = greater(self.best, number_of(item));
    }

    fn merge(&mut self, other: &MaxPart) {
        self.best = greater(self.best, other.best);
    }

    fn finish(&self) -> Value {
        match self.best {
            None => Value::Null,
            Some(number) => Value::Int(i128::from(number)),
        }
    }
}
