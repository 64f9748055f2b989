use crate::best::lesser;
use crate::partial::Partial;
use crate::seen::{Seen, time_of};
use snel_values::Value;

/// EARLIEST: the least time.
#[derive(Clone, Copy, Debug)]
pub struct EarliestPart {
    best: Option<i64>,
}

impl Partial for EarliestPart {
    ghost use Rattle.tree_meaning.specs.declared.AggName.TheVariants as aggs;
    ghost use Rattle.agg_meaning.specs.Partials.{best_time};

    ghost name = { aggs.Earliest };

    ghost kept = { λ p. best_time p.best };

    fn empty() -> EarliestPart {
        EarliestPart { best: None }
    }

    fn add(&mut self, item: Seen) {
        self.best = lesser(self.best, time_of(item));
    }

    fn merge(&mut self, other: &EarliestPart) {
        self.best = lesser(self.best, other.best);
    }

    fn finish(&self) -> Value {
        match self.best {
            None => Value::Null,
            Some(time) => Value::Time(time),
        }
    }
}
