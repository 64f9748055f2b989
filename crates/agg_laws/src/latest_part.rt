use crate::best::greater;
use crate::partial::Partial;
use crate::seen::{Seen, time_of};
use snel_values::Value;

/// LATEST: the greatest time.
#[derive(Clone, Copy, Debug)]
pub struct LatestPart {
    best: Option<i64>,
}

impl Partial for LatestPart {
    ghost use Rattle.tree_meaning.specs.declared.AggName.TheVariants as aggs;
    ghost use Rattle.agg_meaning.specs.Partials.{best_time};

    ghost name = { aggs.Latest };

    ghost kept = { λ p. best_time p.best };

    fn empty() -> LatestPart {
        LatestPart { best: None }
    }

    fn add(&mut self, item: Seen) {
        self.best = greater(self.best, time_of(item));
    }

    fn merge(&mut self, other: &LatestPart) {
        self.best = greater(self.best, other.best);
    }

    fn finish(&self) -> Value {
        match self.best {
            None => Value::Null,
            Some(time) => Value::Time(time),
        }
    }
}
