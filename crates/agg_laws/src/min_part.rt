use crate::best::lesser;
use crate::partial::Partial;
use crate::seen::{Seen, number_of};
use snel_values::Value;

/// MIN: the least number.
#[derive(Clone, Copy, Debug)]
pub struct MinPart {
    best: Option<i64>,
}

impl Partial for MinPart {
    ghost use Rattle.tree_meaning.specs.declared.AggName.TheVariants as aggs;
    ghost use Rattle.agg_meaning.specs.Partials.{best_number};

    ghost name = { aggs.Min };

    ghost kept = { λ p. best_number p.best };

    fn empty() -> MinPart {
        MinPart { best: None }
    }

    fn add(&mut self, item: Seen) {
        self.best = lesser(self.best, number_of(item));
    }

    fn merge(&mut self, other: &MinPart) {
        self.best = lesser(self.best, other.best);
    }

    fn finish(&self) -> Value {
        match self.best {
            None => Value::Null,
            Some(number) => Value::Int(i128::from(number)),
        }
    }
}
