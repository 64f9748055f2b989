use crate::partial::Partial;
use crate::seen::{Seen, number_of};
use crate::sums::Sums;
use snel_values::Value;

/// AVG: the count of the numbers and their sum, which fits.
#[derive(Clone, Copy, Debug)]
pub struct AvgPart {
    sums: Sums,
}

impl Partial for AvgPart {
    ghost use Rattle.tree_meaning.specs.declared.AggName.TheVariants as aggs;
    ghost use Rattle.agg_meaning.specs.Partials.{summed};

    ghost name = { aggs.Avg };

    ghost kept = { λ p. summed p.sums.count p.sums.sum };

    fn empty() -> AvgPart {
        AvgPart { sums: Sums::none() }
    }

    fn add(&mut self, item: Seen) {
        if let Some(number) = number_of(item) {
            self.sums = self.sums.plus(Sums::one(number));
        }
    }

    fn merge(&mut self, other: &AvgPart) {
        self.sums = self.sums.plus(other.sums);
    }

    fn finish(&self) -> Value {
        if self.sums.count == 0 {
            Value::Null
        } else {
            Value::Int(self.sums.average())
        }
    }
}
