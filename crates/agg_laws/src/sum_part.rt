use crate::partial::Partial;
use crate::seen::{Seen, number_of};
use crate::sums::Sums;
use snel_values::Value;

/// SUM: the count of the numbers and their sum, which fits.
#[derive(Clone, Copy, Debug)]
pub struct SumPart {
    sums: Sums,
}

impl Partial for SumPart {
    ghost use Rattle.tree_meaning.specs.declared.AggName.TheVariants as aggs;
    ghost use Rattle.agg_meaning.specs.Partials.{summed};

    ghost name = { aggs.Sum };

    ghost kept = { λ p. summed p.sums.count p.sums.sum };

    fn empty() -> SumPart {
        SumPart { sums: Sums::none() }
    }

    fn add(&mut self, item: Seen) {
        if let Some(number) = number_of(item) {
            self.sums = self.sums.plus(Sums::one(number));
        }
    }

    fn merge(&mut self, other: &SumPart) {
        self.sums = self.sums.plus(other.sums);
    }

    fn finish(&self) -> Value {
        if self.sums.count == 0 {
            Value::Null
        } else {
            Value::Int(self.sums.sum)
        }
    }
}
