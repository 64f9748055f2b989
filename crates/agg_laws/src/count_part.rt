use crate::partial::Partial;
use crate::seen::{Seen, is_present};
use snel_values::Value;

/// COUNT: how many values are neither NULL nor MISSING.
#[derive(Clone, Copy, Debug)]
pub struct CountPart {
    count: u64,
}

impl Partial for CountPart {
    ghost use Rattle.tree_meaning.specs.declared.AggName.TheVariants as aggs;
    ghost use Rattle.agg_meaning.specs.Partials.{counted};

    ghost name = { aggs.Count };

    ghost kept = { λ p. counted p.count };

    fn empty() -> CountPart {
        CountPart { count: 0 }
    }

    fn add(&mut self, item: Seen) {
        if is_present(item) {
            self.count += 1;
        }
    }

    fn merge(&mut self, other: &CountPart) {
        self.count += other.count;
    }

    fn finish(&self) -> Value {
        Value::Int(i128::from(self.count))
    }
}
