ghost use Rattle.std.specs.Prelude.{◌≡◌, []};
ghost use Rattle.agg_meaning.specs.Partials.{StandsFor, joined, finished};
ghost use Rattle.snel_values.specs.View.{view};
ghost use Rattle.agg_laws.specs.Alone.{alone};
ghost use Rattle.agg_laws.specs.Growth.{AddsItem, AddsList};
ghost use Rattle.agg_laws.specs.Room.{HasRoom, HaveRoom};
ghost use Rattle.agg_laws.specs.Parts.{part_name, part_kept};

use crate::and_part::AndPart;
use crate::avg_part::AvgPart;
use crate::count_part::CountPart;
use crate::earliest_part::EarliestPart;
use crate::latest_part::LatestPart;
use crate::max_part::MaxPart;
use crate::min_part::MinPart;
use crate::or_part::OrPart;
use crate::partial::Partial;
use crate::seen::Seen;
use crate::sum_part::SumPart;
use snel_values::Value;
use tree_meaning::AggName;

/// The partial of any aggregate.
#[derive(Clone, Copy, Debug)]
pub enum AnyPart {
    /// COUNT(*): how many rows there are.
    CountAll(u64),
    Count(CountPart),
    Sum(SumPart),
    Min(MinPart),
    Max(MaxPart),
    Avg(AvgPart),
    Earliest(EarliestPart),
    Latest(LatestPart),
    BoolAnd(AndPart),
    BoolOr(OrPart),
}

impl AnyPart {
    /// Stands for the empty list.
    pub fn empty(name: AggName) -> AnyPart
        ensures name { part_name result ≡ name }
        ensures stands { StandsFor name (part_kept result) [] }
    {
        match name {
            AggName::CountAll => AnyPart::CountAll(0),
            AggName::Count => AnyPart::Count(CountPart::empty()),
            AggName::Sum => AnyPart::Sum(SumPart::empty()),
            AggName::Min => AnyPart::Min(MinPart::empty()),
            AggName::Max => AnyPart::Max(MaxPart::empty()),
            AggName::Avg => AnyPart::Avg(AvgPart::empty()),
            AggName::Earliest => AnyPart::Earliest(EarliestPart::empty()),
            AggName::Latest => AnyPart::Latest(LatestPart::empty()),
            AggName::BoolAnd => AnyPart::BoolAnd(AndPart::empty()),
            AggName::BoolOr => AnyPart::BoolOr(OrPart::empty()),
        }
    }

    /// Adds a value at the end of each list for which this stands.
    pub fn add(&mut self, item: Seen)
        requires { HasRoom (part_name self.old) (part_kept self.old) }
        ensures name { part_name self.new ≡ part_name self.old }
        ensures joins { let n = part_name self.old in part_kept self.new ≡ joined n (part_kept self.old) (alone n item) }
        ensures stands { AddsItem (part_name self.old) (part_kept self.old) item (part_kept self.new) }
    {
        match self {
            AnyPart::CountAll(count) => *count += 1,
            AnyPart::Count(part) => part.add(item),
            AnyPart::Sum(part) => part.add(item),
            AnyPart::Min(part) => part.add(item),
            AnyPart::Max(part) => part.add(item),
            AnyPart::Avg(part) => part.add(item),
            AnyPart::Earliest(part) => part.add(item),
            AnyPart::Latest(part) => part.add(item),
            AnyPart::BoolAnd(part) => part.add(item),
            AnyPart::BoolOr(part) => part.add(item),
        }
    }

    /// Adds each list for which the other stands at the end of each for which this does.
    pub fn merge(&mut self, other: &AnyPart)
        requires name { part_name self.old ≡ part_name other.now }
        requires room { HaveRoom (part_name self.old) (part_kept self.old) (part_kept other.now) }
        ensures name { part_name self.new ≡ part_name self.old }
        ensures joins { let n = part_name self.old in part_kept self.new ≡ joined n (part_kept self.old) (part_kept other.now) }
        ensures stands { AddsList (part_name self.old) (part_kept self.old) (part_kept other.now) (part_kept self.new) }
    {
        match (self, other) {
            (AnyPart::CountAll(count), AnyPart::CountAll(more)) => *count += *more,
            (AnyPart::Count(part), AnyPart::Count(more)) => part.merge(more),
            (AnyPart::Sum(part), AnyPart::Sum(more)) => part.merge(more),
            (AnyPart::Min(part), AnyPart::Min(more)) => part.merge(more),
            (AnyPart::Max(part), AnyPart::Max(more)) => part.merge(more),
            (AnyPart::Avg(part), AnyPart::Avg(more)) => part.merge(more),
            (AnyPart::Earliest(part), AnyPart::Earliest(more)) => part.merge(more),
            (AnyPart::Latest(part), AnyPart::Latest(more)) => part.merge(more),
            (AnyPart::BoolAnd(part), AnyPart::BoolAnd(more)) => part.merge(more),
            (AnyPart::BoolOr(part), AnyPart::BoolOr(more)) => part.merge(more),
            _ => {}
        }
    }

    /// The aggregate's value.
    pub fn finish(&self) -> Value
        ensures { view result ≡ finished (part_name self.now) (part_kept self.now) }
    {
        match self {
            AnyPart::CountAll(count) => Value::Int(i128::from(*count)),
            AnyPart::Count(part) => part.finish(),
            AnyPart::Sum(part) => part.finish(),
            AnyPart::Min(part) => part.finish(),
            AnyPart::Max(part) => part.finish(),
            AnyPart::Avg(part) => part.finish(),
            AnyPart::Earliest(part) => part.finish(),
            AnyPart::Latest(part) => part.finish(),
            AnyPart::BoolAnd(part) => part.finish(),
            AnyPart::BoolOr(part) => part.finish(),
        }
    }
}
