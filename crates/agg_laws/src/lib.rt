//! Partial aggregates. A [`Partial`] is what is kept of a list of values to go on with an aggregate over it: it is
//! added to, joined with another, and finished, as in
//! `let mut sum = SumPart::empty(); sum.add(Seen::Int(7)); sum.finish()`. [`AnyPart`] is the partial of whichever
//! aggregate a name stands for.
#![tactic(auto)]

ghost use Rattle.agg_laws.specs.Laws.{PartialsStandForPermutations, PartialsGiveAggregates};

mod and_part;
mod any_part;
mod avg_part;
mod best;
mod count_part;
mod earliest_part;
mod latest_part;
mod max_part;
mod min_part;
mod or_part;
mod partial;
mod seen;
mod sum_part;
mod sums;

pub use and_part::AndPart;
pub use any_part::AnyPart;
pub use avg_part::AvgPart;
pub use count_part::CountPart;
pub use earliest_part::EarliestPart;
pub use latest_part::LatestPart;
pub use max_part::MaxPart;
pub use min_part::MinPart;
pub use or_part::OrPart;
pub use partial::Partial;
pub use seen::Seen;
pub use sum_part::SumPart;

/// A partial aggregate that stands for a list stands for each permutation of it.
pub fn partials_stand_for_permutations()
    ensures { PartialsStandForPermutations }
{}

/// A partial aggregate has the aggregate's value over each list for which it stands.
pub fn partials_give_aggregates()
    ensures { PartialsGiveAggregates }
{}
