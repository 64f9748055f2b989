ghost use Rattle.std.specs.Prelude.{◌≡◌, []};
ghost use Rattle.tree_meaning.specs.declared.AggName.{AggName};
ghost use Rattle.agg_meaning.specs.Partials.{Partial as Kept, StandsFor, joined, finished};
ghost use Rattle.snel_values.specs.View.{view};
ghost use Rattle.agg_laws.specs.Alone.{alone};
ghost use Rattle.agg_laws.specs.Growth.{AddsItem, AddsList};
ghost use Rattle.agg_laws.specs.Room.{HasRoom, HaveRoom};

use crate::seen::Seen;
use snel_values::Value;

/// A partial aggregate: what is kept of a list of values to go on with one aggregate over it, of the same size however
/// long the list is. It stands for each list of which just this is kept, among them each permutation of one.
pub trait Partial: Sized {
    /// The aggregate.
    ghost name: { AggName };

    /// What is kept.
    ghost kept: { Self → Kept };

    /// Stands for the empty list.
    fn empty() -> Self
        ensures { StandsFor name (kept result) [] };

    /// Adds a value at the end of each list for which this stands. One of them is to be of fewer than 2^46 - 1 values.
    fn add(&mut self, item: Seen)
        requires { HasRoom name (kept self.old) }
        ensures joins { kept self.new ≡ joined name (kept self.old) (alone name item) }
        ensures stands { AddsItem name (kept self.old) item (kept self.new) };

    /// Adds each list for which the other stands at the end of each for which this does. Two of them are to be of fewer
    /// than 2^46 values together.
    fn merge(&mut self, other: &Self)
        requires { HaveRoom name (kept self.old) (kept other.now) }
        ensures joins { kept self.new ≡ joined name (kept self.old) (kept other.now) }
        ensures stands { AddsList name (kept self.old) (kept other.now) (kept self.new) };

    /// The aggregate's value over each list for which this stands.
    fn finish(&self) -> Value
        ensures { view result ≡ finished name (kept self.now) };
}
