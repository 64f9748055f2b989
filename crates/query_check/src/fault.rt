use snel_values::OutOfMemory;

/// What a query has at most a number of.
#[derive(Clone, Copy, Debug, PartialEq, Eq)]
pub enum Limit {
    /// 256 outputs.
    Outputs,
    /// 16 group keys.
    GroupKeys,
    /// 16 order keys.
    OrderKeys,
    /// 16 steps of one path.
    Steps,
    /// 64 distinct aggregates.
    Aggregates,
}

/// A place of a query where an expression stands. Outputs and keys are counted from 1.
#[derive(Clone, Copy, Debug, PartialEq, Eq)]
pub enum Place {
    Output(u32),
    /// WHERE
    Filter,
    /// A key of GROUP BY.
    Key(u32),
    Having,
    /// A key of ORDER BY.
    Order(u32),
}

/// Why a query isn't accepted: the first fault in this order.
#[derive(Clone, Copy, Debug, PartialEq, Eq)]
pub enum CheckFault {
    /// This limit is passed.
    TooMany(Limit),
    /// An aggregate stands in WHERE, in a group key or in an aggregate.
    Nested(Place),
    /// In a grouped query a path stands outside the group keys and the aggregates, or `*` is the output.
    NotGrouped(Place),
    /// In a grouped query a cast, a matching or a function of times or of a text's length stands outside the group keys
    /// and the aggregates.
    OverGroups(Place),
    /// An earlier output has the name of this one.
    SameName(u32),
    /// This order key is the number of no output.
    NoSuchOrder(u32),
    OutOfMemory,
}

impl From<OutOfMemory> for CheckFault {
    ghost use Rattle.std.specs.Prelude.{◌≡◌};
    ghost use Rattle.query_check.specs.declared.fault.CheckFault.TheVariants as fault;

    ghost from_gives = { λ _ e. e ≡ fault.OutOfMemory };

    fn from(_error: OutOfMemory) -> CheckFault {
        CheckFault::OutOfMemory
    }
}
