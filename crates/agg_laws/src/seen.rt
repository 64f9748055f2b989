ghost use Rattle.std.specs.Prelude.{◌≡◌};
ghost use Rattle.agg_laws.specs.Shows.{shown_number, shown_time, shown_truth, shows_one};

/// What an aggregate sees of a value. `Other` is a text, a list or a struct.
#[derive(Clone, Copy, Debug, PartialEq, Eq)]
pub enum Seen {
    Missing,
    Null,
    Bool(bool),
    Int(i64),
    Time(i64),
    Other,
}

/// The number, if it is one.
pub fn number_of(item: Seen) -> Option<i64>
    ensures { result ≡ shown_number item }
{
    match item {
        Seen::Int(number) => Some(number),
        _ => None,
    }
}

/// The time, if it is one.
pub fn time_of(item: Seen) -> Option<i64>
    ensures { result ≡ shown_time item }
{
    match item {
        Seen::Time(time) => Some(time),
        _ => None,
    }
}

/// The truth value, if it is one.
pub fn truth_of(item: Seen) -> Option<bool>
    ensures { result ≡ shown_truth item }
{
    match item {
        Seen::Bool(truth) => Some(truth),
        _ => None,
    }
}

/// Whether it is neither NULL nor MISSING.
pub fn is_present(item: Seen) -> bool
    ensures { result ≡ shows_one item }
{
    !matches!(item, Seen::Missing | Seen::Null)
}
