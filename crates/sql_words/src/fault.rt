use snel_values::OutOfMemory;

/// Why tokens gave no query.
#[derive(Clone, Copy, Debug, PartialEq, Eq)]
pub enum ParseFault {
    /// They are no query.
    NotAQuery,
    OutOfMemory,
}

impl From<OutOfMemory> for ParseFault {
    ghost use Rattle.std.specs.Prelude.{◌≡◌};
    ghost use Rattle.sql_words.specs.declared.fault.ParseFault.TheVariants as fault;

    ghost from_gives = { λ _ e. e ≡ fault.OutOfMemory };

    fn from(_error: OutOfMemory) -> ParseFault {
        ParseFault::OutOfMemory
    }
}
