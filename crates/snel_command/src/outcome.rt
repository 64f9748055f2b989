use json_pack::PackFault;
use query_run::QueryFault;

/// Why a call ended without the whole answer.
#[derive(Clone, Copy)]
pub enum Refusal {
    /// The words aren't accepted.
    Words,
    /// This stands against the query, the files or the listing.
    Query(QueryFault),
    /// This stands against packing.
    Pack(PackFault),
}

/// What a call did that was refused nothing.
#[derive(Clone, Copy)]
pub enum Done {
    /// All that was asked.
    All,
    /// A query, with its counts of blocks.
    Counted {
        /// How many blocks were read.
        read: u32,
        /// How many blocks the index let it leave out.
        skipped: u32,
    },
}

/// How a call came out.
pub type Outcome = Result<Done, Refusal>;

impl Refusal {
    ghost use Rattle.std.specs.Prelude.{◌≡◌};
    ghost use Rattle.snel_command.specs.Outcomes.{status_of};

    /// The status that a refusal ends with.
    pub fn status(self) -> u8
        ensures { result ≡ status_of self }
    {
        match self {
            Refusal::Words => 2,
            Refusal::Query(QueryFault::Text(_)) => 3,
            Refusal::Query(QueryFault::Absent(_)) => 4,
            Refusal::Query(QueryFault::NotAFile(_)) => 5,
            Refusal::Query(QueryFault::Damaged { .. }) => 6,
            Refusal::Query(QueryFault::Groups) => 7,
            Refusal::Query(QueryFault::ReadFault) => 8,
            Refusal::Query(QueryFault::WriteFault) => 9,
            Refusal::Query(QueryFault::OutOfMemory) => 10,
            Refusal::Pack(PackFault::Exists) => 12,
            Refusal::Pack(PackFault::Line { .. }) => 11,
            Refusal::Pack(PackFault::ReadFault) => 8,
            Refusal::Pack(PackFault::WriteFault) => 9,
            Refusal::Pack(PackFault::OutOfMemory) => 10,
        }
    }
}
