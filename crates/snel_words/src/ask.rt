use snel_values::Words;

/// What may stand before a query's text.
#[derive(Clone, Copy, Debug, PartialEq, Eq)]
pub struct Settings {
    /// How many workers scan blocks, 1 to 64.
    pub workers: u32,
    /// How many groups a grouped query has at most, 1 to 16,777,216.
    pub groups: u32,
    /// Whether the counts of blocks are written.
    pub stats: bool,
}

/// How lines are packed.
#[derive(Clone, Copy, Debug)]
pub struct Packing<'w> {
    /// The field that is indexed, a name of 1 to 255 bytes.
    pub time: Option<&'w str>,
    /// The most that the rows of a block weigh together, 1,024 to 1,000,000.
    pub block: u32,
    /// Whether fractions are dropped.
    pub drop_fractions: bool,
}

/// What a list of words asks.
#[derive(Drop)]
pub enum Ask<'w> {
    /// Nothing: the words aren't accepted.
    Nothing,
    /// A query over files.
    Query {
        /// What stands before the query's text.
        settings: Settings,
        /// The query's text.
        sql: &'w str,
        /// The files' names, 1 to 64 of them.
        names: Words,
    },
    /// Checks of files.
    Check {
        /// The files' names, 1 to 64 of them.
        names: Words,
    },
    /// Packing lines into a new file.
    Pack {
        /// How they are packed.
        packing: Packing<'w>,
        /// The new file's name.
        name: &'w str,
    },
    /// The listing of a query.
    Explain {
        /// The query's text.
        sql: &'w str,
    },
    /// Making the file of a log, and a query over it.
    Make {
        /// The number that the log starts from.
        start: u64,
        /// How many rows it has, 0 to 1,000,000.
        rows: u32,
        /// The new file's name.
        name: &'w str,
    },
}
