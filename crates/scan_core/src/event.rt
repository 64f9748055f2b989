//! One event, and what it tells.

/// What one seat does to the state. The first number is the seat's place among the views.
#[derive(Clone, Copy, Debug, PartialEq, Eq)]
pub enum ScanEvent {
    /// Asks for the next block.
    Claim(u32),
    /// Reports the rows of one block that the seat claimed, at most 1,048,576.
    Rows(u32, u32),
    /// Reports that a block, which the seat claimed, is damaged.
    Damage(u32, u32),
    /// Looks at the rows that all seats reported.
    LookRows(u32),
    /// Looks at the least damaged block that was reported.
    LookDamage(u32),
}

/// What an event tells the seat.
#[derive(Clone, Copy, Debug, PartialEq, Eq)]
pub enum Told {
    /// The number of the block that the seat has claimed.
    Block(u32),
    /// All blocks are claimed, and the seat has ended.
    NoBlock,
    /// The rows that were reported so far.
    Rows(u64),
    /// The least damaged block that was reported so far.
    Damage(Option<u32>),
    /// The report is taken.
    Done,
}

/// Why an event did not happen. The state is then what it was.
#[derive(Clone, Copy, Debug, PartialEq, Eq)]
pub enum StepFault {
    /// There are no more than this many seats.
    NoSuchSeat,
    /// The seat may not do this now.
    Unlawful,
    /// There was no memory for one more claim.
    OutOfMemory,
}
