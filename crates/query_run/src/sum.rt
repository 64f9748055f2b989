use lane_ssa::Tally;

/// What a query over files did.
#[derive(Drop)]
pub struct QuerySum {
    /// How many lines were written.
    pub lines: u64,
    /// How many blocks stand in the batches that count.
    pub read: u32,
    /// How many blocks the WHERE excluded by the times that the indexes tell.
    pub skipped: u32,
    /// The chunks that were run, and the rows of them that passed.
    pub ran: Tally,
}
