/// Why a block wasn't opened.
#[derive(Clone, Copy, Debug, PartialEq, Eq)]
pub enum BlockFault {
    /// The bytes aren't a block of that many rows.
    Damaged,
    /// No memory was left.
    OutOfMemory,
}
