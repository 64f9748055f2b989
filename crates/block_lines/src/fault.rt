/// Why a block wasn't scanned.
#[derive(Clone, Copy, Debug, PartialEq, Eq)]
pub enum ScanFault {
    /// The bytes aren't a block of as many rows as the index says.
    Damaged,
    /// A row holds a time of the indexed field that doesn't lie where the index says.
    OutOfRange,
    /// No memory was left.
    OutOfMemory,
}
