/// Why no symbol table was read.
#[derive(Clone, Copy, Debug, PartialEq, Eq)]
pub enum TabFault {
    /// No symbol table begins at the place.
    BadTable,
    /// No memory was left.
    OutOfMemory,
}
