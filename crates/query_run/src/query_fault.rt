use crate::text_fault::TextFault;

/// What stands against a query over files, against checking them, or against explaining a query, in the order in which it is
/// looked for. Files are counted as they are named and blocks as they stand in their file, both from 0.
#[derive(Clone, Copy)]
pub enum QueryFault {
    /// The text isn't answered, and why.
    Text(TextFault),
    /// There is no file of the name with this number.
    Absent(u32),
    /// The file with this number isn't a block file.
    NotAFile(u32),
    /// This block of this file is bad: it is damaged, or a time in it lies beyond the range that the file's index tells.
    Damaged {
        /// The file's number.
        file: u32,
        /// The block's number in the file.
        block: u32,
    },
    /// There are more groups than the limit.
    Groups,
    /// Asking for a file's size or reading it failed.
    ReadFault,
    /// A put to the output failed.
    WriteFault,
    /// There was no memory. It may come at any point.
    OutOfMemory,
}
