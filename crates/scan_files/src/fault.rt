/// What stands against named files, which are counted from 0.
#[derive(Clone, Copy)]
pub enum FilesFault {
    /// There is no file of the name with this number.
    Absent(u32),
    /// The file with this number isn't a block file.
    NotAFile(u32),
    /// Asking for a file's size or reading it failed.
    ReadFault,
    /// There was no memory.
    OutOfMemory,
}
