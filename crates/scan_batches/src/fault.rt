//! Faults of a scan.
ghost use Rattle.std.specs.Prelude.{◌≡◌, ◌<◌, Some, length, slice_get};
ghost use Rattle.scan_files.specs.Places.{Held};

use scan_files::Stored;

/// Why the blocks of a batch weren't scanned.
#[derive(Clone, Copy)]
pub enum BatchFault {
    /// The block with this number in the batch, from 0, is the first bad one.
    Bad(usize),
    /// There was no memory.
    OutOfMemory,
}

/// Why the blocks of a query weren't all scanned.
#[derive(Clone, Copy)]
pub enum ScanFault {
    /// This block of this file is the first bad one.
    Damaged {
        /// The file's number among the names, from 0.
        file: u32,
        /// The block's number in the file, from 0.
        block: u32,
    },
    /// Reading failed.
    ReadFault,
    /// A put failed.
    WriteFault,
    /// There was no memory.
    OutOfMemory,
}

/// Names the block with this number.
pub fn name_bad(blocks: &[Stored], number: usize) -> ScanFault
    requires { number < length blocks.now }
    ensures { (h : Held) → slice_get blocks.now number ≡ Some h
        → result ≡ ScanFault.Damaged h.place.file h.place.block }
{
    let block = &blocks[number];
    let place = block.place;
    ScanFault::Damaged {
        file: place.file,
        block: place.block,
    }
}
