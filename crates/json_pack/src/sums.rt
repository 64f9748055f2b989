//! What packing answers.
ghost use Rattle.std.specs.Prelude.{◌≡◌};

use json_rows::LineFault;
use pack_meaning::LineWhy;
use snel_values::OutOfMemory;

/// What was packed. Each count stands still at its type's end.
#[derive(Clone, Copy, Debug, PartialEq, Eq)]
pub struct PackSum {
    /// The rows.
    pub rows: u64,
    /// The blocks of the file.
    pub blocks: u32,
    /// The fractions that were dropped.
    pub dropped: u64,
    /// The bytes of the file.
    pub bytes: u64,
}

/// Why nothing, or not all, was packed.
#[derive(Clone, Copy, Debug, PartialEq, Eq)]
pub enum PackFault {
    /// There is a file of this name already.
    Exists,
    /// A line is refused. Lines are counted from 1.
    Line { number: u64, why: LineWhy },
    /// Reading the input failed.
    ReadFault,
    /// Making the file or adding to it failed.
    WriteFault,
    /// No memory was left.
    OutOfMemory,
}

impl From<OutOfMemory> for PackFault {
    ghost use Rattle.std.specs.Prelude.{◌≡◌};
    ghost use Rattle.json_pack.specs.declared.sums.PackFault.TheVariants as fault;

    ghost from_gives = { λ _ e. e ≡ fault.OutOfMemory };

    fn from(_error: OutOfMemory) -> PackFault {
        PackFault::OutOfMemory
    }
}
