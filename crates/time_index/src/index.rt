use crate::entries::Entries;
use snel_device::Failed;
use snel_values::{OutOfMemory, Text};

/// The index of a block file.
#[derive(Drop)]
pub struct Index {
    /// The name of the indexed field, at most 255 bytes. The empty name says that no field is
    /// indexed.
    pub field: Text,
    /// The entries, one for each block, in order.
    pub entries: Entries,
}

/// Why [`read_index`](crate::read_index) gives no index.
#[derive(Clone, Copy, Debug, PartialEq, Eq)]
pub enum IndexFault {
    /// There is no file of this name.
    Absent,
    /// Reading failed.
    Failed,
    /// The file isn't a block file.
    NotAFile,
    /// No memory was left.
    OutOfMemory,
}

impl From<Failed> for IndexFault {
    ghost use Rattle.std.specs.Prelude.{◌≡◌};
    ghost use Rattle.time_index.specs.declared.index.IndexFault.TheVariants.{Failed as ReadFailed};

    ghost from_gives = { λ _ e. e ≡ ReadFailed };

    fn from(_error: Failed) -> IndexFault {
        IndexFault::Failed
    }
}

impl From<OutOfMemory> for IndexFault {
    ghost use Rattle.std.specs.Prelude.{◌≡◌};
    ghost use Rattle.time_index.specs.declared.index.IndexFault.TheVariants.{OutOfMemory as NoMemory};

    ghost from_gives = { λ _ e. e ≡ NoMemory };

    fn from(_error: OutOfMemory) -> IndexFault {
        IndexFault::OutOfMemory
    }
}
