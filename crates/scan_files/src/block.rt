use std::marker::Model;
use time_index::Entry;

/// Where a block stands.
#[derive(Clone, Copy)]
pub struct Place {
    /// Its file's number among the names, from 0.
    pub file: u32,
    /// Its number in the file, from 0.
    pub block: u32,
    /// What the index says of it.
    pub entry: Entry,
}

impl Model for Place {
    ghost use Rattle.scan_meaning.specs.Blocks.{Place as PlaceOf};

    ghost Value = { PlaceOf };

    ghost view = { λ p. record { file = p.file; block = p.block; entry = p.entry } };

    ghost inverse = { λ p. record { file = p.file; block = p.block; entry = p.entry } };
}

/// A block's bytes as they were read, good or bad, and where they stand.
#[derive(Drop)]
pub struct Stored {
    /// Where it stands.
    pub place: Place,
    /// Its bytes.
    pub bytes: Vec<u8>,
}

impl Model for Stored {
    ghost use Rattle.scan_files.specs.Places.{Held};

    ghost Value = { Held };

    ghost view = { λ b. record { place = b.place; bytes = b.bytes.items } };
}
