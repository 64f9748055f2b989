//! Block files of rows that tests choose.
use std::alloc::{AllocError, Global};

/// The front of a block, the marker and a symbol table, whose only name is `a`.
pub const OF_A: &[u8] = b"\xe0\x01\x00\xea\xe7\x81\x83\xd4\x87\xb2\x81\x61";

/// The same with the names `a` and `b`.
pub const OF_A_AND_B: &[u8] = b"\xe0\x01\x00\xea\xe9\x81\x83\xd6\x87\xb4\x81\x61\x81\x62";

/// A block file with one block of this table and these rows.
pub fn file_of(alloc: Global, table: &[u8], rows: &[&[u8]]) -> Result<Vec<u8>, AllocError> {
    let block = block_of(alloc, table, rows)?;
    file_around(alloc, &block, u32::try_from(rows.len()).unwrap_or(0))
}

/// A block file of one block with so many rows.
pub fn file_around(alloc: Global, block: &[u8], rows: u32) -> Result<Vec<u8>, AllocError> {
    let mut bytes = block.to_vec(alloc)?;
    let length = u32::try_from(block.len()).unwrap_or(0);
    bytes.extend_from_slice(&file_end(length, rows))?;
    Ok(bytes)
}

/// A block with this table and these rows.
pub fn block_of(alloc: Global, table: &[u8], rows: &[&[u8]]) -> Result<Vec<u8>, AllocError> {
    let mut bytes = table.to_vec(alloc)?;
    for row in rows {
        bytes.extend_from_slice(row)?;
    }
    Ok(bytes)
}

// The index and the tail of a file of one block of this length, with so many rows.
fn file_end(length: u32, rows: u32) -> [u8; 54] {
    let mut end = [0; 54];
    end[..4].copy_from_slice(b"SNX1");
    end[9] = 1;
    end[18..22].copy_from_slice(&length.to_be_bytes());
    end[22..26].copy_from_slice(&rows.to_be_bytes());
    end[42..50].copy_from_slice(&u64::from(length).to_be_bytes());
    end[50..].copy_from_slice(b"SNX1");
    end
}

/// A block file that grows block by block.
#[derive(Drop)]
pub struct Blocks {
    alloc: Global,
    field: Vec<u8>,
    bytes: Vec<u8>,
    entries: Vec<u8>,
    count: u32,
}

impl Blocks {
    /// No blocks, of a file that indexes the field of this name.
    pub fn new(alloc: Global, field: &[u8]) -> Result<Blocks, AllocError> {
        Ok(Blocks {
            alloc,
            field: field.to_vec(alloc)?,
            bytes: Vec::new(alloc),
            entries: Vec::new(alloc),
            count: 0,
        })
    }

    /// Adds a block of so many rows, with its least and its greatest time.
    pub fn push(
        &mut self,
        block: &[u8],
        rows: u32,
        least: i64,
        greatest: i64,
    ) -> Result<(), AllocError> {
        let start = self.bytes.len() as u64;
        let length = u32::try_from(block.len()).unwrap_or(0);
        let mut entry = [0; 32];
        entry[..8].copy_from_slice(&start.to_be_bytes());
        entry[8..12].copy_from_slice(&length.to_be_bytes());
        entry[12..16].copy_from_slice(&rows.to_be_bytes());
        entry[16..24].copy_from_slice(&least.to_be_bytes());
        entry[24..].copy_from_slice(&greatest.to_be_bytes());
        self.bytes.extend_from_slice(block)?;
        self.entries.extend_from_slice(&entry)?;
        self.count = self.count.saturating_add(1);
        Ok(())
    }

    /// The bytes of the file.
    pub fn finish(&self) -> Result<Vec<u8>, AllocError> {
        let mut bytes = self.bytes.as_slice().to_vec(self.alloc)?;
        self.add_index(&mut bytes)?;
        Ok(bytes)
    }

    // Adds the index and the tail behind the blocks.
    fn add_index(&self, bytes: &mut Vec<u8>) -> Result<(), AllocError> {
        let start = bytes.len() as u64;
        let length = u16::try_from(self.field.len()).unwrap_or(0);
        bytes.extend_from_slice(b"SNX1")?;
        bytes.extend_from_slice(&length.to_be_bytes())?;
        bytes.extend_from_slice(&self.field)?;
        bytes.extend_from_slice(&self.count.to_be_bytes())?;
        bytes.extend_from_slice(&self.entries)?;
        bytes.extend_from_slice(&start.to_be_bytes())?;
        bytes.extend_from_slice(b"SNX1")
    }
}
