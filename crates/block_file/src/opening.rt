ghost use Rattle.std.specs.Prelude.{◌≡◌, length, IfOk, IsErrOf};
ghost use Rattle.std.specs.Option.{option_map};
ghost use Rattle.block_meaning.specs.Blocks as blocks;
ghost use Rattle.block_meaning.specs.Blocks.{IsBlock, IsDamaged};

use crate::block::Block;
use crate::fault::BlockFault;
use crate::rows::rows_at;
use block_meaning::{MOST_BLOCK_BYTES, MOST_BLOCK_ROWS};
use ion_symtab::{TabFault, read};
use std::alloc::Global;

/// What follows the marker of Ion 1.0.
fn behind_marker(bytes: &[u8]) -> Option<&[u8]>
    ensures { option_map (λ r. r.now) result ≡ blocks.behind_marker bytes.now }
{
    match bytes {
        [0xE0, 0x01, 0x00, 0xEA, rest @ ..] => Some(rest),
        _ => None,
    }
}

/// The block of `rows` rows that the bytes are: the marker of Ion 1.0, one symbol table, and the struct cells of the rows,
/// end to end. A block has 1 to `MOST_BLOCK_ROWS` rows and at most `MOST_BLOCK_BYTES` bytes. `Damaged` comes exactly where
/// the bytes aren't a block of that many rows.
pub fn open_block<'b>(alloc: Global, bytes: &'b [u8], rows: u32) -> Result<Block<'b>, BlockFault>
    ensures rows { IfOk result (λ b. IsBlock b.0 b.1 bytes.now × (length b.1 ≡ rows)) }
    ensures damaged { IsErrOf result BlockFault.Damaged → IsDamaged rows bytes.now }
{
    if rows == 0 || rows > MOST_BLOCK_ROWS || bytes.len() > MOST_BLOCK_BYTES {
        return Err(BlockFault::Damaged);
    }
    match behind_marker(bytes) {
        None => Err(BlockFault::Damaged),
        Some(rest) => match read(alloc, rest, 0) {
            Ok((table, end)) => match rows_at(alloc, rest, end, table.last(), rows) {
                Ok(cells) => Ok(Block::of_rows(table, cells)),
                Err(fault) => Err(fault),
            },
            Err(TabFault::BadTable) => Err(BlockFault::Damaged),
            Err(TabFault::OutOfMemory) => Err(BlockFault::OutOfMemory),
        },
    }
}
