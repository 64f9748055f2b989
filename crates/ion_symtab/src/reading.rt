ghost use Rattle.std.specs.Prelude.{◌≡◌, ◌<◌, ◌≤◌, ◌^◌, List, ℕ, Some, None, length, drop, map, IfOk, IsErrOf};
ghost use Rattle.block_meaning.specs.Tables.{Table};
ghost use Rattle.block_meaning.specs.Blocks.{IsTable, table_at};
ghost use Rattle.block_meaning.specs.Laws.{HasFront};

use crate::fault::TabFault;
use crate::parts::text_cells;
use crate::table::SymTab;
use crate::texts::texts_of;
use ion_cells::payload;
use ion_cells::types::ANNOTATION;
use std::alloc::Global;

/// The texts of the symbol table at the front, and what follows it.
#[tactic(auto, unfolding(block_meaning::specs::Blocks::table_at))]
fn table_front<'b>(alloc: Global, bytes: &'b [u8]) -> Result<(Vec<&'b str>, &'b [u8]), TabFault>
    ensures reads { IfOk result (λ r. table_at bytes.now
        ≡ Some (map (λ s. s.now) r.0.items, r.1.now)) }
    ensures bad { IsErrOf result TabFault.BadTable → table_at bytes.now ≡ None }
{
    match payload(ANNOTATION, bytes) {
        None => Err(TabFault::BadTable),
        Some((content, rest)) => match text_cells(content) {
            None => Err(TabFault::BadTable),
            Some(cells) => match texts_of(alloc, cells) {
                Ok(texts) => Ok((texts, rest)),
                Err(fault) => Err(fault),
            },
        },
    }
}

/// The symbol table that begins at the place `at`, and the place after it. `BadTable` comes exactly where none begins
/// there.
pub fn read<'b>(alloc: Global, bytes: &'b [u8], at: u32) -> Result<(SymTab<'b>, u32), TabFault>
    requires short { length bytes.now < 2 ^ 31 }
    requires within { at ≤ length bytes.now }
    ensures reads { IfOk result (λ r. table_at (drop at bytes.now)
        ≡ Some (r.0, drop r.1 bytes.now)) }
    ensures stands { IfOk result (λ r. HasFront (IsTable r.0) (drop at bytes.now)
        (drop r.1 bytes.now)) }
    ensures within { IfOk result (λ r. (at < r.1) × (r.1 ≤ length bytes.now)) }
    ensures bad { IsErrOf result TabFault.BadTable → (table : Table) (rest : List ℕ)
        → HasFront (IsTable table) (drop at bytes.now) rest → ⊥ }
{
    match table_front(alloc, &bytes[at as usize..]) {
        Ok((texts, rest)) => {
            let end = (bytes.len() - rest.len()) as u32;
            Ok((SymTab::of_texts(texts), end))
        }
        Err(fault) => Err(fault),
    }
}
