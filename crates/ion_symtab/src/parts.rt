ghost use Rattle.std.specs.Prelude.{◌≡◌};
ghost use Rattle.std.specs.Option.{option_map};
ghost use Rattle.block_meaning.specs.Blocks.{listed_in, texts_in};

use ion_cells::types::{LIST, STRUCT};
use ion_cells::{only_payload, var_uint};

/// The cells of the texts in the struct of the one pair 7 that the bytes are.
#[tactic(auto, unfolding(block_meaning::specs::Blocks::listed_in))]
fn listed(cell: &[u8]) -> Option<&[u8]>
    ensures { option_map (λ p. p.now) result ≡ listed_in cell.now }
{
    let pair = only_payload(STRUCT, cell)?;
    let (label, start) = var_uint(pair, 0)?;
    if label == 7 {
        only_payload(LIST, &pair[start..])
    } else {
        None
    }
}

/// The cells of the texts in the content of a symbol table: the count of the annotation's bytes, the one annotation 3, and
/// a struct of the one pair 7.
#[tactic(auto, unfolding(block_meaning::specs::Blocks::texts_in))]
pub(crate) fn text_cells(content: &[u8]) -> Option<&[u8]>
    ensures { option_map (λ p. p.now) result ≡ texts_in content.now }
{
    let (count, begin) = var_uint(content, 0)?;
    let (annotation, start) = var_uint(content, begin)?;
    if annotation == 3 && start - begin == count as usize {
        listed(&content[start..])
    } else {
        None
    }
}
