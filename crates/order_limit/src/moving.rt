//! Between made rows and a vector of them.
ghost use Rattle.std.specs.Prelude.{◌≡◌, map, IfOk, IsPermutation};
ghost use Rattle.snel_values.specs.Made.{row_view};

use snel_values::{MadeRow, MadeRows, OutOfMemory};
use std::alloc::Global;

/// A vector of the rows, in any order.
pub(crate) fn to_vec(alloc: Global, mut rows: MadeRows) -> Result<Vec<MadeRow>, OutOfMemory>
    ensures { IfOk result (λ all. IsPermutation rows (map row_view all.items)) }
{
    let mut all = Vec::new(alloc);
    while let Some(row) = rows.pop() {
        all.push(row)?;
    }
    Ok(all)
}

/// The rows of a vector, in order.
pub(crate) fn to_rows(alloc: Global, all: Vec<MadeRow>) -> Result<MadeRows, OutOfMemory>
    ensures { IfOk result (λ rows. rows ≡ map row_view all.items) }
{
    let mut rows = MadeRows::new(alloc);
    for row in all {
        rows.push(row)?;
    }
    Ok(rows)
}
