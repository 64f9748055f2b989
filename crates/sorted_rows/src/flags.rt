//! Which order keys fall.
ghost use Rattle.std.specs.Prelude.{◌≡◌, map, IfOk};

use query_tree::OrderKeys;
use snel_values::OutOfMemory;
use std::alloc::Global;

/// For each order key, in order, whether it falls (DESC).
pub(crate) fn flags_of(alloc: Global, order: &OrderKeys) -> Result<Vec<bool>, OutOfMemory>
    ensures { IfOk result (λ flags. flags.items ≡ map (λ k. k.1) order.now) }
{
    let mut flags = Vec::new(alloc);
    for at in 0..order.len() {
        let Some(key) = order.get(at) else {
            unreachable!();
        };
        flags.push(key.falling)?;
    }
    Ok(flags)
}
