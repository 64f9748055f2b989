//! How many rows are held.
ghost use Rattle.std.specs.Prelude.{◌≡◌, ◌≢◌, ◌+◌, ◌≤◌, ℕ, Some, IfOk};
ghost use Rattle.order_limit.specs.Top.{IsEnough};
ghost use Rattle.sorted_rows.specs.Holding.{IsEmptyTop, IsEnoughIfAny};

use order_limit::TopK;
use snel_values::OutOfMemory;
use std::alloc::Global;

/// Where OFFSET plus LIMIT is greater, all rows are held and sorted at the end.
const MOST_FIRST_ROWS: u64 = 65_536;

/// No rows, and room for enough of them to skip the first `skip` many (OFFSET) and then take at most `take` many (LIMIT).
pub(crate) fn empty_top(
    alloc: Global,
    falling: &[bool],
    skip: u64,
    take: Option<u64>,
) -> Result<TopK, OutOfMemory>
    ensures { IfOk result (λ t. IsEmptyTop falling.now skip take t) }
{
    match first_rows(skip, take) {
        Some(most) => TopK::new(alloc, falling, most),
        None => TopK::unlimited(alloc, falling),
    }
}

/// How many of the first rows are enough, where these are few: none for LIMIT 0, else OFFSET plus LIMIT many.
fn first_rows(skip: u64, take: Option<u64>) -> Option<u32>
    ensures enough { IsEnoughIfAny result skip take }
    ensures few { (n : ℕ) → take ≡ Some n → n ≢ 0 → skip + n ≤ 65536 → result ≡ Some (skip + n) }
    ensures none { take ≡ Some 0 → result ≡ Some 0 }
{
    let most = match take {
        Some(most) => most,
        None => return None,
    };
    if most == 0 {
        return Some(0);
    }
    let all = skip.saturating_add(most);
    if all <= MOST_FIRST_ROWS {
        Some(all as u32)
    } else {
        None
    }
}
