//! OFFSET and LIMIT.
ghost use Rattle.std.specs.Prelude.{◌≡◌, ◌≢◌, ◌-◌, ◌≤◌, ℕ, List, Some, true, false, length, take, drop};
ghost use Rattle.scan_batches.specs.Lines.{left_of, let_through};

/// What OFFSET has still to drop, and what LIMIT, if there is one, has still to let through, in lines.
#[derive(Clone, Copy)]
pub struct Cut {
    /// How many lines are to be dropped first.
    pub skip: u64,
    /// How many lines may follow at most.
    pub take: Option<u64>,
}

/// Whether no line is let through any more.
pub fn is_full(cut: &Cut) -> bool
    ensures dropped { result ≡ true → cut.now.skip ≡ 0 }
    ensures taken { result ≡ true → cut.now.take ≡ Some 0 }
    ensures open { result ≡ false → cut.now.skip ≡ 0 → cut.now.take ≢ Some 0 }
{
    match cut.take {
        Some(most) => most == 0 && cut.skip == 0,
        None => false,
    }
}

/// What is left after so many lines.
pub fn rest_of(cut: &Cut, count: usize) -> Cut
    ensures skip { result.skip ≡ cut.now.skip - count }
    ensures take { result.take ≡ left_of cut.now.take (count - cut.now.skip) }
{
    let count = count as u64;
    let over = count.saturating_sub(cut.skip);
    Cut {
        skip: cut.skip.saturating_sub(count),
        take: match cut.take {
            Some(most) => Some(most.saturating_sub(over)),
            None => None,
        },
    }
}

/// From which to which of so many lines are let through; the second isn't.
pub fn range_of(cut: &Cut, count: usize) -> (usize, usize)
    ensures order { result.0 ≤ result.1 }
    ensures bound { result.1 ≤ count }
    ensures cut { (lines : List (List ℕ)) → length lines ≡ count
        → take (result.1 - result.0) (drop result.0 lines)
        ≡ let_through cut.now.skip cut.now.take lines }
{
    let from = if cut.skip < count as u64 {
        cut.skip as usize
    } else {
        count
    };
    let left = count - from;
    let most = at_most(cut.take, left);
    (from, from + most)
}

// How many of so many lines are within a limit.
fn at_most(most: Option<u64>, count: usize) -> usize
    ensures bound { result ≤ count }
    ensures cut { (lines : List (List ℕ)) → length lines ≡ count
        → take result lines ≡ let_through 0 most lines }
{
    match most {
        Some(most) => {
            if most < count as u64 {
                most as usize
            } else {
                count
            }
        }
        None => count,
    }
}
