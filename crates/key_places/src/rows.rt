ghost use Rattle.std.specs.Prelude.{◌≡◌, ◌<◌, ℕ, true, length, slice_index_or, IfSome};
ghost use Rattle.key_places.specs.Placed.{IsReached, AreReached, row_at};

use crate::row::PlaceRow;
use crate::tags::tag_of;
use std::alloc::Global;

/// Puts a number under its hash into the first free place, if there is one.
pub fn put(rows: &mut [PlaceRow], hash: u64, number: u32) -> bool
    ensures len { length rows.new ≡ length rows.old }
    ensures reached { result ≡ true → IsReached rows.new hash number }
    ensures others { (h n : ℕ) → IsReached rows.old h n → IsReached rows.new h n }
{
    let count = rows.len();
    for step in 0..count {
        let at = row_at(hash, count, step);
        let row = rows[at];
        if let Some(place) = row.free_place() {
            rows[at] = row.with_number(place, tag_of(hash), number);
            return true;
        }
    }
    false
}

/// The row at which a search for the hash is after so many steps: one row after the other, from the hash's own on.
pub fn row_at(hash: u64, count: usize, step: usize) -> usize
    requires { step < count }
    ensures within { result < count }
    ensures is { result ≡ row_at hash count step }
{
    let start = (hash % count as u64) as usize;
    let rest = count - start;
    if step < rest {
        start + step
    } else {
        step - rest
    }
}

/// So many rows in which each hash is found under its number, from 0 on. `None` where memory or places don't suffice.
pub fn rows_of(alloc: Global, hashes: &[u64], count: usize) -> Option<Vec<PlaceRow>>
    ensures { IfSome result (λ rows. AreReached rows.items hashes.now) }
{
    let mut rows = empty_rows(alloc, count)?;
    if put_all(rows.as_mut_slice(), hashes) {
        Some(rows)
    } else {
        None
    }
}

/// Puts each hash's number, from 0 on, if there are places for all.
fn put_all(rows: &mut [PlaceRow], hashes: &[u64]) -> bool
    ensures len { length rows.new ≡ length rows.old }
    ensures reached { result ≡ true → AreReached rows.new hashes.now }
{
    for i in 0..hashes.len() {
        let Ok(number) = u32::try_from(i) else {
            return false;
        };
        if !put(rows, hashes[i], number) {
            return false;
        }
    }
    true
}

/// So many rows of free places.
fn empty_rows(alloc: Global, count: usize) -> Option<Vec<PlaceRow>> {
    let mut rows = Vec::new(alloc);
    for _ in 0..count {
        let Ok(()) = rows.push(PlaceRow::empty()) else {
            return None;
        };
    }
    Some(rows)
}
