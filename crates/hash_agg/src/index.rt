ghost use Rattle.std.specs.Prelude.{◌≡◌, ◌<◌, ◌≤◌, ℕ, true, false, List, None, MatchOption, length, map, take, slice_index_or};
ghost use Rattle.key_places.specs.Placed.{IsReached};
ghost use Rattle.hash_agg.specs.Groups.{Entry, partials_at};
ghost use Rattle.hash_agg.specs.Entries.{entry_of};
ghost use Rattle.hash_agg.specs.Covers.{Covers, HasNone, IsNotAt};

use crate::group::Group;
use crate::keys::RowKeys;
use key_places::{PlaceRow, hash_values, probe16, put, row_at, rows_of, tag_of};
use lane_base::LaneMask;
use std::alloc::Global;
use std::hash::DefaultHasher;

/// So many groups are looked through one by one, which takes less than a hash does.
const FEW_GROUPS: usize = 8;

/// Where groups are found by their keys. It covers the first groups of a list: beside each its whole hash, and the row of
/// places in which its number is found by it. Groups that it doesn't cover, since memory was refused, are looked through
/// one by one.
#[derive(Drop)]
pub struct Index {
    seed: DefaultHasher,
    hashes: Vec<u64>,
    rows: Vec<PlaceRow>,
}

impl Index {
    /// Covers no groups. Hashes begin with the hasher.
    pub fn new(alloc: Global, seed: DefaultHasher) -> Index
        ensures { (entries : List Entry) → Covers result entries }
    {
        Index {
            seed,
            hashes: Vec::new(alloc),
            rows: Vec::new(alloc),
        }
    }

    /// The hasher with which hashes begin.
    pub fn seed(&self) -> DefaultHasher {
        self.seed
    }

    /// The place of the group with these keys, if there is one.
    pub fn find<K: RowKeys>(&self, all: &[Group], keys: &K) -> Option<usize>
        requires { Covers self.now (map entry_of all.now) }
        ensures { MatchOption result
            (partials_at (K.values keys.now) (map entry_of all.now) ≡ None)
            (λ i. (i < length all.now)
            × ((e : Entry) → (slice_index_or (map entry_of all.now) i e).0 ≡ K.values keys.now)) }
    {
        if all.len() <= FEW_GROUPS {
            return find_from(all, 0, keys);
        }
        match self.find_covered(all, keys) {
            Some(at) => Some(at),
            None => find_from(all, self.hashes.len(), keys),
        }
    }

    /// The place of the group with these keys, if there is one among those that are covered.
    fn find_covered<K: RowKeys>(&self, all: &[Group], keys: &K) -> Option<usize>
        requires { Covers self.now (map entry_of all.now) }
        ensures { MatchOption result
            (partials_at (K.values keys.now) (take (length self.now.hashes.items) (map entry_of all.now)) ≡ None)
            (λ i. (i < length all.now)
            × ((e : Entry) → (slice_index_or (map entry_of all.now) i e).0 ≡ K.values keys.now)) }
    {
        let hash = keys.hash(&self.seed);
        let hashes = self.hashes.as_slice();
        let rows = self.rows.as_slice();
        let count = rows.len();
        for step in 0..count {
            let row = &rows[row_at(hash, count, step)];
            if let Some(at) = find_in_row(row, hash, hashes, all, keys) {
                return Some(at);
            }
            if let Some(_free) = row.free_place() {
                return None;
            }
        }
        None
    }

    /// Takes in the groups that aren't covered yet, as far as memory suffices.
    pub fn cover(&mut self, alloc: Global, all: &[Group])
        requires { Covers self.old (map entry_of all.now) }
        ensures { Covers self.new (map entry_of all.now) }
    {
        for _ in self.hashes.len()..all.len() {
            self.cover_one(alloc, all);
        }
    }

    /// Takes in the next group, if memory suffices.
    fn cover_one(&mut self, alloc: Global, all: &[Group])
        requires { Covers self.old (map entry_of all.now) }
        ensures { Covers self.new (map entry_of all.now) }
    {
        let place = self.hashes.len();
        if place >= all.len() {
            return;
        }
        let group = &all[place];
        let hash = hash_values(&self.seed, group.keys.as_slice());
        let Ok(number) = u32::try_from(place) else {
            return;
        };
        self.grow(alloc);
        if put_in(&mut self.rows, hash, number) {
            let Ok(()) = self.hashes.push(hash) else {
                return;
            };
        }
    }

    /// Doubles the rows where more than half of the places would be taken, if memory suffices.
    fn grow(&mut self, alloc: Global)
        ensures seed { self.new.seed ≡ self.old.seed }
        ensures hashes { self.new.hashes.items ≡ self.old.hashes.items }
        ensures covers { (entries : List Entry) → Covers self.old entries → Covers self.new entries }
    {
        let count = self.rows.len();
        if self.hashes.len() / 8 < count {
            return;
        }
        let more = count.saturating_mul(2).max(1);
        if let Some(rows) = rows_of(alloc, self.hashes.as_slice(), more) {
            self.rows = rows;
        }
    }
}

/// Puts a number under its hash into the first free place, if there is one.
fn put_in(rows: &mut Vec<PlaceRow>, hash: u64, number: u32) -> bool
    ensures reached { result ≡ true → IsReached rows.new.items hash number }
    ensures others { (h n : ℕ) → IsReached rows.old.items h n → IsReached rows.new.items h n }
{
    put(rows.as_mut_slice(), hash, number)
}

/// The place of the group with these keys, if one of the numbers of the row is it.
fn find_in_row<K: RowKeys>(
    row: &PlaceRow,
    hash: u64,
    hashes: &[u64],
    all: &[Group],
    keys: &K,
) -> Option<usize>
    requires few { length hashes.now ≤ length all.now }
    ensures { MatchOption result
        (HasNone hash hashes.now (K.values keys.now) (map entry_of all.now) row.now)
        (λ i. (i < length all.now)
        × ((e : Entry) → (slice_index_or (map entry_of all.now) i e).0 ≡ K.values keys.now)) }
{
    let found = LaneMask(probe16(&row.tags, tag_of(hash)));
    for place in 0..16u32 {
        if found.has(place) {
            let number = row.numbers[place as usize] as usize;
            if is_at(number, hash, hashes, all, keys) {
                return Some(number);
            }
        }
    }
    None
}

/// Whether the group at a place has these keys: they are compared where the hash is the same.
fn is_at<K: RowKeys>(number: usize, hash: u64, hashes: &[u64], all: &[Group], keys: &K) -> bool
    requires few { length hashes.now ≤ length all.now }
    ensures at { result ≡ true → (number < length all.now)
        × ((e : Entry) → (slice_index_or (map entry_of all.now) number e).0 ≡ K.values keys.now) }
    ensures not { result ≡ false
        → IsNotAt hash hashes.now (K.values keys.now) (map entry_of all.now) number }
{
    if number >= hashes.len() {
        return false;
    }
    let whole = hashes[number];
    if whole != hash {
        return false;
    }
    let group = &all[number];
    keys.are(group.keys.as_slice())
}

/// The place of the group with these keys, which is none of those before.
fn find_from<K: RowKeys>(all: &[Group], from: usize, keys: &K) -> Option<usize>
    requires before { from ≤ length all.now }
    requires none { partials_at (K.values keys.now) (take from (map entry_of all.now)) ≡ None }
    ensures { MatchOption result
        (partials_at (K.values keys.now) (map entry_of all.now) ≡ None)
        (λ i. (i < length all.now)
        × ((e : Entry) → (slice_index_or (map entry_of all.now) i e).0 ≡ K.values keys.now)) }
{
    for i in from..all.len() {
        if keys.are(all[i].keys.as_slice()) {
            return Some(i);
        }
    }
    None
}
