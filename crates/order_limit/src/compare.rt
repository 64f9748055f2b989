//! How the sort keys of two rows compare.
ghost use Rattle.std.specs.Prelude.{◌≡◌, slice_index_or};
ghost use Rattle.value_meaning.specs.Val.{missing};
ghost use Rattle.snel_values.specs.View.{view};
ghost use Rattle.order_limit.specs.Padded.{key_cmp, padded_cmp};

use snel_values::{Items, Value, order};
use std::cmp::Ordering;

/// How the keys a stand to the keys b, key by key; those that fall are reversed, and an absent key is as MISSING.
pub(crate) fn compare_keys(falling: &[bool], a: &Items, b: &Items) -> Ordering
    ensures { result ≡ padded_cmp falling.now a.now b.now }
{
    let absent = Value::Missing;
    for i in 0..falling.len() {
        let first = compare_at(falling[i], a, b, i, &absent);
        if first != Ordering::Equal {
            return first;
        }
    }
    Ordering::Equal
}

/// The key at a place, or the absent one.
fn key_at<'a>(keys: &'a Items, at: usize, absent: &'a Value) -> &'a Value
    ensures { view result.now ≡ slice_index_or keys.now at (view absent.now) }
{
    let all = keys.as_slice();
    if at < all.len() { &all[at] } else { absent }
}

/// How key `at` of a stands to that of b, an absent key as MISSING.
fn compare_at(falls: bool, a: &Items, b: &Items, at: usize, absent: &Value) -> Ordering
    requires { view absent.now ≡ missing }
    ensures { result ≡ key_cmp falls (slice_index_or a.now at missing) (slice_index_or b.now at missing) }
{
    let x = key_at(a, at, absent);
    let y = key_at(b, at, absent);
    if falls { order(y, x) } else { order(x, y) }
}
