ghost use Rattle.std.specs.Prelude.{◌≡◌, ◌<◌, ℕ, nat_eq, slice_index_or};
ghost use Rattle.lane_base.specs.Bits.{has};
ghost use Rattle.key_places.specs.Placed.{tag_of};

use lane_base::LaneMask;

/// The places of sixteen whose tag is this: bit `i` is place `i`.
pub fn probe16(tags: &[u8; 16], tag: u8) -> u16
    ensures { (i : ℕ) → i < 16 → has result i ≡ nat_eq (slice_index_or tags.now i 0) tag }
{
    let mut found = LaneMask::none();
    for i in 0..16u32 {
        let is_in = tags[i as usize] == tag;
        found = found.with_lane(i, is_in);
    }
    found.0
}

/// The tag of a hash, which is never 0, that of a free place.
pub fn tag_of(hash: u64) -> u8
    ensures { result ≡ tag_of hash }
{
    128 + (hash >> 57) as u8
}
