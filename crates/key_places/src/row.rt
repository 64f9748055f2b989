ghost use Rattle.std.specs.Prelude.{◌≡◌, ◌<◌, MatchOption, slice_index_or, slice_set};
ghost use Rattle.key_places.specs.Placed.{IsFull, IsPlaced};

/// Sixteen places, each with a number and its tag. A place whose tag is 0 is free.
#[derive(Clone, Copy)]
pub struct PlaceRow {
    pub tags: [u8; 16],
    pub numbers: [u32; 16],
}

impl PlaceRow {
    /// Sixteen free places.
    pub fn empty() -> PlaceRow {
        PlaceRow {
            tags: [0; 16],
            numbers: [0; 16],
        }
    }

    /// The first free place, if there is one.
    pub fn free_place(&self) -> Option<usize>
        ensures { MatchOption result (IsFull self.now)
            (λ p. (p < 16) × (slice_index_or self.now.tags p 0 ≡ 0)) }
    {
        for p in 0..16 {
            if self.tags[p] == 0 {
                return Some(p);
            }
        }
        None
    }

    /// The row with a number under its tag in one place.
    pub fn with_number(self, place: usize, tag: u8, number: u32) -> PlaceRow
        requires { place < 16 }
        ensures { IsPlaced self place tag number result }
    {
        let mut tags = self.tags;
        tags[place] = tag;
        let mut numbers = self.numbers;
        numbers[place] = number;
        PlaceRow { tags, numbers }
    }
}
