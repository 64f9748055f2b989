ghost use Rattle.std.specs.Prelude.{◌≡◌, ◌||◌, IsUtf8, nat_lt, nat_le, pos, count_by, length};
ghost use Rattle.std.specs.Str.{chars};

/// The count of the characters of a text: of its bytes that begin one. Nothing is said of bytes that aren't UTF-8.
#[tactic(auto, using(crate::proofs::Counts::count_is, crate::proofs::Counts::count_within))]
pub(crate) fn char_count(text: &[u8]) -> i64
    ensures { IsUtf8 text.now → result ≡ pos (length (chars text.now)) }
{
    begin_count(text) as i64
}

/// The count of the bytes that begin a character.
fn begin_count(text: &[u8]) -> usize
    ensures { result ≡ count_by (λ b. nat_lt b 128 || nat_le 192 b) text.now }
{
    text.iter().filter(|b| **b < 128 || 192 <= **b).count()
}
