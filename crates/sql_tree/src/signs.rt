ghost use Rattle.std.specs.Prelude.{◌≡◌};
ghost use Rattle.query_meaning.specs.Lexing as spec;

use query_meaning::Mark;

/// The sign that two bytes are.
#[tactic(auto, unfolding(query_meaning::specs::Lexing::two_sign))]
pub(crate) fn two_sign(first: u8, second: u8) -> Option<Mark>
    ensures { result ≡ spec.two_sign first second }
{
    match (first, second) {
        (b'<', b'>') | (b'!', b'=') => Some(Mark::Unequal),
        (b'<', b'=') => Some(Mark::AtMost),
        (b'>', b'=') => Some(Mark::AtLeast),
        _ => None,
    }
}

/// The sign that a byte is.
#[tactic(auto, unfolding(query_meaning::specs::Lexing::one_sign))]
pub(crate) fn one_sign(byte: u8) -> Option<Mark>
    ensures { result ≡ spec.one_sign byte }
{
    match byte {
        b'(' => Some(Mark::Open),
        b')' => Some(Mark::Close),
        b'[' => Some(Mark::OpenIndex),
        b']' => Some(Mark::CloseIndex),
        b',' => Some(Mark::Comma),
        b'.' => Some(Mark::Dot),
        b'*' => Some(Mark::Star),
        b'+' => Some(Mark::Plus),
        b'-' => Some(Mark::Minus),
        b'/' => Some(Mark::Slash),
        b'%' => Some(Mark::Percent),
        b'=' => Some(Mark::Equal),
        b'<' => Some(Mark::Less),
        b'>' => Some(Mark::Greater),
        _ => None,
    }
}

/// The sign that the bytes are.
#[tactic(auto, unfolding(query_meaning::specs::Lexing::sign_of))]
pub fn sign_of(bytes: &[u8]) -> Option<Mark>
    ensures { result ≡ spec.sign_of bytes.now }
{
    match bytes {
        [byte] => one_sign(*byte),
        [first, second] => two_sign(*first, *second),
        _ => None,
    }
}
