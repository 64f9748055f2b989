ghost use Rattle.std.specs.Prelude.{◌≡◌};
ghost use Rattle.std.specs.Str.{all_ascii_digits};
ghost use Rattle.tree_meaning.specs.Decimals.{decimal_on};
ghost use Rattle.eval_meaning.specs.Casts as spec;
ghost use Rattle.eval_meaning.specs.Numbers.{fitted};
ghost use Rattle.lane_cast.specs.Spelled.{integer_or_missing, truth_or_missing, up_to_limit};

/// The truth value that a text spells: `true` or `false`.
#[tactic(auto, unfolding(eval_meaning::specs::Casts::spelled_truth))]
pub(crate) fn spelled_truth(bytes: &[u8]) -> Option<bool>
    ensures { truth_or_missing result ≡ spec.spelled_truth bytes.now }
{
    match bytes {
        b"true" => Some(true),
        b"false" => Some(false),
        _ => None,
    }
}

/// The number that a text spells: an optional `-` and 1 to 19 digits, with a value in range.
#[tactic(auto, unfolding(eval_meaning::specs::Casts::spelled_number))]
pub(crate) fn spelled_number(bytes: &[u8]) -> Option<i64>
    ensures { integer_or_missing result ≡ spec.spelled_number bytes.now }
{
    match bytes {
        [] => None,
        [first, rest @ ..] => {
            if *first == b'-' {
                negative_number(rest)
            } else {
                unsigned_number(bytes)
            }
        }
    }
}

// The number that 1 to 19 digits spell, if it is in range.
#[tactic(auto, unfolding(eval_meaning::specs::Casts::unsigned_number))]
fn unsigned_number(bytes: &[u8]) -> Option<i64>
    ensures { integer_or_missing result ≡ spec.unsigned_number bytes.now }
{
    if !are_digits(bytes) {
        return None;
    }
    match magnitude(bytes) {
        Some(number) => in_range(i128::from(number)),
        None => None,
    }
}

// The negative of the number that 1 to 19 digits spell, if it is in range.
#[tactic(auto, unfolding(eval_meaning::specs::Casts::negative_number))]
fn negative_number(bytes: &[u8]) -> Option<i64>
    ensures { integer_or_missing result ≡ spec.negative_number bytes.now }
{
    if !are_digits(bytes) {
        return None;
    }
    match magnitude(bytes) {
        Some(number) => in_range(-i128::from(number)),
        None => None,
    }
}

// The number, if it is in the range of a row's numbers.
fn in_range(number: i128) -> Option<i64>
    ensures { integer_or_missing result ≡ fitted number }
{
    if number < -9_223_372_036_854_775_808 || number > 9_223_372_036_854_775_807 {
        None
    } else {
        Some(number as i64)
    }
}

// The number that digits spell, if it is at most 2^63.
fn magnitude(digits: &[u8]) -> Option<u64>
    ensures { result ≡ up_to_limit (decimal_on 0 digits.now) }
{
    let mut number: u64 = 0;
    for digit in digits {
        let ones = u64::from(digit.saturating_sub(b'0'));
        if number > 922_337_203_685_477_580 {
            return None;
        }
        number = number * 10 + ones;
        if number > 9_223_372_036_854_775_808 {
            return None;
        }
    }
    Some(number)
}

// Whether these are 1 to 19 digits.
fn are_digits(bytes: &[u8]) -> bool
    ensures { result ≡ spec.are_digits bytes.now }
{
    !bytes.is_empty() && bytes.len() <= 19 && all_digits(bytes)
}

// Whether each byte is a digit.
fn all_digits(bytes: &[u8]) -> bool
    ensures { result ≡ all_ascii_digits bytes.now }
{
    match bytes {
        [] => true,
        [first, rest @ ..] => first.is_ascii_digit() && all_digits(rest),
    }
}
