ghost use Rattle.std.specs.Prelude.{◌≡◌};
ghost use Rattle.query_meaning.specs.Lexing as spec;

/// The number that digits spell, if it is at most 2^63 - 1.
pub fn number_of(digits: &[u8]) -> Option<u64>
    ensures { result ≡ spec.number_of digits.now }
{
    let mut number: u64 = 0;
    for digit in digits {
        let ones = u64::from(digit.saturating_sub(b'0'));
        if number > 922_337_203_685_477_580 {
            return None;
        }
        number = number * 10 + ones;
        if number > 9_223_372_036_854_775_807 {
            return None;
        }
    }
    Some(number)
}
