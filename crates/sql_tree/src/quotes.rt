ghost use Rattle.std.specs.Prelude.{◌≡◌, ◌≤◌, length, IfSome};
ghost use Rattle.query_meaning.specs.Lexing as spec;

/// How many bytes there are up to the closing quote, and with it. Two quotes in a row close nothing, unless the text
/// has no closing quote behind them.
pub(crate) fn closing(bytes: &[u8], quote: u8) -> Option<usize>
    ensures value { result ≡ spec.closing quote bytes.now }
    ensures within { IfSome result (λ n. n ≤ length bytes.now) }
{
    let mut candidate = None;
    let mut place = 0;
    'places: while place < bytes.len() {
        if bytes[place] != quote {
            place += 1;
        } else if place + 1 < bytes.len() && bytes[place + 1] == quote {
            candidate = Some(place + 1);
            place += 2;
        } else {
            return Some(place + 1);
        }
    }
    candidate
}
