ghost use Rattle.std.specs.Prelude.{◌≡◌, ◌+◌, ◌-◌, ◌<◌, ◌≤◌, ◌^◌, length, drop, IfSome};
ghost use Rattle.std.specs.Option.{option_map};
ghost use Rattle.block_meaning.specs.Numbers as spec;

/// The VarUInt that begins at the place `at`, and the place after it: one to four bytes of seven bits, the most
/// significant first, the high bit set on the last byte alone. None where none begins there.
#[inline(always)]
pub fn var_uint(bytes: &[u8], at: usize) -> Option<(u32, usize)>
    requires { at ≤ length bytes.now }
    ensures number { option_map (λ x. (x.0, drop x.1 bytes.now)) result
        ≡ spec.var_uint (drop at bytes.now) }
    ensures within { IfSome result (λ x. (at < x.1) × (x.1 ≤ length bytes.now) × (x.0 < 2 ^ 28)
        × (x.1 ≤ at + 4)) }
{
    let mut number = 0u32;
    for i in 0..4usize {
        let place = at + i;
        if place >= bytes.len() {
            return None;
        }
        let byte = bytes[place];
        if byte >= 128 {
            return Some((number * 128 + u32::from(byte - 128), place + 1));
        }
        number = number * 128 + u32::from(byte);
    }
    None
}

/// The number that at most eight bytes spell, the most significant first.
pub fn magnitude(bytes: &[u8]) -> u64
    requires { length bytes.now ≤ 8 }
    ensures { result ≡ spec.magnitude bytes.now }
{
    let mut number = 0u64;
    for byte in bytes {
        number = number * 256 + u64::from(*byte);
    }
    number
}

/// The rest of a VarUInt of which at most `room` bytes are left, and what follows it.
fn next_in(bytes: &[u8], room: usize, so_far: u32) -> Option<(u32, &[u8])>
    requires short { room ≤ 4 }
    requires small { so_far < 128 ^ (4 - room) }
    ensures number { option_map (λ x. (x.0, x.1.now)) result
        ≡ spec.var_uint_in room so_far bytes.now }
    ensures small { IfSome result (λ x. x.0 < 2 ^ 28) }
{
    if room == 0 || bytes.is_empty() {
        return None;
    }
    let byte = bytes[0];
    let rest = &bytes[1..];
    if byte < 128 {
        next_in(rest, room - 1, so_far * 128 + u32::from(byte))
    } else {
        Some((so_far * 128 + u32::from(byte - 128), rest))
    }
}

/// The VarUInt at the front, and what follows it.
#[inline(always)]
pub(crate) fn next_uint(bytes: &[u8]) -> Option<(u32, &[u8])>
    ensures number { option_map (λ x. (x.0, x.1.now)) result ≡ spec.var_uint bytes.now }
    ensures small { IfSome result (λ x. x.0 < 2 ^ 28) }
{
    let (number, end) = var_uint(bytes, 0)?;
    Some((number, &bytes[end..]))
}

/// Whether the VarInt at the front is negative, its size, and what follows it. Bit 6 of its first byte is the sign.
#[tactic(auto, unfolding(block_meaning::specs::Numbers::var_int, block_meaning::specs::Numbers::var_uint))]
pub(crate) fn next_int(bytes: &[u8]) -> Option<(bool, u32, &[u8])>
    ensures number { option_map (λ x. (x.0, x.1, x.2.now)) result ≡ spec.var_int bytes.now }
    ensures small { IfSome result (λ x. x.1 < 2 ^ 28) }
{
    if bytes.is_empty() {
        return None;
    }
    let byte = bytes[0];
    let rest = &bytes[1..];
    if byte % 128 < 64 {
        let (size, after) = next_uint(bytes)?;
        return Some((false, size, after));
    }
    let bare = byte - 64;
    if bare < 128 {
        let (size, after) = next_in(rest, 3, u32::from(bare))?;
        Some((true, size, after))
    } else {
        Some((true, u32::from(bare - 128), rest))
    }
}
