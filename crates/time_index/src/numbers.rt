ghost use Rattle.std.specs.Prelude.{◌≡◌, ◌+◌, ◌≤◌, length};
ghost use Rattle.file_meaning.specs.Reading.{u16_at, u32_at, u64_at, has_magic};

// The big endian number of 2 bytes at a place.
pub(crate) fn u16_at(bytes: &[u8], at: usize) -> u16
    requires { at + 2 ≤ length bytes.now }
    ensures { result ≡ u16_at at bytes.now }
{
    match bytes[at..].first_chunk::<2>() {
        Some(digits) => u16::from_be_bytes(*digits),
        None => unreachable!(),
    }
}

// The big endian number of 4 bytes at a place.
pub(crate) fn u32_at(bytes: &[u8], at: usize) -> u32
    requires { at + 4 ≤ length bytes.now }
    ensures { result ≡ u32_at at bytes.now }
{
    match bytes[at..].first_chunk::<4>() {
        Some(digits) => u32::from_be_bytes(*digits),
        None => unreachable!(),
    }
}

// The big endian number of 8 bytes at a place.
pub(crate) fn u64_at(bytes: &[u8], at: usize) -> u64
    requires { at + 8 ≤ length bytes.now }
    ensures { result ≡ u64_at at bytes.now }
{
    match bytes[at..].first_chunk::<8>() {
        Some(digits) => u64::from_be_bytes(*digits),
        None => unreachable!(),
    }
}

// Whether the four bytes at a place are the magic of block files.
pub(crate) fn has_magic(bytes: &[u8], at: usize) -> bool
    requires { at + 4 ≤ length bytes.now }
    ensures { result ≡ has_magic at bytes.now }
{
    &bytes[at..at + 4] == b"SNX1".as_slice()
}
