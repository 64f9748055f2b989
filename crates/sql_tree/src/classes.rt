ghost use Rattle.std.specs.Prelude.{◌≡◌, ◌≤◌, length};
ghost use Rattle.sql_tree.specs.Classes.{passes};
ghost use Rattle.query_meaning.specs.Lexing as spec;

/// Which bytes a token goes on with.
#[derive(Clone, Copy)]
pub(crate) enum Class {
    Word,
    Digit,
    Moment,
}

pub(crate) fn is_space(byte: u8) -> bool
    ensures { result ≡ spec.is_space byte }
{
    byte == b' ' || byte == b'\t' || byte == b'\r' || byte == b'\n'
}

pub(crate) fn starts_word(byte: u8) -> bool
    ensures { result ≡ spec.starts_word byte }
{
    (byte >= b'a' && byte <= b'z') || (byte >= b'A' && byte <= b'Z') || byte == b'_'
}

pub(crate) fn is_digit(byte: u8) -> bool
    ensures { result ≡ spec.is_digit byte }
{
    byte >= b'0' && byte <= b'9'
}

fn passes(class: Class, byte: u8) -> bool
    ensures { result ≡ passes class byte }
{
    match class {
        Class::Word => starts_word(byte) || is_digit(byte),
        Class::Digit => is_digit(byte),
        Class::Moment => byte != b'`',
    }
}

/// How many bytes of the front are of the class.
pub(crate) fn run(class: Class, bytes: &[u8]) -> usize
    ensures value { result ≡ spec.run (passes class) bytes.now }
    ensures within { result ≤ length bytes.now }
{
    let mut count = 0;
    for byte in bytes {
        if !passes(class, *byte) {
            return count;
        }
        count += 1;
    }
    count
}
