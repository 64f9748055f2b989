use lane_base::{LaneMask, Lanes, Look, const16, merge16};
use lane_text::{Pattern, length16, match16};
use std::alloc::Global;
use std::test::Fail;
use tree_meaning::How;

/// Patterns, texts and whether they match. `a` is `aé` in the first three.
static ROWS: [(How, &str, &str, bool); 47] = [
    (How::Like, "a_", "aé", true),
    (How::Like, "a__", "aé", false),
    (How::ILike, "AÉ", "aé", false),
    (How::Like, "%b%", "abc", true),
    (How::Like, "%b", "abc", false),
    (How::Like, "", "", true),
    (How::Like, "", "a", false),
    (How::Like, "%", "", true),
    (How::Like, "%%", "é", true),
    (How::Like, "_", "é", true),
    (How::Like, "_", "ab", false),
    (How::Like, "__", "é", false),
    (How::Like, "_", "€", true),
    (How::Like, "a_c", "a😀c", true),
    (How::Like, "a____c", "a😀c", false),
    (How::Like, "a%", "abc", true),
    (How::Like, "b%", "abc", false),
    (How::Like, "%_é", "ééé", true),
    (How::Like, "%ab%ab%", "aab", false),
    (How::Like, "%ab%ab%", "abcab", true),
    (How::Like, "%aab%", "aaab", true),
    (How::Like, "a%a", "a", false),
    (How::Like, "a%a", "aba", true),
    (How::Like, "%_b_%", "aaabab", true),
    (How::Like, "%_b_%", "bab", false),
    (How::Like, "A%", "abc", false),
    (How::Like, "é%", "è", false),
    (How::ILike, "A%c", "abC", true),
    (How::ILike, "%B%", "abc", true),
    (How::ILike, "[", "{", false),
    (How::ILike, "@", "`", false),
    (How::ILike, "%z_", "aZé", true),
    (How::ILike, "k", "\u{212A}", false),
    (How::Starts, "ab", "abc", true),
    (How::Starts, "b", "abc", false),
    (How::Starts, "", "", true),
    (How::Starts, "%", "abc", false),
    (How::Ends, "bc", "abc", true),
    (How::Ends, "b", "abc", false),
    (How::Ends, "", "abc", true),
    (How::Ends, "_", "abc", false),
    (How::Contains, "", "abc", true),
    (How::Contains, "", "", true),
    (How::Contains, "c", "abc", true),
    (How::Contains, "ac", "abc", false),
    (How::Contains, "_", "abc", false),
    (How::Contains, "€", "1 € 2", true),
];

#[test]
fn patterns(rt: HostRuntime) {
    for row in &ROWS {
        let lanes = const16(Look::Text(row.2.as_bytes()), LaneMask(1));
        let letter = if row.3 { b'T' } else { b'F' };
        assert_eq!(rt;
            first_letter(rt.alloc(), row.0, row.1, &lanes),
            letter,
            "{}",
            row.1
        );
    }
}

/// Texts and the counts of their characters.
static LENGTHS: [(&str, i64); 6] = [
    ("aé", 2),
    ("", 0),
    ("ascii", 5),
    ("€", 1),
    ("日本語", 3),
    ("aé€😀", 4),
];

#[test]
fn lengths(rt: HostRuntime) {
    for row in &LENGTHS {
        let text = row.0;
        let lanes = const16(Look::Text(text.as_bytes()), LaneMask::all());
        assert_eq!(rt;
            length16(&lanes, LaneMask::all()).look(15),
            Look::Int(row.1)
        );
    }
}

/// The ways to match, each by a text that matches `abc` and not `xyz`.
static WAYS: [(How, &str); 5] = [
    (How::Like, "_bc"),
    (How::ILike, "_BC"),
    (How::Starts, "ab"),
    (How::Ends, "bc"),
    (How::Contains, "b"),
];

/// All kinds in the first eight lanes of the mask, and of the others one text.
#[test]
fn kinds_and_masks(rt: HostRuntime) {
    let mask = LaneMask(0x40FF);
    let lanes = kinds();
    for row in &WAYS {
        let shown = letters_of(rt.alloc(), row.0, row.1, &lanes, mask);
        assert_eq!(rt; shown, *b"MNMMMMTFMMMMMMTM");
    }
    assert_eq!(rt; letters(&length16(&lanes, mask)), *b"MNMMMM33MMMMMM3M");
}

/// Patterns of many pieces, which a text of 100,000 `a` doesn't match.
static LONG: [(How, &str); 4] = [
    (How::Like, "%a%a%a%a%a%b"),
    (How::ILike, "%A%A%A%A%A%b"),
    (How::Like, "%a_a%a_a%aab%"),
    (How::Like, "%a_a%a_a%a_b"),
];

#[test]
fn many_pieces_in_a_long_text(rt: HostRuntime) -> Result<(), Fail> {
    let text = vec![in rt.alloc(); b'a'; 100_000]?;
    let lanes = const16(Look::Text(&text), LaneMask::all());
    for row in &LONG {
        assert_eq!(rt; first_letter(rt.alloc(), row.0, row.1, &lanes), b'F');
    }
    Ok(())
}

/// The letter of lane 0.
fn first_letter(alloc: Global, how: How, pattern: &str, lanes: &Lanes<'_>) -> u8 {
    letters_of(alloc, how, pattern, lanes, LaneMask::all())[0]
}

/// What a match shows in the lanes of the mask, by letters; sixteen `!` where there is no memory for the pattern.
fn letters_of(
    alloc: Global,
    how: How,
    pattern: &str,
    lanes: &Lanes<'_>,
    mask: LaneMask,
) -> [u8; 16] {
    match Pattern::of(alloc, how, pattern) {
        Ok(pattern) => letters(&match16(&pattern, lanes, mask)),
        Err(_) => [b'!'; 16],
    }
}

/// M for MISSING, N for NULL, T and F for truth values, the digit of a number below ten.
fn letters(lanes: &Lanes<'_>) -> [u8; 16] {
    let mut letters = [b'?'; 16];
    for lane in 0..16u32 {
        letters[lane as usize] = match lanes.look(lane) {
            Look::Missing => b'M',
            Look::Null => b'N',
            Look::Bool(true) => b'T',
            Look::Bool(false) => b'F',
            Look::Int(3) => b'3',
            _ => b'?',
        };
    }
    letters
}

/// MISSING, NULL, true, a number, a time, a list and two texts, twice.
fn kinds() -> Lanes<'static> {
    let looks = [
        Look::Missing,
        Look::Null,
        Look::Bool(true),
        Look::Int(-7),
        Look::Time(0),
        Look::Tree(&[0xB1, 0x11]),
        Look::Text(b"abc"),
        Look::Text(b"xyz"),
    ];
    let mut lanes = const16(Look::Missing, LaneMask::all());
    for lane in 0..16u32 {
        let one = const16(looks[(lane % 8) as usize], LaneMask::all());
        lanes = merge16(LaneMask(1u16 << lane), &one, &lanes, LaneMask::all());
    }
    lanes
}
