use lane_base::{
    LaneMask, Lanes, Look, and16, const16, first16, is16, keep16, merge16, not16, or16, true16,
};
use tree_meaning::IsWhat;

/// One value of each kind: MISSING, NULL, true, false, a number, a time, a text, a list.
fn kinds() -> [Look<'static>; 8] {
    [
        Look::Missing,
        Look::Null,
        Look::Bool(true),
        Look::Bool(false),
        Look::Int(-7),
        Look::Time(1_700_000_000_000_000),
        Look::Text(b"true"),
        Look::Tree(&[0xB1, 0x11]),
    ]
}

/// The letter of a kind: M, N, T, F, I, C for a time, X for a text, R for a list.
fn letter(look: Look<'_>) -> u8 {
    match look {
        Look::Missing => b'M',
        Look::Null => b'N',
        Look::Bool(true) => b'T',
        Look::Bool(false) => b'F',
        Look::Int(_) => b'I',
        Look::Time(_) => b'C',
        Look::Text(_) => b'X',
        Look::Tree(_) => b'R',
    }
}

/// The first value in eight lanes, and the second in the other eight.
fn left(first: Look<'static>, second: Look<'static>) -> Lanes<'static> {
    merge16(
        LaneMask(0x00FF),
        &const16(first, LaneMask::all()),
        &const16(second, LaneMask::all()),
        LaneMask::all(),
    )
}

/// Each kind in turn, twice.
fn right() -> Lanes<'static> {
    let mut lanes = const16(Look::Missing, LaneMask::all());
    let kinds = kinds();
    for lane in 0..16u32 {
        let one = const16(kinds[(lane % 8) as usize], LaneMask::all());
        lanes = merge16(LaneMask(1u16 << lane), &one, &lanes, LaneMask::all());
    }
    lanes
}

/// The kinds that the lanes show.
fn letters(lanes: &Lanes<'_>) -> [u8; 16] {
    let mut letters = [b'?'; 16];
    for lane in 0..16u32 {
        letters[lane as usize] = letter(lanes.look(lane));
    }
    letters
}

/// Two rows of a table of pairs, as sixteen lanes.
#[test]
fn pairs_of_kinds(rt: HostRuntime) {
    let and: [[u8; 16]; 4] = [
        *b"MMMFMMMMMNNFMMMM",
        *b"MNTFMMMMFFFFFFFF",
        *b"MMMFMMMMMMMFMMMM",
        *b"MMMFMMMMMMMFMMMM",
    ];
    let or: [[u8; 16]; 4] = [
        *b"MMTMMMMMMNTNMMMM",
        *b"TTTTTTTTMNTFMMMM",
        *b"MMTMMMMMMMTMMMMM",
        *b"MMTMMMMMMMTMMMMM",
    ];
    let coalesce: [[u8; 16]; 4] = [
        *b"MNTFICXRNNTFICXR",
        *b"TTTTTTTTFFFFFFFF",
        *b"IIIIIIIICCCCCCCC",
        *b"XXXXXXXXRRRRRRRR",
    ];
    let merge: [[u8; 16]; 4] = [
        *b"MNTFMMMMMNTFNNNN",
        *b"MNTFTTTTMNTFFFFF",
        *b"MNTFIIIIMNTFCCCC",
        *b"MNTFXXXXMNTFRRRR",
    ];
    let all = LaneMask::all();
    let kinds = kinds();
    let b = right();
    for half in 0..4usize {
        let a = left(kinds[half * 2], kinds[half * 2 + 1]);
        assert_eq!(rt; letters(&and16(&a, &b, all)), and[half], "AND of {half}");
        assert_eq!(rt; letters(&or16(&a, &b, all)), or[half], "OR of {half}");
        assert_eq!(rt;
            letters(&first16(&a, &b, all)),
            coalesce[half],
            "COALESCE of {half}"
        );
        assert_eq!(rt;
            letters(&merge16(LaneMask(0xF0F0), &a, &b, all)),
            merge[half],
            "choice of {half}"
        );
    }
}

#[test]
fn kinds_one_by_one(rt: HostRuntime) {
    let all = LaneMask::all();
    let a = right();
    assert_eq!(rt; letters(&a), *b"MNTFICXRMNTFICXR");
    assert_eq!(rt; letters(&not16(&a, all)), *b"MNFTMMMMMNFTMMMM");
    assert_eq!(rt; letters(&is16(IsWhat::Null, &a, all)), *b"FTFFFFFFFTFFFFFF");
    assert_eq!(rt;
        letters(&is16(IsWhat::Missing, &a, all)),
        *b"TFFFFFFFTFFFFFFF"
    );
    assert_eq!(rt; letters(&is16(IsWhat::True, &a, all)), *b"FFTFFFFFFFTFFFFF");
    assert_eq!(rt;
        letters(&is16(IsWhat::False, &a, all)),
        *b"FFFTFFFFFFFTFFFF"
    );
    assert_eq!(rt; true16(&a, all), LaneMask(0x0404));
    assert_eq!(rt; true16(&a, LaneMask(0x00FF)), LaneMask(0x0004));
    assert_eq!(rt;
        letters(&keep16(&a, LaneMask(0xFF00))),
        *b"MMMMMMMMMNTFICXR"
    );
    assert_eq!(rt; letters(&not16(&a, LaneMask(0x00F8))), *b"MMMTMMMMMMMMMMMM");
    assert_eq!(rt;
        letters(&is16(IsWhat::Missing, &a, LaneMask(0x0003))),
        *b"TFMMMMMMMMMMMMMM"
    );
}

/// What a lane holds is passed on as it was.
#[test]
fn contents_are_passed_on(rt: HostRuntime) {
    let none = const16(Look::Missing, LaneMask::all());
    for kind in kinds() {
        let lanes = const16(kind, LaneMask(0x8001));
        assert_eq!(rt; lanes.look(0), kind);
        assert_eq!(rt; lanes.look(1), Look::Missing);
        assert_eq!(rt; first16(&none, &lanes, LaneMask::all()).look(15), kind);
        assert_eq!(rt; keep16(&lanes, LaneMask(0x8000)).look(15), kind);
    }
}

#[test]
fn masks(rt: HostRuntime) {
    let some = LaneMask(0b1010_0000_0000_0110);
    assert_eq!(rt; some.count(), 4);
    assert_eq!(rt; LaneMask::all().count(), 16);
    assert!(rt; LaneMask::none().is_none() && !some.is_none());
    assert!(rt; some.has(1) && some.has(15) && !some.has(0) && !some.has(14));
    assert_eq!(rt; some.and(LaneMask(3)), LaneMask(2));
    assert_eq!(rt; some.or(LaneMask(1)), LaneMask(0b1010_0000_0000_0111));
    assert_eq!(rt; some.minus(LaneMask(3)), LaneMask(0b1010_0000_0000_0100));
}
