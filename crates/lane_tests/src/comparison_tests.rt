use lane_base::{IntLanes, LaneMask, Lanes, Look, SpanLanes, const16};
use lane_compare::{compare16, null16};
use tree_meaning::BinOp;

/// One value of each kind: MISSING, NULL, true, false, a number, a time, a text, a list.
static KINDS: [Look<'static>; 8] = [
    Look::Missing,
    Look::Null,
    Look::Bool(true),
    Look::Bool(false),
    Look::Int(-7),
    Look::Time(-7),
    Look::Text(b"true"),
    Look::Tree(&[0xB1, 0x11]),
];

/// What each operator gives for each pair of kinds, a group for each left operand.
static PAIRS: [(BinOp, &[u8]); 6] = [
    (
        BinOp::Eq,
        b"MMMMMMMM MNNNNNNN MNTFMMMM MNFTMMMM MNMMTMMM MNMMMTMM MNMMMMTM MNMMMMMM",
    ),
    (
        BinOp::Ne,
        b"MMMMMMMM MNNNNNNN MNFTMMMM MNTFMMMM MNMMFMMM MNMMMFMM MNMMMMFM MNMMMMMM",
    ),
    (
        BinOp::Lt,
        b"MMMMMMMM MNNNNNNN MNFFMMMM MNTFMMMM MNMMFMMM MNMMMFMM MNMMMMFM MNMMMMMM",
    ),
    (
        BinOp::Le,
        b"MMMMMMMM MNNNNNNN MNTFMMMM MNTTMMMM MNMMTMMM MNMMMTMM MNMMMMTM MNMMMMMM",
    ),
    (
        BinOp::Gt,
        b"MMMMMMMM MNNNNNNN MNFTMMMM MNFFMMMM MNMMFMMM MNMMMFMM MNMMMMFM MNMMMMMM",
    ),
    (
        BinOp::Ge,
        b"MMMMMMMM MNNNNNNN MNTTMMMM MNFTMMMM MNMMTMMM MNMMMTMM MNMMMMTM MNMMMMMM",
    ),
];

/// What `=`, `<>`, `<`, `<=`, `>` and `>=` give for pairs of one kind.
static ORDERED: [(Look<'static>, Look<'static>, &[u8]); 13] = [
    (Look::Int(i64::MIN), Look::Int(i64::MAX), b"FTTTFF"),
    (Look::Int(i64::MAX), Look::Int(i64::MIN), b"FTFFTT"),
    (Look::Int(i64::MAX), Look::Int(i64::MAX), b"TFFTFT"),
    (Look::Int(-1), Look::Int(0), b"FTTTFF"),
    (Look::Time(-1), Look::Time(1), b"FTTTFF"),
    (Look::Time(2), Look::Time(1), b"FTFFTT"),
    (Look::Text(b""), Look::Text(b""), b"TFFTFT"),
    (Look::Text(b"a"), Look::Text(b"ab"), b"FTTTFF"),
    (Look::Text(b"b"), Look::Text(b"ab"), b"FTFFTT"),
    (Look::Text(b"10"), Look::Text(b"9"), b"FTTTFF"),
    (Look::Text(b"A"), Look::Text(b"a"), b"FTTTFF"),
    (Look::Text(b"\xC3\xA9"), Look::Text(b"z"), b"FTFFTT"),
    (Look::Text(b"same"), Look::Text(b"same"), b"TFFTFT"),
];

/// The letter of what a comparison gives: M, N, T or F.
fn letter(look: Look<'_>) -> u8 {
    match look {
        Look::Missing => b'M',
        Look::Null => b'N',
        Look::Bool(true) => b'T',
        Look::Bool(false) => b'F',
        _ => b'?',
    }
}

/// The letter of `a op b` in the last lane.
fn compared(op: BinOp, a: Look<'static>, b: Look<'static>) -> u8 {
    let all = LaneMask::all();
    let a = const16(a, all);
    let b = const16(b, all);
    match op {
        BinOp::Eq => letter(compare16(BinOp::Eq, &a, &b, all).look(15)),
        BinOp::Ne => letter(compare16(BinOp::Ne, &a, &b, all).look(15)),
        BinOp::Lt => letter(compare16(BinOp::Lt, &a, &b, all).look(15)),
        BinOp::Le => letter(compare16(BinOp::Le, &a, &b, all).look(15)),
        BinOp::Gt => letter(compare16(BinOp::Gt, &a, &b, all).look(15)),
        BinOp::Ge => letter(compare16(BinOp::Ge, &a, &b, all).look(15)),
        _ => b'?',
    }
}

/// Whether the operator gives these letters for the pairs of kinds.
fn gives(op: BinOp, letters: &[u8]) -> bool {
    for a in 0..8usize {
        for b in 0..8usize {
            if letters.get(9 * a + b).copied() != Some(compared(op, KINDS[a], KINDS[b])) {
                return false;
            }
        }
    }
    true
}

#[test]
fn pairs_of_kinds(rt: HostRuntime) {
    for (op, letters) in &PAIRS {
        assert!(rt; gives(*op, *letters), "{op:?}");
    }
}

#[test]
fn pairs_of_values(rt: HostRuntime) {
    for (a, b, letters) in &ORDERED {
        let found = [
            compared(BinOp::Eq, *a, *b),
            compared(BinOp::Ne, *a, *b),
            compared(BinOp::Lt, *a, *b),
            compared(BinOp::Le, *a, *b),
            compared(BinOp::Gt, *a, *b),
            compared(BinOp::Ge, *a, *b),
        ];
        assert!(rt; found.as_slice() == *letters, "{a:?} and {b:?}");
    }
}

/// Each lane has its own answer, and a lane outside the mask none.
#[test]
fn lane_by_lane(rt: HostRuntime) {
    let all = LaneMask::all();
    let none = LaneMask::none();
    let mut rising = [0i64; 16];
    let mut texts: [&[u8]; 16] = [b"b"; 16];
    for i in 0..16usize {
        rising[i] = i as i64 - 8;
        if i % 2 == 0 {
            texts[i] = b"a";
        }
    }
    let numbers = Lanes::ints(none, all, IntLanes { lanes: rising });
    let zero = const16(Look::Int(0), LaneMask(0xFFF0));
    let below = compare16(BinOp::Lt, &numbers, &zero, LaneMask(0x7FFE));
    assert_eq!(rt;
        (below.null, below.yes, below.no),
        (none, LaneMask(0x00F0), LaneMask(0x7F00))
    );
    let words = Lanes::texts(all, SpanLanes { lanes: texts });
    let a = const16(Look::Text(b"a"), all);
    let same = compare16(BinOp::Eq, &words, &a, LaneMask(0xFF00));
    assert_eq!(rt;
        (same.null, same.yes, same.no),
        (none, LaneMask(0x5500), LaneMask(0xAA00))
    );
    let null = const16(Look::Null, LaneMask(0x0FF0));
    assert_eq!(rt; null16(&null, &zero, LaneMask(0x3333)), LaneMask(0x0330));
}
