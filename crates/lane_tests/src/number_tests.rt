use lane_base::{IntLanes, LaneMask, Lanes, Look, const16};
use lane_cast::{cast16, math16, neg16};
use tree_meaning::{BinOp, CastTo};

/// One value of each kind: MISSING, NULL, true, false, a number, a time, a text, a list.
static KINDS: [Look<'static>; 8] = [
    Look::Missing,
    Look::Null,
    Look::Bool(true),
    Look::Bool(false),
    Look::Int(-7),
    Look::Time(-7),
    Look::Text(b"7"),
    Look::Tree(&[0xB1, 0x11]),
];

/// What arithmetic gives for pairs of kinds, a group for each left operand: M for MISSING, N for NULL, I for a number.
static PAIRS: &[u8] = b"MMMMMMMM MNNNNNNN MNMMMMMM MNMMMMMM MNMMIMMM MNMMMMMM MNMMMMMM MNMMMMMM";

/// `a op b`, none where it is MISSING.
static COMPUTED: [(BinOp, i64, i64, Option<i64>); 36] = [
    (BinOp::Add, 2, -9, Some(-7)),
    (BinOp::Add, i64::MAX, 1, None),
    (BinOp::Add, i64::MIN, -1, None),
    (BinOp::Add, i64::MAX, i64::MIN, Some(-1)),
    (BinOp::Add, i64::MAX, 0, Some(i64::MAX)),
    (BinOp::Sub, 2, 9, Some(-7)),
    (BinOp::Sub, i64::MIN, 1, None),
    (BinOp::Sub, i64::MAX, -1, None),
    (BinOp::Sub, 0, i64::MIN, None),
    (BinOp::Sub, -1, i64::MIN, Some(i64::MAX)),
    (BinOp::Mul, -3, 7, Some(-21)),
    (BinOp::Mul, i64::MIN, -1, None),
    (BinOp::Mul, i64::MIN, 1, Some(i64::MIN)),
    (
        BinOp::Mul,
        3_037_000_499,
        3_037_000_499,
        Some(9_223_372_030_926_249_001),
    ),
    (BinOp::Mul, 3_037_000_500, 3_037_000_500, None),
    (BinOp::Mul, -4_611_686_018_427_387_904, 2, Some(i64::MIN)),
    (BinOp::Mul, 4_611_686_018_427_387_904, 2, None),
    (BinOp::Mul, 4_294_967_296, 4_294_967_296, None),
    (BinOp::Div, 7, 2, Some(3)),
    (BinOp::Div, -7, 2, Some(-3)),
    (BinOp::Div, 7, -2, Some(-3)),
    (BinOp::Div, -7, -2, Some(3)),
    (BinOp::Div, 7, 0, None),
    (BinOp::Div, 0, 0, None),
    (BinOp::Div, i64::MIN, -1, None),
    (BinOp::Div, i64::MIN, 1, Some(i64::MIN)),
    (BinOp::Div, i64::MAX, -1, Some(-9_223_372_036_854_775_807)),
    (BinOp::Rem, 7, 2, Some(1)),
    (BinOp::Rem, -7, 2, Some(-1)),
    (BinOp::Rem, 7, -2, Some(1)),
    (BinOp::Rem, -7, -2, Some(-1)),
    (BinOp::Rem, 7, 0, None),
    (BinOp::Rem, 0, 0, None),
    (BinOp::Rem, i64::MIN, -1, Some(0)),
    (BinOp::Rem, i64::MIN, i64::MAX, Some(-1)),
    (BinOp::Rem, i64::MAX, i64::MIN, Some(i64::MAX)),
];

/// `-a`
static NEGATED: [(Look<'static>, Look<'static>); 10] = [
    (Look::Missing, Look::Missing),
    (Look::Null, Look::Null),
    (Look::Int(0), Look::Int(0)),
    (Look::Int(5), Look::Int(-5)),
    (Look::Int(i64::MAX), Look::Int(-9_223_372_036_854_775_807)),
    (Look::Int(i64::MIN), Look::Missing),
    (Look::Bool(true), Look::Missing),
    (Look::Time(5), Look::Missing),
    (Look::Text(b"5"), Look::Missing),
    (Look::Tree(&[0xB1, 0x11]), Look::Missing),
];

/// `CAST(a AS INTEGER)`
static INTEGERS: [(Look<'static>, Look<'static>); 26] = [
    (Look::Missing, Look::Missing),
    (Look::Null, Look::Null),
    (Look::Bool(true), Look::Int(1)),
    (Look::Bool(false), Look::Int(0)),
    (Look::Int(i64::MIN), Look::Int(i64::MIN)),
    (Look::Time(5), Look::Missing),
    (Look::Tree(&[0xB1, 0x11]), Look::Missing),
    (Look::Text(b"12"), Look::Int(12)),
    (Look::Text(b"-12"), Look::Int(-12)),
    (Look::Text(b"007"), Look::Int(7)),
    (Look::Text(b"-0"), Look::Int(0)),
    (Look::Text(b"9223372036854775807"), Look::Int(i64::MAX)),
    (Look::Text(b"9223372036854775808"), Look::Missing),
    (Look::Text(b"9999999999999999999"), Look::Missing),
    (Look::Text(b"-9223372036854775808"), Look::Int(i64::MIN)),
    (Look::Text(b"-9223372036854775809"), Look::Missing),
    (Look::Text(b"0000000000000000001"), Look::Int(1)),
    (Look::Text(b"00000000000000000001"), Look::Missing),
    (Look::Text(b""), Look::Missing),
    (Look::Text(b"-"), Look::Missing),
    (Look::Text(b"--1"), Look::Missing),
    (Look::Text(b"+1"), Look::Missing),
    (Look::Text(b" 1"), Look::Missing),
    (Look::Text(b"1 "), Look::Missing),
    (Look::Text(b"1.0"), Look::Missing),
    (Look::Text(b"true"), Look::Missing),
];

/// `CAST(a AS BOOLEAN)`
static BOOLEANS: [(Look<'static>, Look<'static>); 15] = [
    (Look::Missing, Look::Missing),
    (Look::Null, Look::Null),
    (Look::Bool(true), Look::Bool(true)),
    (Look::Bool(false), Look::Bool(false)),
    (Look::Int(0), Look::Bool(false)),
    (Look::Int(1), Look::Bool(true)),
    (Look::Int(i64::MIN), Look::Bool(true)),
    (Look::Time(1), Look::Missing),
    (Look::Tree(&[0xB1, 0x11]), Look::Missing),
    (Look::Text(b"true"), Look::Bool(true)),
    (Look::Text(b"false"), Look::Bool(false)),
    (Look::Text(b"TRUE"), Look::Missing),
    (Look::Text(b"t"), Look::Missing),
    (Look::Text(b"1"), Look::Missing),
    (Look::Text(b""), Look::Missing),
];

/// The letter of what arithmetic gives.
fn letter(look: Look<'_>) -> u8 {
    match look {
        Look::Missing => b'M',
        Look::Null => b'N',
        Look::Int(_) => b'I',
        _ => b'?',
    }
}

/// `a op b` in the last lane.
fn computed(op: BinOp, a: Look<'static>, b: Look<'static>) -> Look<'static> {
    let all = LaneMask::all();
    let a = const16(a, all);
    let b = const16(b, all);
    match op {
        BinOp::Add => math16(BinOp::Add, &a, &b, all).look(15),
        BinOp::Sub => math16(BinOp::Sub, &a, &b, all).look(15),
        BinOp::Mul => math16(BinOp::Mul, &a, &b, all).look(15),
        BinOp::Div => math16(BinOp::Div, &a, &b, all).look(15),
        BinOp::Rem => math16(BinOp::Rem, &a, &b, all).look(15),
        _ => Look::Null,
    }
}

/// Whether the operator gives the letters of `PAIRS`.
fn reads_kinds(op: BinOp) -> bool {
    for a in 0..8usize {
        for b in 0..8usize {
            let found = letter(computed(op, KINDS[a], KINDS[b]));
            if PAIRS.get(9 * a + b).copied() != Some(found) {
                return false;
            }
        }
    }
    true
}

/// The number that was found, none where it is MISSING, and 77 where it is anything else.
fn number(look: Look<'_>) -> Option<i64> {
    match look {
        Look::Int(number) => Some(number),
        Look::Missing => None,
        _ => Some(77),
    }
}

/// The value in the first lane, cast.
fn cast_one(to: CastTo, a: Look<'static>) -> Look<'static> {
    cast16(to, &const16(a, LaneMask::all()), LaneMask(1)).look(0)
}

#[test]
fn pairs_of_kinds(rt: HostRuntime) {
    for op in [BinOp::Add, BinOp::Sub, BinOp::Mul, BinOp::Div, BinOp::Rem] {
        assert!(rt; reads_kinds(op), "{op:?}");
    }
}

#[test]
fn numbers(rt: HostRuntime) {
    for (op, a, b, wanted) in &COMPUTED {
        let found = number(computed(*op, Look::Int(*a), Look::Int(*b)));
        assert_eq!(rt; found, *wanted, "{a} {op:?} {b}");
    }
    for (a, wanted) in &NEGATED {
        let all = LaneMask::all();
        assert!(rt; neg16(&const16(*a, all), all).look(15) == *wanted, "{a:?}");
    }
}

#[test]
fn casts(rt: HostRuntime) {
    for (a, wanted) in &INTEGERS {
        assert!(rt; cast_one(CastTo::Integer, *a) == *wanted, "{a:?}");
    }
    for (a, wanted) in &BOOLEANS {
        assert!(rt; cast_one(CastTo::Boolean, *a) == *wanted, "{a:?}");
    }
}

/// Each lane has its own answer, and a lane outside the mask none.
#[test]
fn lane_by_lane(rt: HostRuntime) {
    let all = LaneMask::all();
    let mut rising = [0i64; 16];
    for i in 0..16usize {
        rising[i] = i as i64 - 8;
    }
    let numbers = Lanes::ints(LaneMask::none(), all, IntLanes { lanes: rising });
    let seven = const16(Look::Int(7), LaneMask(0x7FFF));
    let rest = math16(BinOp::Rem, &seven, &numbers, LaneMask(0xFF80));
    assert_eq!(rt; (rest.null, rest.int), (LaneMask::none(), LaneMask(0x7E80)));
    assert!(rt;
        rest.look(7) == Look::Int(0) && rest.look(13) == Look::Int(2),
        "{:?}",
        rest.look(13)
    );
    let negated = neg16(&numbers, LaneMask(0x0001));
    assert!(rt; negated.look(0) == Look::Int(8) && negated.look(1) == Look::Missing);
    let truths = cast16(CastTo::Boolean, &numbers, LaneMask(0x0F00));
    assert_eq!(rt;
        (truths.null, truths.yes, truths.no),
        (LaneMask::none(), LaneMask(0x0E00), LaneMask(0x0100))
    );
}
