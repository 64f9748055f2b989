//! Times, what their parts begin with and show, and what is added to them. The expected values were computed by another
//! program's calendar.

ghost use Rattle.std.specs.Prelude.{◌<◌};

use lane_base::{IntLanes, LaneMask, Lanes, Look};
use lane_time::{extract16, shift16, trunc16, unix16};
use tree_meaning::{Func, Part};

static TIMES: [i64; 16] = [
    // 0001-01-01T00:00:00Z
    -62_135_596_800_000_000,
    // 0001-01-01T23:59:59.999999Z
    -62_135_510_400_000_001,
    // 1600-12-31T00:59:59.999999Z
    -11_644_556_400_000_001,
    // 1900-03-01T00:00:00Z
    -2_203_891_200_000_000,
    // 1969-12-31T23:59:59.999999Z
    -1,
    // 1970-01-01T00:00:00Z
    0,
    // 1970-01-04T23:59:59.999999Z, a Sunday
    345_599_999_999,
    // 1970-01-05T00:00:00Z, a Monday
    345_600_000_000,
    // 2000-02-29T12:34:56.789012Z
    951_827_696_789_012,
    // 2023-12-31T23:00:00.000001Z
    1_704_063_600_000_001,
    // 2024-02-29T23:59:59.999999Z
    1_709_251_199_999_999,
    // 2024-03-01T00:00:00Z
    1_709_251_200_000_000,
    // 2100-02-28T23:59:59.999999Z
    4_107_542_399_999_999,
    // 2100-03-01T00:00:00Z
    4_107_542_400_000_000,
    // 9999-10-01T00:00:00Z
    253_394_352_000_000_000,
    // 9999-12-31T23:59:59.999999Z
    253_402_300_799_999_999,
];

// The start of each part of each of the times.
static STARTS: [(Part, [i64; 16]); 8] = [
    (
        Part::Second,
        [
            -62_135_596_800_000_000,
            -62_135_510_401_000_000,
            -11_644_556_401_000_000,
            -2_203_891_200_000_000,
            -1_000_000,
            0,
            345_599_000_000,
            345_600_000_000,
            951_827_696_000_000,
            1_704_063_600_000_000,
            1_709_251_199_000_000,
            1_709_251_200_000_000,
            4_107_542_399_000_000,
            4_107_542_400_000_000,
            253_394_352_000_000_000,
            253_402_300_799_000_000,
        ],
    ),
    (
        Part::Minute,
        [
            -62_135_596_800_000_000,
            -62_135_510_460_000_000,
            -11_644_556_460_000_000,
            -2_203_891_200_000_000,
            -60_000_000,
            0,
            345_540_000_000,
            345_600_000_000,
            951_827_640_000_000,
            1_704_063_600_000_000,
            1_709_251_140_000_000,
            1_709_251_200_000_000,
            4_107_542_340_000_000,
            4_107_542_400_000_000,
            253_394_352_000_000_000,
            253_402_300_740_000_000,
        ],
    ),
    (
        Part::Hour,
        [
            -62_135_596_800_000_000,
            -62_135_514_000_000_000,
            -11_644_560_000_000_000,
            -2_203_891_200_000_000,
            -3_600_000_000,
            0,
            342_000_000_000,
            345_600_000_000,
            951_825_600_000_000,
            1_704_063_600_000_000,
            1_709_247_600_000_000,
            1_709_251_200_000_000,
            4_107_538_800_000_000,
            4_107_542_400_000_000,
            253_394_352_000_000_000,
            253_402_297_200_000_000,
        ],
    ),
    (
        Part::Day,
        [
            -62_135_596_800_000_000,
            -62_135_596_800_000_000,
            -11_644_560_000_000_000,
            -2_203_891_200_000_000,
            -86_400_000_000,
            0,
            259_200_000_000,
            345_600_000_000,
            951_782_400_000_000,
            1_703_980_800_000_000,
            1_709_164_800_000_000,
            1_709_251_200_000_000,
            4_107_456_000_000_000,
            4_107_542_400_000_000,
            253_394_352_000_000_000,
            253_402_214_400_000_000,
        ],
    ),
    (
        Part::Week,
        [
            -62_135_596_800_000_000,
            -62_135_596_800_000_000,
            -11_645_078_400_000_000,
            -2_204_150_400_000_000,
            -259_200_000_000,
            -259_200_000_000,
            -259_200_000_000,
            345_600_000_000,
            951_696_000_000_000,
            1_703_462_400_000_000,
            1_708_905_600_000_000,
            1_708_905_600_000_000,
            4_106_937_600_000_000,
            4_107_542_400_000_000,
            253_394_006_400_000_000,
            253_401_868_800_000_000,
        ],
    ),
    (
        Part::Month,
        [
            -62_135_596_800_000_000,
            -62_135_596_800_000_000,
            -11_647_152_000_000_000,
            -2_203_891_200_000_000,
            -2_678_400_000_000,
            0,
            0,
            0,
            949_363_200_000_000,
            1_701_388_800_000_000,
            1_706_745_600_000_000,
            1_709_251_200_000_000,
            4_105_123_200_000_000,
            4_107_542_400_000_000,
            253_394_352_000_000_000,
            253_399_622_400_000_000,
        ],
    ),
    (
        Part::Quarter,
        [
            -62_135_596_800_000_000,
            -62_135_596_800_000_000,
            -11_652_422_400_000_000,
            -2_208_988_800_000_000,
            -7_948_800_000_000,
            0,
            0,
            0,
            946_684_800_000_000,
            1_696_118_400_000_000,
            1_704_067_200_000_000,
            1_704_067_200_000_000,
            4_102_444_800_000_000,
            4_102_444_800_000_000,
            253_394_352_000_000_000,
            253_394_352_000_000_000,
        ],
    ),
    (
        Part::Year,
        [
            -62_135_596_800_000_000,
            -62_135_596_800_000_000,
            -11_676_096_000_000_000,
            -2_208_988_800_000_000,
            -31_536_000_000_000,
            0,
            0,
            0,
            946_684_800_000_000,
            1_672_531_200_000_000,
            1_704_067_200_000_000,
            1_704_067_200_000_000,
            4_102_444_800_000_000,
            4_102_444_800_000_000,
            253_370_764_800_000_000,
            253_370_764_800_000_000,
        ],
    ),
];

// EXTRACT(MICROSECOND FROM ..) of each of the times.
static MICROSECONDS: [i64; 16] = [
    0, 999_999, 999_999, 0, 999_999, 0, 999_999, 0, 789_012, 1, 999_999, 0, 999_999, 0, 0, 999_999,
];

// EXTRACT(SECOND FROM ..) of each of the times.
static SECONDS: [i64; 16] = [0, 59, 59, 0, 59, 0, 59, 0, 56, 0, 59, 0, 59, 0, 0, 59];

// EXTRACT(MINUTE FROM ..) of each of the times.
static MINUTES: [i64; 16] = [0, 59, 59, 0, 59, 0, 59, 0, 34, 0, 59, 0, 59, 0, 0, 59];

// EXTRACT(HOUR FROM ..) of each of the times.
static HOURS: [i64; 16] = [0, 23, 0, 0, 23, 0, 23, 0, 12, 23, 23, 0, 23, 0, 0, 23];

// EXTRACT(DAY FROM ..) of each of the times.
static DAYS: [i64; 16] = [1, 1, 31, 1, 31, 1, 4, 5, 29, 31, 29, 1, 28, 1, 1, 31];

// EXTRACT(MONTH FROM ..) of each of the times.
static MONTHS: [i64; 16] = [1, 1, 12, 3, 12, 1, 1, 1, 2, 12, 2, 3, 2, 3, 10, 12];

// EXTRACT(QUARTER FROM ..) of each of the times.
static QUARTERS: [i64; 16] = [1, 1, 4, 1, 4, 1, 1, 1, 1, 4, 1, 1, 1, 1, 4, 4];

// EXTRACT(YEAR FROM ..) of each of the times.
static YEARS: [i64; 16] = [
    1, 1, 1_600, 1_900, 1_969, 1_970, 1_970, 1_970, 2_000, 2_023, 2_024, 2_024, 2_100, 2_100,
    9_999, 9_999,
];

// The whole seconds of each of the times.
static EPOCHS: [i64; 16] = [
    -62_135_596_800,
    -62_135_510_401,
    -11_644_556_401,
    -2_203_891_200,
    -1,
    0,
    345_599,
    345_600,
    951_827_696,
    1_704_063_600,
    1_709_251_199,
    1_709_251_200,
    4_107_542_399,
    4_107_542_400,
    253_394_352_000,
    253_402_300_799,
];

// Counts of days, the times that they are added to, and the sums.
static SUMS: [(i64, i64, Option<i64>); 16] = [
    (1, 1_709_251_199_999_999, Some(1_709_337_599_999_999)),
    (-1, 1_709_251_200_000_000, Some(1_709_164_800_000_000)),
    (366, 1_704_063_600_000_001, Some(1_735_686_000_000_001)),
    (-719_162, 0, Some(-62_135_596_800_000_000)),
    (-719_163, 0, None),
    (2_932_896, 0, Some(253_402_214_400_000_000)),
    (2_932_897, 0, None),
    (
        3_652_058,
        -62_135_596_800_000_000,
        Some(253_402_214_400_000_000),
    ),
    (3_652_059, -62_135_596_800_000_000, None),
    (
        -3_652_058,
        253_402_300_799_999_999,
        Some(-62_135_510_400_000_001),
    ),
    (-3_652_059, 253_402_300_799_999_999, None),
    (0, 253_402_300_799_999_999, Some(253_402_300_799_999_999)),
    (9_223_372_036_854_775_807, 0, None),
    (-9_223_372_036_854_775_808, 0, None),
    (9_223_372_036_854_775_807, -62_135_596_800_000_000, None),
    (213_503_982_334_602, 0, None),
];

// The numbers as times.
fn as_times(nums: [i64; 16]) -> Lanes<'static> {
    Lanes::times(LaneMask::none(), LaneMask::all(), IntLanes { lanes: nums })
}

// The lane, which is below 16, shows the time, or MISSING.
fn shows_time(lanes: &Lanes<'_>, lane: u32, wanted: Option<i64>) -> bool
    requires { lane < 16 }
{
    match wanted {
        Some(time) => lanes.look(lane) == Look::Time(time),
        None => lanes.look(lane) == Look::Missing,
    }
}

// Each lane shows the time.
fn shows_times(lanes: &Lanes<'_>, wanted: &[i64; 16]) -> bool {
    for i in 0..16usize {
        if lanes.look(i as u32) != Look::Time(wanted[i]) {
            return false;
        }
    }
    true
}

// Each lane shows the number.
fn shows_ints(lanes: &Lanes<'_>, wanted: &[i64; 16]) -> bool {
    for i in 0..16usize {
        if lanes.look(i as u32) != Look::Int(wanted[i]) {
            return false;
        }
    }
    true
}

#[test]
fn parts_begin(rt: HostRuntime) {
    let times = as_times(TIMES);
    for (part, wanted) in &STARTS {
        assert!(rt;
            shows_times(&trunc16(*part, &times, LaneMask::all()), wanted),
            "{part:?}"
        );
    }
}

#[test]
fn parts_are_shown(rt: HostRuntime) {
    let times = as_times(TIMES);
    let all = LaneMask::all();
    assert!(rt; shows_ints(&extract16(Part::Microsecond, &times, all), &MICROSECONDS));
    assert!(rt; shows_ints(&extract16(Part::Second, &times, all), &SECONDS));
    assert!(rt; shows_ints(&extract16(Part::Minute, &times, all), &MINUTES));
    assert!(rt; shows_ints(&extract16(Part::Hour, &times, all), &HOURS));
    assert!(rt; shows_ints(&extract16(Part::Day, &times, all), &DAYS));
    assert!(rt; shows_ints(&extract16(Part::Month, &times, all), &MONTHS));
    assert!(rt; shows_ints(&extract16(Part::Quarter, &times, all), &QUARTERS));
    assert!(rt; shows_ints(&extract16(Part::Year, &times, all), &YEARS));
    assert!(rt; shows_ints(&unix16(Func::UnixEpoch, &times, all), &EPOCHS));
    assert!(rt; shows_ints(&unix16(Func::UnixMicro, &times, all), &TIMES));
}

#[test]
fn days_are_added(rt: HostRuntime) {
    let all = LaneMask::all();
    for (count, time, wanted) in &SUMS {
        let counts = Lanes::ints(
            LaneMask::none(),
            all,
            IntLanes {
                lanes: [*count; 16],
            },
        );
        let sums = shift16(Part::Day, &counts, &as_times([*time; 16]), LaneMask(0x0080));
        assert!(rt; shows_time(&sums, 7, *wanted), "{count} days");
        assert!(rt; shows_time(&sums, 8, None), "outside the mask");
    }
}
