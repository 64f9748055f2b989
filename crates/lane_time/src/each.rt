//! A function of times, at sixteen lanes.

ghost use Rattle.std.specs.Prelude.{◌≡◌, ◌<◌, ℕ, ℤ};
ghost use Rattle.time_meaning.specs.Moments.{IsTime};
ghost use Rattle.lane_base.specs.Registers.{number_at};

use lane_base::IntLanes;

/// The microseconds of 0001-01-01T00:00:00Z.
pub(crate) const FIRST_TIME: i64 = -62_135_596_800_000_000;

/// The microseconds of 9999-12-31T23:59:59.999999Z.
pub(crate) const LAST_TIME: i64 = 253_402_300_799_999_999;

/// What the function gives in each lane whose number is a time. In any other lane it is asked of the nearest time, so that
/// no lane is told from another.
#[inline(always)]
pub(crate) fn at_times<F: Fn(i64) -> i64>(nums: &IntLanes, f: F) -> IntLanes
    requires { (t : ℤ) → IsTime t → F.pre f t }
    ensures { (k : ℕ) → k < 16 → IsTime (number_at nums.now.lanes k)
        → F.post f (number_at nums.now.lanes k) (number_at result.lanes k) }
{
    let mut lanes = [0i64; 16];
    for i in 0..16usize {
        lanes[i] = f(nearest_time(nums.lanes[i]));
    }
    IntLanes { lanes }
}

/// The number, drawn into the calendar's range.
#[inline(always)]
fn nearest_time(number: i64) -> i64
    ensures bound { IsTime result }
    ensures same { IsTime number → result ≡ number }
{
    number.clamp(FIRST_TIME, LAST_TIME)
}
