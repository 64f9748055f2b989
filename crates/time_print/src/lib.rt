//! The printing of times: `YYYY-MM-DDTHH:MM:SSZ`, with `.` and six digits before `Z` where microseconds are left; and
//! the date and the clock time, [`clock_at`], that such a text shows.
#![tactic(auto)]

mod clock;
mod times;

pub use clock::{Clock, clock_at};
pub use times::put_time;
