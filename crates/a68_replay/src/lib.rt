//! Schedules: which strand acts at each event of a run; and runs that follow one.
#![tactic(auto)]

mod laws;
mod picks;
mod reading;
mod turning;
mod writing;

pub use laws::{schedules_have_one_run, schedules_read_back, traced_runs_come_back};
pub use picks::{MOST_PICK, MOST_PICKS, MOST_SCHEDULE, Picks, ScheduleStop};
pub use reading::read_schedule;
pub use turning::{Replayed, replay};
pub use writing::schedule_of;
