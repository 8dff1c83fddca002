//! Schedules and reports: what a run is asked, what it tells, and which reports are caused.
#![tactic(auto)]

mod report;
mod schedule;

pub use report::{Replies, Report, Section, Told};
pub use schedule::{CLIENTS, Plan, SCHEDULE_LIMIT, ScheduleRefusal, Step, read_schedule};

#[cfg(test)]
mod tests;
