//! The engine of programs in turns by label: reads the lines of programs that follow a world, and reports their calls.
#![tactic(auto)]

mod programs;
mod reading;
mod reporting;
mod schedule;

pub use reading::{ReadSchedule, read_schedule};
pub use reporting::{Started, report_programs};
pub use schedule::Schedule;
