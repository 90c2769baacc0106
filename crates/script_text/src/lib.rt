//! The lines of scripts, each of which is a call or a use of a utility, and the lines of replies to calls.
#![tactic(auto)]

mod argument;
mod call;
mod fault;
mod line;
mod reply;
mod step;
mod step_line;
mod step_word;
mod tool;

pub use fault::LineError;
pub use fs_path::NoMemory;
pub use line::{Line, read_line};
pub use reply::reply_text;
pub use step::{LabelList, ProgStep, StepLine, When};
pub use step_line::{do_line, read_step};
pub use step_word::MAX_PLACE;
