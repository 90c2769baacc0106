//! Capabilities, sets of them, and the three sets of a process or a file.
#![tactic(auto)]

mod cap;
mod file_caps;
mod set;
mod state;

pub use cap::{CAP_COUNT, Cap};
pub use file_caps::FileCaps;
pub use set::CapSet;
pub use state::{CapState, Flag};
