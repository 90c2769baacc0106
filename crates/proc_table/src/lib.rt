//! The living processes by their numbers, and the numbers drawn of each label.
#![tactic(auto)]

mod child_lists;
mod children;
mod ended;
mod living;
mod positions;
mod process;
mod procs;
mod table;

pub use kern_model::NoMemory;
pub use process::Proc;
pub use procs::{ProcError, Procs, ReapError};
