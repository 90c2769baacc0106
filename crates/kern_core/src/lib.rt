//! The kernel: objects and processes, and the calls on them.
#![tactic(auto)]

mod boot;
mod calls;
mod from_world;
mod kernel;
mod loading;
mod outcome;

pub use kern_model::NoMemory;
pub use kernel::Kernel;
