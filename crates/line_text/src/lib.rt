//! The words that worlds, scripts, replies and records share: how each is written, and how those are read that are read
//! alike; and what can be wrong with a line.
#![tactic(auto)]

mod fault;
mod reader;
mod reply;
mod writer;

pub use fault::LineFault;
pub use reader::{choice, path_of};
pub use std::alloc::AllocError as NoMemory;
pub use writer::LineWriter;
