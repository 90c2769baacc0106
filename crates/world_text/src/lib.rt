//! The text of a world: read line by line, the first fault named, and written in one form.
#![tactic(auto)]

mod builder;
mod chains;
mod expecting;
mod fault;
mod format;
mod head;
mod keyword;
mod processes;
mod reading;
mod tree;
mod values;
mod world;
mod writing;

pub use expecting::{Expecting, Parsed, parse_line};
pub use fault::WorldError;
pub use format::Format;
pub use std::alloc::AllocError as NoMemory;
pub use world::WorldText;
pub use writing::path_text;
