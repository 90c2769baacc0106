//! The bodies of the calls on descriptors, and of those that open or make what descriptors refer to.
#![tactic(auto)]

mod access;
mod descriptors;
mod offsets;
mod opening;
mod pipes;
mod playing;
mod reading;
mod writing;

pub use descriptors::{close, dup, fstat, lseek};
pub use opening::open;
pub use pipes::{mkfifo, pipe};
pub use playing::play;
pub use reading::read;
pub use writing::write;
