//! The objects of the file tree by their numbers, and the numbers drawn of each label.
#![tactic(auto)]

mod buffers;
mod index;
mod nodes;
mod object_keys;

pub use buffers::Buffers;
pub use fs_path::NoMemory;
pub use nodes::{NodeError, Nodes, WriteError};
