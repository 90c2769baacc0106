//! The tree of directories: the entries in each of them, over the objects.
#![tactic(auto)]

mod below;
mod counting;
mod directory;
mod dirs;
mod entries;
mod head;
mod holder_labels;
mod links;
mod slot;
mod spots;
mod tiers;
mod tree;

pub use fs_path::NoMemory;
pub use spots::{Spot, Spots};
pub use tree::{Absent, AddError, MoveError, Tree, root_directory};
