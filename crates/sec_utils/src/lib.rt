//! The utilities on capability sets and labels of files: each is played as one call for each of its paths.
#![tactic(auto)]

mod calls;
mod reply;
mod util;

pub use calls::expand;
pub use fs_path::NoMemory;
pub use reply::util_text;
pub use util::{ByteLists, PathList, Tool, Util};
