//! The bodies of the calls on directories and names.
#![tactic(auto)]

mod linking;
mod making;
mod playing;
mod reading;
mod removing;
mod renaming;
mod standing;

pub use linking::link;
pub use making::mkdir;
pub use playing::play;
pub use reading::{readdir, stat};
pub use removing::{rmdir, unlink};
pub use renaming::rename;
pub use standing::chdir;
