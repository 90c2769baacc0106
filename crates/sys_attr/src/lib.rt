//! The bodies of `chmod`, `chown` and `umask`, and of the calls that read or set the capability sets of files and the labels of
//! objects.
#![tactic(auto)]

mod changing;
mod fields;
mod file_caps;
mod labels;
mod modes;
mod objects;
mod owners;
mod playing;

pub use fields::{Field, Setting, get_field, set_field};
pub use modes::{chmod, umask};
pub use objects::ObjectArgument;
pub use owners::chown;
pub use playing::play;
