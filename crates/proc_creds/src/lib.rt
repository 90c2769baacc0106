//! The credentials of a process, and the rules by which it changes them and by which a program gives it others.
#![tactic(auto)]

mod creds;

pub use creds::{Creds, NotAllowed};
pub use kern_model::NoMemory;
