//! The bodies of the calls on processes: their children and ends, ids, programs, capability sets and labels.
#![tactic(auto)]

mod capabilities;
mod changing;
mod checking;
mod children;
mod ends;
mod id_kind;
mod ids;
mod labels;
mod playing;
mod programs;
mod reporting;

pub use capabilities::cap_set_proc;
pub use children::{fork, wait};
pub use ends::{exit, kill};
pub use ids::{setgid, setuid};
pub use labels::mac_set_proc;
pub use playing::play;
pub use programs::exec;
pub use reporting::report;
