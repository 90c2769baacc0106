//! The checks of calls: their rules, their verdicts, and how a call stops at one.
#![tactic(auto)]

mod checks;
mod rules;
mod stop;

pub use checks::{Checks, must, prefer, refuse_if};
pub use kern_model::{Check, NoMemory, Verdict, Want};
pub use rules::{has_group, mac_read_ok, mac_write_ok, mode_allows};
pub use stop::Stop;
