//! The texts of capability states and of sets of capabilities.
#![tactic(auto)]

mod action;
mod clause;
mod error;
mod list;
mod written;

pub use clause::cap_from_text;
pub use error::CapTextError;
pub use list::set_from_text;
pub use std::alloc::AllocError as NoMemory;
pub use written::{cap_to_text, put_caps, set_to_text};
