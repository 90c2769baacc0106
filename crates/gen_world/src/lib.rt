//! The generated input of a number of lines: one fixed world, and calls that a linear congruential generator draws.
#![tactic(auto)]

mod call;
mod generator;

pub use generator::{Generator, MAX_LINES, gen_text};
pub use std::alloc::AllocError as NoMemory;
