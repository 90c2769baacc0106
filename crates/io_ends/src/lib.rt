//! Sources of bytes and sinks for them, the ends of a program, each with a count of its faults.
//!
//! Code over a [`Source`] or a [`Sink`] is proved from the clauses of these traits alone, so it holds
//! over every end. The ends in memory and those that never fail are proved to the byte. What the
//! system does at a call of a [`FileSource`] or a [`FileSink`] is trusted. [`Lines`] reads a source line by line.
#![tactic(auto)]

mod buffer;
mod ends;
mod files;
mod lines;
mod list;
mod memory;
mod sure;
mod whole;

pub use ends::{Failed, Sink, Source, count_fault};
pub use files::{FileSink, FileSource};
pub use lines::{Lines, Next};
pub use list::ByteList;
pub use memory::{MemSink, MemSource, copy_prefix};
pub use std::alloc::AllocError as NoMemory;
pub use sure::{SureSink, SureSource};
pub use whole::{ReadError, Whole, read_whole, write_whole};

#[cfg(test)]
mod tests;
