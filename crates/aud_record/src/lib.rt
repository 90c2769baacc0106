//! The texts of the audit trail: its header, and a line for each record.
#![tactic(auto)]

mod canonical;
mod event;
mod fault;
mod fields;
mod forms;
mod header;
mod reading;
mod words;
mod written;

pub use event::{Event, who};
pub use header::{Header, HeaderError, header_read, header_text};
pub use reading::{ReadRec, RecError, rec_read};
pub use std::alloc::AllocError as NoMemory;
pub use written::rec_text;
