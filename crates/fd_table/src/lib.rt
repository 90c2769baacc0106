//! The descriptors of processes, and the open descriptions that they share.
#![tactic(auto)]

mod descriptions;
mod fd_slots;
mod fifo;
mod opened;
mod pipes;
mod process_fds;
mod shared;
mod table;
mod taken;
mod uses;

pub use kern_model::NoMemory;
pub use opened::Opened;
pub use pipes::PipeError;
pub use shared::How;
pub use table::{FdError, FdTable};
