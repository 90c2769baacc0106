//! Values by numbers that are drawn in turn: a list for each label, with a place for each count of a draw.
#![tactic(auto)]

mod key_list;
mod keys;
mod number;
mod place;
mod table;

pub use kern_model::NoMemory;
pub use number::Number;
pub use table::Table;
