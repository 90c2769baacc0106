//! The reading of trails: a whole trail, selections of its records, their JSON, and whether they can follow one another.
#![tactic(auto)]

mod lineage;
mod members;
mod object;
mod select;
mod term;
mod trail;

pub use lineage::{Lineage, Why, check_lineage};
pub use members::{json_text, rec_json};
pub use select::{Select, SelectError};
pub use std::alloc::AllocError as NoMemory;
pub use trail::{Trail, TrailError, header_lines};
