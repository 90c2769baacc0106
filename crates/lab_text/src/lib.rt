//! The texts of labels, by the names that a world gives to levels, categories and grades.
#![tactic(auto)]

mod lists;
mod names;
mod numbered;
mod policy;
mod scan;
mod text;
mod word;

pub use lists::NameList;
pub use numbered::put_numbered;
pub use policy::{Policy, PolicyError, PolicyNames, are_label_names, bottom, mac_valid, top};
pub use std::alloc::AllocError as NoMemory;
pub use text::{LabelError, mac_from_text, mac_to_text, put_label};
pub use word::Word;
