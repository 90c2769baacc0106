//! Names and paths of the file tree, the words of lines, and the lists that the crates above keep.
#![tactic(auto)]

mod list;
mod name;
mod path;
mod split;
mod steps;
mod values;
mod words;

pub use list::{ByteList, List};
pub use name::Name;
pub use path::{NameList, Path, PathError};
pub use split::{first_piece, next_line, split_once};
pub use std::alloc::AllocError as NoMemory;
pub use steps::Steps;
pub use values::{
    MAX_MODE, STICKY, groups_of, is_mode, mode_of, number_of, numeral, put_groups, put_mode,
    put_number,
};
pub use words::{LineWord, MAX_LINE, WordBytes, is_blank, put_quoted, put_word, words_of};
