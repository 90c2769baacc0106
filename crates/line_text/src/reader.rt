// Words that worlds, scripts and records read alike.
ghost use Rattle.std.specs.Prelude.{◌≡◌, IfOk};
ghost use Rattle.line_text.specs.Reading.{path_of, choice};

use crate::NoMemory;
use fs_path::{Path, PathError};
use std::alloc::Global;

/// The path that a word denotes, if it denotes one.
pub fn path_of(alloc: Global, word: &[u8]) -> Result<Option<Path>, NoMemory>
    ensures { IfOk result (λ path. path ≡ path_of word.now) }
{
    match Path::read(alloc, word) {
        Ok(path) => Ok(Some(path)),
        Err(PathError::NoMemory(e)) => Err(e),
        Err(_) => Ok(None),
    }
}

/// Whether a word is the first of two, if it is one of them.
#[tactic(auto, unfolding(crate::specs::Reading::choice))]
pub fn choice(first: &[u8], other: &[u8], word: &[u8]) -> Option<bool>
    ensures { result ≡ choice first.now other.now word.now }
{
    if word == first {
        return Some(true);
    }
    if word == other {
        return Some(false);
    }
    None
}
