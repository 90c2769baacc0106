// Words: bytes of their own.
ghost use Rattle.std.specs.Prelude.{◌≡◌, IfOk};

use crate::NoMemory;
use std::alloc::Global;
use std::marker::Model;

/// Any bytes, seen as the list of them.
#[derive(Debug)]
pub struct Word {
    kept: Vec<u8>,
}

impl Drop for Word {
    fn drop(self) {
        let Word { kept: _ } = self;
    }
}

impl Model for Word {
    ghost use Rattle.std.specs.Prelude.{List, ℕ};

    ghost Value = { List ℕ };

    ghost view = { λ w. w.kept.items };
}

impl Word {
    /// A word of these bytes.
    pub fn new(alloc: Global, bytes: &[u8]) -> Result<Word, NoMemory>
        ensures { IfOk result (λ word. word ≡ bytes.now) }
    {
        let kept = Vec::from_slice(alloc, bytes)?;
        Ok(Word { kept })
    }

    /// Its bytes.
    pub fn bytes(&self) -> &[u8]
        ensures { result.now ≡ self.now }
    {
        self.kept.as_slice()
    }
}
