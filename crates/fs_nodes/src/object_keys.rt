// The keys of the objects of one label.
ghost use Rattle.std.specs.Prelude.{◌≡◌, ◌<◌, ◌++◌, ◌∷◌, [], None, OnErr, OnOk, get_or, length};
ghost use Rattle.kern_model.specs.declared.limits.TheConstants.{MAX_OBJECTS};
ghost use Rattle.fs_nodes.specs.Keys.{from_one};

use fs_path::NoMemory;
use std::alloc::Global;
use std::marker::Model;

/// The keys of the objects of one label, in the order in which their numbers were drawn.
#[derive(Drop)]
pub struct ObjectKeys {
    keys: Vec<u32>,
}

impl Model for ObjectKeys {
    ghost use Rattle.std.specs.Prelude.{◌≤◌, ℕ, List, length};
    ghost use Rattle.kern_model.specs.declared.limits.TheConstants.{MAX_OBJECTS};

    ghost Value = { List ℕ };

    ghost view = { λ k. k.keys.items };

    ghost invariant = { λ k. length k.keys.items ≤ MAX_OBJECTS };
}

impl ObjectKeys {
    /// No key.
    pub fn new(alloc: Global) -> Self
        ensures { result ≡ [] }
    {
        ObjectKeys {
            keys: Vec::new(alloc),
        }
    }

    /// The last number drawn, or 0 before the first.
    pub fn last(&self) -> u16
        ensures { result ≡ length self.now }
    {
        self.keys.len() as u16
    }

    /// The key at a number, if it is drawn.
    pub fn get(&self, n: u16) -> Option<u32>
        ensures { result ≡ get_or (from_one self.now) n None }
    {
        let place = (n as usize).checked_sub(1)?;
        self.keys.get(place).copied()
    }

    /// Appends the key at the next number.
    pub fn push(&mut self, key: u32) -> Result<(), NoMemory>
        requires { length self.old < MAX_OBJECTS }
        ensures ok { OnOk result (self.new ≡ self.old ++ key ∷ []) }
        ensures err { OnErr result (self.new ≡ self.old) }
    {
        self.keys.push(key)?;
        Ok(())
    }
}
