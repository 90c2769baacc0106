// Where objects are in the slab, and which numbers are drawn.
ghost use Rattle.std.specs.Prelude.{◌≡◌, ◌+◌, ◌<◌, Some, OnErr, OnOk, nat_lt};
ghost use Rattle.kern_model.specs.State.{last_drawn};
ghost use Rattle.kern_model.specs.declared.limits.TheConstants.{MAX_OBJECTS};
ghost use Rattle.kern_model.specs.Valid.{IsThere};
ghost use Rattle.fs_nodes.specs.Nodes.{with_key};
ghost use Rattle.std.specs.FinMap as map;

use crate::object_keys::ObjectKeys;
use fs_path::NoMemory;
use kern_model::limits::MAX_OBJECTS;
use kern_model::{LabelMap, Oid};
use lab_lattice::Label;
use std::alloc::Global;
use std::marker::Model;

/// The key in the slab of each object, and the last number drawn of each label.
pub struct Index {
    alloc: Global,
    // No object is ever removed, so that each number drawn has a key.
    by_label: LabelMap<ObjectKeys>,
}

impl Drop for Index {
    fn drop(self) {
        let Index {
            alloc: _,
            by_label: _,
        } = self;
    }
}

impl Model for Index {
    ghost use Rattle.lab_lattice.specs.Label.{label_code};
    ghost use Rattle.fs_nodes.specs.Nodes.{NodeKeys, keys_code};
    ghost use Rattle.fs_nodes.specs.Keys.{keys_in, numbers_in};
    ghost use Rattle.kern_model.proofs.StateCode.{oid_code};

    ghost Value = { NodeKeys };

    ghost coded = { keys_code oid_code label_code };

    ghost view = { λ x. record { keys = keys_in x.by_label; numbers = numbers_in x.by_label } };
}

impl Index {
    /// An index without objects.
    pub fn new(alloc: Global) -> Self
        ensures keys { result.keys ≡ map.empty }
        ensures numbers { result.numbers ≡ map.empty }
    {
        Index {
            alloc,
            by_label: LabelMap::new(alloc),
        }
    }

    /// The key of an object, if there is one.
    pub fn get(&self, id: &Oid) -> Option<usize>
        ensures { result ≡ map.get self.now.keys id.now }
    {
        let key = self.by_label.get(&id.label)?.get(id.n)?;
        Some(key as usize)
    }

    /// The key of an object that is there.
    pub fn place(&self, id: &Oid) -> usize
        requires { IsThere self.now.keys id.now }
        ensures { map.get self.now.keys id.now ≡ Some result }
    {
        self.get(id).unwrap_or(0)
    }

    // The last number drawn of a label, or 0 before the first.
    fn last(&self, label: &Label) -> u16
        ensures { result ≡ last_drawn self.now.numbers label.now }
    {
        match self.by_label.get(label) {
            Some(keys) => keys.last(),
            None => 0,
        }
    }

    /// Whether a number of a label is left.
    pub fn has_next(&self, label: &Label) -> bool
        ensures { result ≡ nat_lt (last_drawn self.now.numbers label.now) MAX_OBJECTS }
    {
        usize::from(self.last(label)) < MAX_OBJECTS
    }

    /// The number of the next object at a label of which a number is left.
    pub fn next(&self, label: &Label) -> Oid
        requires { last_drawn self.now.numbers label.now < MAX_OBJECTS }
        ensures { result ≡ record { label = label.now; n = last_drawn self.now.numbers label.now + 1 } }
    {
        let n = self.last(label) + 1;
        Oid { label: *label, n }
    }

    /// Enters a new object under the next number, which is the last one drawn from then on.
    pub fn enter(&mut self, id: &Oid, key: usize) -> Result<(), NoMemory>
        requires next { id.now.n ≡ last_drawn self.old.numbers id.now.label + 1 }
        requires left { last_drawn self.old.numbers id.now.label < MAX_OBJECTS }
        ensures ok { OnOk result (self.new ≡ with_key self.old id.now key) }
        ensures err { OnErr result (self.new ≡ self.old) }
    {
        // A key past those of 32 bits is out of memory.
        if key > u32::MAX as usize {
            return Err(NoMemory);
        }
        let key = key as u32;
        if let Some(keys) = self.by_label.get_mut(&id.label) {
            return keys.push(key);
        }
        let mut keys = ObjectKeys::new(self.alloc);
        keys.push(key)?;
        self.by_label.insert(id.label, keys)?;
        Ok(())
    }
}
