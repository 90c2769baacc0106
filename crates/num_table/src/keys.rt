// The keys at numbers that are drawn in turn.
ghost use Rattle.std.specs.Prelude.{◌≡◌, IfOk, OnErr, OnOk};
ghost use Rattle.std.specs.FinMap as map;

use crate::key_list::KeyList;
use kern_model::{LabelMap, NoMemory};
use lab_lattice::Label;
use std::alloc::Global;
use std::marker::Model;

/// Keys by numbers that are drawn in turn at each label, seen as a finite map. A list never shrinks: where a key is removed,
/// its place stays.
pub struct Keys {
    alloc: Global,
    by_label: LabelMap<KeyList>,
}

impl Drop for Keys {
    fn drop(self) {
        let Keys {
            alloc: _,
            by_label: _,
        } = self;
    }
}

impl Model for Keys {
    ghost use Rattle.std.specs.Prelude.{ℕ};
    ghost use Rattle.std.specs.FinMap as map;
    ghost use Rattle.std.specs.Coded.{coded×, coded_ℕ};
    ghost use Rattle.lab_lattice.specs.Label.{label_code};
    ghost use Rattle.kern_model.specs.Numbers.{num_cmp};
    ghost use Rattle.kern_model.specs.LabelLists.{items_in};

    ghost Value = { map.FinMap num_cmp ℕ };

    ghost coded = { map.code (coded× label_code coded_ℕ) coded_ℕ };

    ghost view = { λ k. items_in k.by_label };
}

impl Keys {
    /// No key.
    pub fn new(alloc: Global) -> Self
        ensures { result ≡ map.empty }
    {
        Keys {
            alloc,
            by_label: LabelMap::new(alloc),
        }
    }

    /// The key at a number, if there is one.
    pub fn get(&self, label: &Label, n: u16) -> Option<u32>
        ensures { result ≡ map.get self.now (label.now, n) }
    {
        self.by_label.get(label)?.get(n)
    }

    /// The key at a number, if there is one. The next call finds the same label at once.
    pub fn find(&mut self, label: &Label, n: u16) -> Option<u32>
        ensures key { result ≡ map.get self.old (label.now, n) }
        ensures same { self.new ≡ self.old }
    {
        self.by_label.get_mut(label)?.get(n)
    }

    /// Puts a key at a number, in place of one that is there.
    pub fn set(&mut self, label: &Label, n: u16, key: u32) -> Result<(), NoMemory>
        ensures ok { OnOk result (self.new ≡ map.insert self.old (label.now, n) key) }
        ensures err { OnErr result (self.new ≡ self.old) }
    {
        if let Some(list) = self.by_label.get_mut(label) {
            return list.set(n, key);
        }
        let mut list = KeyList::new(self.alloc);
        list.set(n, key)?;
        self.by_label.insert(*label, list)?;
        Ok(())
    }

    /// Removes the key at a number, if there is one, and returns it. It takes no memory.
    pub fn remove(&mut self, label: &Label, n: u16) -> Option<u32>
        ensures removed { result ≡ map.get self.old (label.now, n) }
        ensures left { self.new ≡ map.remove self.old (label.now, n) }
    {
        self.by_label.get_mut(label)?.remove(n)
    }

    /// The numbers at which there is a key, in order.
    pub fn numbers(&self, alloc: Global) -> Result<Vec<(Label, u16)>, NoMemory>
        ensures { IfOk result (λ numbers. numbers.items ≡ map.keys self.now) }
    {
        let mut numbers = Vec::new(alloc);
        let labels = self.by_label.labels(alloc)?;
        for label in labels.iter() {
            if let Some(list) = self.by_label.get(label) {
                list.add_numbers(label, &mut numbers)?;
            }
        }
        Ok(numbers)
    }
}
