// The keys at the numbers of one label.
ghost use Rattle.std.specs.Prelude.{◌≡◌, ◌++◌, [], None, Some, OnErr, OnOk, get_or};
ghost use Rattle.std.specs.Map.{keys_of};
ghost use Rattle.kern_model.specs.LabelLists.{IsSet, entries_from};

use crate::place::Place;
use kern_model::NoMemory;
use lab_lattice::Label;
use std::alloc::Global;
use std::marker::Model;

/// The keys at the numbers of one label, by the counts of their draws.
#[derive(Drop)]
pub struct KeyList {
    keys: Vec<Place>,
}

impl Model for KeyList {
    ghost use Rattle.std.specs.Prelude.{◌≤◌, ◌^◌, ℕ, List, Option, length};

    ghost Value = { List (Option ℕ) };

    ghost view = { λ l. l.keys.items };

    ghost invariant = { λ l. length l.keys.items ≤ 2 ^ 16 };
}

impl KeyList {
    /// No key.
    pub fn new(alloc: Global) -> Self
        ensures { result ≡ [] }
    {
        KeyList {
            keys: Vec::new(alloc),
        }
    }

    /// The key at a count, if there is one.
    pub fn get(&self, n: u16) -> Option<u32>
        ensures { result ≡ get_or self.now n None }
    {
        self.keys.get(n as usize)?.key()
    }

    /// Puts a key at a count, in place of one that is there.
    pub fn set(&mut self, n: u16, key: u32) -> Result<(), NoMemory>
        ensures ok { OnOk result (IsSet None self.old n (Some key) self.new) }
        ensures err { OnErr result (self.new ≡ self.old) }
    {
        let place = Place::try_from(key)?;
        let index = n as usize;
        if index >= self.keys.len() {
            self.keys.resize(index + 1, Place::none())?;
        }
        self.keys[index] = place;
        Ok(())
    }

    /// Removes the key at a count, if there is one, and returns it. It takes no memory.
    pub fn remove(&mut self, n: u16) -> Option<u32>
        ensures removed { result ≡ get_or self.old n None }
        ensures left { IsSet None self.old n None self.new }
    {
        self.keys.get_mut(n as usize)?.take()
    }

    /// Appends the numbers at which there is a key, in order.
    pub fn add_numbers(
        &self,
        label: &Label,
        numbers: &mut Vec<(Label, u16)>,
    ) -> Result<(), NoMemory>
        ensures { OnOk result (numbers.new.items ≡ numbers.old.items ++ keys_of (entries_from label.now 0 self.now)) }
    {
        for place in 0..self.keys.len() {
            if self.keys[place].key().is_some() {
                numbers.push((*label, place as u16))?;
            }
        }
        Ok(())
    }
}
