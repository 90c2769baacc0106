// Values by numbers that are drawn in turn.
ghost use Rattle.std.specs.Prelude.{◌≡◌, None, IfOk, IsOk, IsSome, OnErr, OnOk, option_copied};
ghost use Rattle.std.specs.Borrow.{sem};
ghost use Rattle.std.specs.FinMap as map;

use crate::keys::Keys;
use crate::number::Number;
use kern_model::NoMemory;
use lab_lattice::Label;
use slab::Slab;
use std::alloc::Global;
use std::marker::Model;

/// Values by numbers that are drawn in turn at each label, seen as a finite map. A list never shrinks: where a value is removed,
/// its place stays. Its slot in the slab goes to the next value.
pub struct Table<T> {
    slots: Slab<T>,
    // Where each value is in the slab.
    keys: Keys,
}

impl<T: Drop> Drop for Table<T> {
    fn drop(self) {
        let Table { slots: _, keys: _ } = self;
    }
}

impl<T> Model for Table<T> {
    ghost use Rattle.std.specs.FinMap as map;
    ghost use Rattle.std.specs.Coded.{coded×, coded_ℕ};
    ghost use Rattle.lab_lattice.specs.Label.{label_code};
    ghost use Rattle.kern_model.specs.Numbers.{num_cmp};
    ghost use Rattle.num_table.specs.Slots.{IsPlaced, values_in};

    ghost Value = { map.FinMap num_cmp T };

    ghost coded = { map.code (coded× label_code coded_ℕ) T.code };

    ghost view = { λ t. values_in t.slots t.keys };

    ghost invariant = { λ t. IsPlaced t.slots t.keys };
}

impl<T: Drop> Table<T> {
    ghost use Rattle.std.specs.Option.{option_copied_mut};
    ghost use Rattle.kern_model.specs.ByNumber.{by_number};
    ghost use Rattle.num_table.specs.Lending.{LendsAt, LendsItem};

    /// No value.
    pub fn new(alloc: Global) -> Self
        ensures { result ≡ map.empty }
    {
        Table {
            slots: Slab::new(alloc),
            keys: Keys::new(alloc),
        }
    }

    // The value at a label and a count, if there is one.
    fn get(&self, label: &Label, n: u16) -> Option<&T>
        ensures { option_copied result ≡ map.get self.now (label.now, n) }
    {
        let key = self.keys.get(label, n)?;
        self.slots.get(key as usize)
    }

    // The value at a label and a count, for changes to it, if there is one.
    fn get_mut(&mut self, label: &Label, n: u16) -> Option<&mut T>
        ensures* writes_back { sem 𝓛 (LendsItem T.row self.entry (label.now, n) result) }
        ensures value { option_copied_mut result ≡ map.get self.old (label.now, n) }
    {
        let key = self.keys.find(label, n)?;
        self.slots.get_mut(key as usize)
    }

    // Puts a value at a label and a count, in place of one that is there. Where one is there, it takes no memory.
    fn set(&mut self, label: &Label, n: u16, item: T) -> Result<(), NoMemory>
        ensures ok { OnOk result (self.new ≡ map.insert self.old (label.now, n) item) }
        ensures err { OnErr result (self.new ≡ self.old) }
        ensures replaced { IsSome (map.get self.old (label.now, n)) → IsOk result }
    {
        if let Some(place) = self.get_mut(label, n) {
            *place = item;
            return Ok(());
        }
        self.add(label, n, item)
    }

    // Puts a value at a label and a count that have none.
    fn add(&mut self, label: &Label, n: u16, item: T) -> Result<(), NoMemory>
        requires { map.get self.old (label.now, n) ≡ None }
        ensures ok { OnOk result (self.new ≡ map.insert self.old (label.now, n) item) }
        ensures err { OnErr result (self.new ≡ self.old) }
    {
        self.slots.reserve(1)?;
        let key = self.slots.vacant_key();
        // A key past those of 32 bits is out of memory.
        if key > u32::MAX as usize {
            return Err(NoMemory);
        }
        self.keys.set(label, n, key as u32)?;
        self.slots.insert_reserved(item);
        Ok(())
    }

    // Removes the value at a label and a count, if there is one, and returns it. It takes no memory.
    fn remove(&mut self, label: &Label, n: u16) -> Option<T>
        ensures removed { result ≡ map.get self.old (label.now, n) }
        ensures left { self.new ≡ map.remove self.old (label.now, n) }
    {
        let key = self.keys.remove(label, n)?;
        Some(self.slots.remove(key as usize))
    }

    /// The labels and counts of the numbers at which there is a value, in order.
    pub fn numbers(&self, alloc: Global) -> Result<Vec<(Label, u16)>, NoMemory>
        ensures { IfOk result (λ numbers. numbers.items ≡ map.keys self.now) }
    {
        self.keys.numbers(alloc)
    }

    /// The value at a number, if there is one.
    #[inline(always)]
    pub fn get_at<K: Number>(&self, number: &K) -> Option<&T>
        ensures { option_copied result ≡ map.get (by_number {R = K.order} K.of_parts self.now) number.now }
    {
        self.get(number.label(), number.count())
    }

    /// The value at a number, for changes to it, if there is one.
    #[inline(always)]
    pub fn get_mut_at<K: Number>(&mut self, number: &K) -> Option<&mut T>
        ensures* writes_back { sem 𝓛 (LendsAt K.order K.of_parts T.row self.entry number.now result) }
        ensures value { option_copied_mut result ≡ map.get (by_number {R = K.order} K.of_parts self.old) number.now }
    {
        self.get_mut(number.label(), number.count())
    }

    /// Puts a value at a number, in place of one that is there. Where one is there, it takes no memory.
    #[inline(always)]
    pub fn set_at<K: Number>(&mut self, number: &K, item: T) -> Result<(), NoMemory>
        ensures ok { OnOk result (by_number {R = K.order} K.of_parts self.new ≡ map.insert (by_number K.of_parts self.old) number.now item) }
        ensures err { OnErr result (self.new ≡ self.old) }
        ensures replaced { IsSome (map.get (by_number {R = K.order} K.of_parts self.old) number.now) → IsOk result }
    {
        self.set(number.label(), number.count(), item)
    }

    /// Removes the value at a number, if there is one, and returns it. It takes no memory.
    #[inline(always)]
    pub fn remove_at<K: Number>(&mut self, number: &K) -> Option<T>
        ensures removed { result ≡ map.get (by_number {R = K.order} K.of_parts self.old) number.now }
        ensures left { by_number {R = K.order} K.of_parts self.new ≡ map.remove (by_number K.of_parts self.old) number.now }
    {
        self.remove(number.label(), number.count())
    }
}
