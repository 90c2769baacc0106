// Values by their labels.
ghost use Rattle.std.specs.Prelude.{◌≡◌, ◌&&◌, IfOk, IsOk, IsSome, None, OnErr, OnOk, option_copied};
ghost use Rattle.std.specs.Borrow.{sem};
ghost use Rattle.std.specs.FinMap as map;
ghost use Rattle.std.specs.List.{position};
ghost use Rattle.lab_lattice.specs.Label.{dominates, label_cmp};
ghost use Rattle.kern_model.specs.LabelMap.{ArePlaced};
ghost use Rattle.kern_model.specs.declared.label_map.Entry.{Entry};

use crate::NoMemory;
use lab_lattice::{Label, Lattice};
use std::alloc::Global;
use std::collections::BTreeMap;
use std::marker::Model;

// The most labels that are compared one by one.
const FEW: usize = 16;

// A label and what is kept at it.
#[derive(Drop)]
struct Entry<T> {
    label: Label,
    value: T,
}

/// Values by their labels. The label whose value was changed last is found at once.
pub struct LabelMap<T> {
    // In the order in which the labels came.
    entries: Vec<Entry<T>>,
    // Where each label stands.
    places: BTreeMap<Label, usize>,
    // Where the label stands whose value was lent for changes or put in last.
    last: usize,
}

impl<T: Drop> Drop for LabelMap<T> {
    fn drop(self) {
        let LabelMap {
            entries: _,
            places: _,
            last: _,
        } = self;
    }
}

impl<T> Model for LabelMap<T> {
    ghost use Rattle.std.specs.FinMap as map;
    ghost use Rattle.lab_lattice.specs.Label.{label_cmp, label_code};
    ghost use Rattle.kern_model.specs.LabelMap.{ArePlaced, values_in};

    ghost Value = { map.FinMap label_cmp T };

    ghost coded = { map.code label_code T.code };

    ghost view = { λ m. values_in m.entries.items (map.from_entries m.places.entries) };

    ghost invariant = { λ m. ArePlaced m.entries.items (map.from_entries m.places.entries) };
}

impl<T: Drop> LabelMap<T> {
    ghost use Rattle.std.specs.Option.{option_copied_mut};
    ghost use Rattle.kern_model.specs.Lending.{LendsValue};

    /// No value.
    pub fn new(alloc: Global) -> Self
        ensures { result ≡ map.empty }
    {
        LabelMap {
            entries: Vec::new(alloc),
            places: BTreeMap::new(alloc),
            last: 0,
        }
    }

    /// The value at a label, if there is one.
    pub fn get(&self, label: &Label) -> Option<&T>
        ensures { option_copied result ≡ map.get self.now label.now }
    {
        let place = place(&self.entries, &self.places, self.last, label)?;
        Some(&self.entries[place].value)
    }

    /// The value at a label, for changes to it, if there is one.
    pub fn get_mut(&mut self, label: &Label) -> Option<&mut T>
        ensures* writes_back { sem 𝓛 (LendsValue T.row self.entry label.now result) }
        ensures value { option_copied_mut result ≡ map.get self.old label.now }
    {
        let place = place(&self.entries, &self.places, self.last, label)?;
        self.last = place;
        match self.entries.get_mut(place) {
            Some(entry) => Some(&mut entry.value),
            None => None,
        }
    }

    /// Puts a value at a label, in place of one that is there. Where one is there, it takes no memory.
    pub fn insert(&mut self, label: Label, value: T) -> Result<(), NoMemory>
        ensures ok { OnOk result (self.new ≡ map.insert self.old label value) }
        ensures err { OnErr result (self.new ≡ self.old) }
        ensures replaced { IsSome (map.get self.old label) → IsOk result }
    {
        if let Some(kept) = self.get_mut(&label) {
            *kept = value;
            return Ok(());
        }
        self.add(&label, value)
    }

    // Puts a value at a label that has none.
    fn add(&mut self, label: &Label, value: T) -> Result<(), NoMemory>
        requires { map.get self.old label.now ≡ None }
        ensures ok { OnOk result (self.new ≡ map.insert self.old label.now value) }
        ensures err { OnErr result (self.new ≡ self.old) }
    {
        let place = self.entries.len();
        self.entries.reserve(1)?;
        self.places.insert(*label, place)?;
        self.entries.push_reserved(Entry {
            label: *label,
            value,
        });
        self.last = place;
        Ok(())
    }

    /// The labels at which there is a value, in order.
    pub fn labels(&self, alloc: Global) -> Result<Vec<Label>, NoMemory>
        ensures { IfOk result (λ labels. labels.items ≡ map.keys self.now) }
    {
        let labels = self.places.keys().copied().collect(alloc)?;
        Ok(labels)
    }
}

// Where a label stands, if something is kept at it.
#[inline(always)]
fn place<T>(
    entries: &Vec<Entry<T>>,
    places: &BTreeMap<Label, usize>,
    last: usize,
    label: &Label,
) -> Option<usize>
    requires { ArePlaced entries.now.items (map.from_entries places.now.entries) }
    ensures { result ≡ map.get (map.from_entries {R = label_cmp} places.now.entries) label.now }
{
    match entries.get(last) {
        Some(entry) if entry.label.equal(label) => Some(last),
        _ => find(entries, places, label),
    }
}

// The same, by comparing the labels one by one where they are few, and else by their order.
#[inline(never)]
fn find<T>(entries: &Vec<Entry<T>>, places: &BTreeMap<Label, usize>, label: &Label) -> Option<usize>
    requires { ArePlaced entries.now.items (map.from_entries places.now.entries) }
    ensures { result ≡ map.get (map.from_entries {R = label_cmp} places.now.entries) label.now }
{
    if entries.len() <= FEW {
        return position_of(entries.as_slice(), label);
    }
    places.get(label).copied()
}

// The position of a label among entries.
fn position_of<T>(entries: &[Entry<T>], label: &Label) -> Option<usize>
    ensures { result ≡ position (λ (e : Entry T). dominates e.label label.now && dominates label.now e.label) entries.now }
{
    entries.iter().position(|entry| entry.label.equal(label))
}
