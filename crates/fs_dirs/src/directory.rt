// One directory.
ghost use Rattle.std.specs.Prelude.{◌≡◌, ◌-◌, ◌*◌, ◌^◌, ◌<◌, ◌≤◌, IfErr, IfOk, IsOk, IsSome, OnErr, OnOk, length, slice_get};
ghost use Rattle.std.specs.FinMap as map;
ghost use Rattle.fs_dirs.specs.Directory.{AreSorted, IsAt, IsBetween, IsGap, TakesFewSteps};

use crate::head::{Head, is_short};
use crate::slot::Slot;
use crate::tiers::Tiers;
use fs_path::{Name, NameList, NoMemory, Steps};
use kern_model::Oid;
use std::alloc::Global;
use std::cmp::Ordering;
use std::marker::{Brand, Model};
use std::sync::ledger::{Blank, Ledger};

/// One directory: the names in it, sorted by their bytes, and the object to which each leads.
#[derive(Drop)]
pub struct Directory {
    alloc: Global,
    // An entry that comes or goes moves pointers, and not entries.
    entries: Tiers<Slot>,
}

impl Model for Directory {
    ghost use Rattle.std.specs.FinMap as map;
    ghost use Rattle.std.specs.Coded.{codes};
    ghost use Rattle.kern_model.specs.declared.numbers.Oid.{Oid};
    ghost use Rattle.fs_dirs.specs.Directory.{AreSorted, directory_of, name_cmp};
    ghost use Rattle.kern_model.proofs.StateCode.{oid_code};

    ghost Value = { map.FinMap name_cmp Oid };

    ghost coded = { map.code (Prim.hlevel codes) oid_code };

    ghost view = { λ d. directory_of d.entries };

    ghost invariant = { λ d. AreSorted d.entries };
}

impl Directory {
    /// The directory that contains no name. It takes no memory until one is inserted.
    pub fn new(alloc: Global) -> Self
        ensures { result ≡ map.empty }
    {
        Directory {
            alloc,
            entries: Tiers::new(alloc),
        }
    }

    /// How many names it contains.
    pub fn len(&self) -> usize
        ensures { result ≡ map.len self.now }
    {
        self.entries.len()
    }

    /// The object to which a name leads, if it is there. Comparisons of names, or of their heads, count in `steps`.
    pub fn look_counted<L: Ledger>(&self, name: &Name, steps: &mut Steps<L>) -> Option<Oid>
        ensures found { result ≡ map.get self.now name.now }
        ensures counted { TakesFewSteps (map.len self.now) steps.old steps.new }
    {
        match search(&self.entries, name, steps) {
            Ok(place) => Some(self.entries.item(place).entry.id),
            Err(_) => None,
        }
    }

    /// Has a name lead to an object, and returns the one to which it led, if it was there. Then it takes no memory.
    pub fn insert(&mut self, name: Name, id: Oid) -> Result<Option<Oid>, NoMemory>
        ensures inserted { OnOk result (self.new ≡ map.insert self.old name id) }
        ensures found { IfOk result (λ led. led ≡ map.get self.old name) }
        ensures err { OnErr result (self.new ≡ self.old) }
        ensures replaced { IsSome (map.get self.old name) → IsOk result }
    {
        match place_of(&self.entries, &name) {
            Ok(place) => {
                let Some(slot) = self.entries.get_mut(place) else {
                    unreachable!();
                };
                Ok(Some(slot.lead_to(id)))
            }
            Err(place) => {
                let slot = Slot::new(self.alloc, name, id)?;
                self.entries.insert(place, slot)?;
                Ok(None)
            }
        }
    }

    /// Removes a name, if it is there, and returns the object to which it led. It takes no memory.
    pub fn remove(&mut self, name: &Name) -> Option<Oid>
        ensures found { result ≡ map.get self.old name.now }
        ensures removed { self.new ≡ map.remove self.old name.now }
    {
        match place_of(&self.entries, name) {
            Ok(place) => Some(self.entries.remove(place).entry.id),
            Err(_) => None,
        }
    }

    /// The object to which the name at a place in their order leads, if there are so many.
    pub fn object_at(&self, place: usize) -> Option<Oid>
        ensures { result ≡ slice_get (map.values self.now) place }
    {
        match self.entries.get(place) {
            Some(slot) => Some(slot.entry.id),
            None => None,
        }
    }

    /// Copies of the names, in their order.
    pub fn names(&self, alloc: Global) -> Result<NameList, NoMemory>
        ensures { IfOk result (λ names. names ≡ map.keys self.now) }
    {
        let mut names = NameList::new(alloc);
        let entries = &self.entries;
        for place in 0..entries.len() {
            names.push(entries.item(place).entry.name.copy()?)?;
        }
        Ok(names)
    }
}

// Where a name is among sorted entries, or else where it belongs. From the first head on that is that of the name, the names
// themselves are compared, unless the name is short. Each comparison counts in `steps`.
fn search<L: Ledger>(
    entries: &Tiers<Slot>,
    name: &Name,
    steps: &mut Steps<L>,
) -> Result<usize, usize>
    requires { AreSorted entries.now }
    ensures found { IfOk result (IsAt entries.now name.now) }
    ensures absent { IfErr result (IsGap entries.now name.now) }
    ensures counted { TakesFewSteps (length entries.now) steps.old steps.new }
{
    let head = Head::of(name);
    let mut low = 0;
    let mut high = entries.len();
    while low < high {
        let middle = low + (high - low) / 2;
        match entries.item(middle).head.compare(&head, steps) {
            Ordering::Less => low = middle + 1,
            Ordering::Equal if is_short(name) => return Ok(middle),
            Ordering::Equal => return search_by_names(entries, name, low, high, steps),
            Ordering::Greater => high = middle,
        }
    }
    Err(low)
}

// The same between two places, by names alone.
fn search_by_names<L: Ledger>(
    entries: &Tiers<Slot>,
    name: &Name,
    mut from: usize,
    mut to: usize,
    steps: &mut Steps<L>,
) -> Result<usize, usize>
    requires sorted { AreSorted entries.now }
    requires between { IsBetween entries.now name.now from to }
    requires some { from < to }
    ensures found { IfOk result (IsAt entries.now name.now) }
    ensures absent { IfErr result (IsGap entries.now name.now) }
    ensures least { steps.old ≤ steps.new }
    ensures few { 2 ^ (steps.new - steps.old) ≤ 2 * (to - from) }
{
    while from < to {
        let middle = from + (to - from) / 2;
        match entries.item(middle).entry.name.compare(name, steps) {
            Ordering::Less => from = middle + 1,
            Ordering::Equal => return Ok(middle),
            Ordering::Greater => to = middle,
        }
    }
    Err(from)
}

// The same search, with a count of its own.
fn search_from<L: Ledger>(entries: &Tiers<Slot>, name: &Name, blank: Blank) -> Result<usize, usize>
    requires sorted { AreSorted entries.now }
    requires name { blank.name ≡ L.name }
    requires parts { blank.parts ≡ L.parts }
    requires any { 0 < L.parts }
    ensures found { IfOk result (IsAt entries.now name.now) }
    ensures absent { IfErr result (IsGap entries.now name.now) }
{
    let mut steps = Steps::<L>::new(blank);
    search(entries, name, &mut steps)
}

// Where a name is among sorted entries, or else where it belongs.
fn place_of(entries: &Tiers<Slot>, name: &Name) -> Result<usize, usize>
    requires { AreSorted entries.now }
    ensures found { IfOk result (IsAt entries.now name.now) }
    ensures absent { IfErr result (IsGap entries.now name.now) }
{
    search_from::<Brand>(entries, name, Blank::new(1))
}
