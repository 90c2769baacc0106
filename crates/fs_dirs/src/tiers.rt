// A list whose insertions and removals move few of its items.
ghost use Rattle.std.specs.Prelude.{◌≡◌, ◌+◌, ◌-◌, ◌<◌, ◌≤◌, ◌↔◌, HoldsAt, IfSome, IsSome, OnErr, OnOk, [], length, slice_index_or};
ghost use Rattle.std.specs.List.{insert, remove};
ghost use Rattle.std.specs.Slice.{IsItemAt};
ghost use Rattle.fs_dirs.specs.Tiers.{AreTiers, HasSpare, IsIndexOf, all_items, first_size, items_before};

use fs_path::NoMemory;
use std::alloc::Global;
use std::collections::VecDeque;
use std::marker::Model;

// How many items are in each tier but the first and the last.
const TIER: usize = 1_024;

/// A list in tiers, each full but the first and the last. Where an item comes or goes, items move within one tier, and one
/// item moves from each tier between it and the nearer end of the list.
pub struct Tiers<T> {
    alloc: Global,
    len: usize,
    // How many items the first tier has.
    first: usize,
    tiers: Vec<VecDeque<T>>,
}

impl<T: Drop> Drop for Tiers<T> {
    fn drop(self) {
        let Tiers {
            alloc: _,
            len: _,
            first: _,
            tiers: _,
        } = self;
    }
}

impl<T> Model for Tiers<T> {
    ghost use Rattle.std.specs.Prelude.{List};
    ghost use Rattle.fs_dirs.specs.Tiers.{AreTiersOf, all_items};

    ghost Value = { List T };

    ghost view = { λ t. all_items t.tiers.items };

    ghost invariant = { λ t. AreTiersOf t.tiers.items t.len t.first };
}

impl<T: Drop> Tiers<T> {
    ghost use Rattle.std.specs.Borrow.{sem};
    ghost use Rattle.fs_dirs.specs.Lending.{LendsItem};

    /// The empty list. It takes no memory until an item is inserted.
    pub fn new(alloc: Global) -> Self
        ensures { result ≡ [] }
    {
        Tiers {
            alloc,
            len: 0,
            first: 0,
            tiers: Vec::new(alloc),
        }
    }

    /// How many items there are.
    pub fn len(&self) -> usize
        ensures { result ≡ length self.now }
    {
        self.len
    }

    /// The item at a place.
    #[inline(always)]
    pub fn item(&self, place: usize) -> &T
        requires { place < length self.now }
        ensures { result.now ≡ slice_index_or self.now place result.now }
    {
        let (tier, index) = locate(self.first, place);
        &self.tiers[tier][index]
    }

    /// The item at a place, if there are so many.
    pub fn get(&self, place: usize) -> Option<&T>
        ensures { IsItemAt self.now place result }
    {
        if self.len <= place {
            return None;
        }
        Some(self.item(place))
    }

    /// The item at a place, for changes to it, if there are so many.
    pub fn get_mut(&mut self, place: usize) -> Option<&mut T>
        ensures* writes_back { sem 𝓛 (LendsItem T.row self.entry place result) }
        ensures variant { IsSome result ↔ (place < length self.old) }
        ensures value { IfSome result (λ item. item.now ≡ slice_index_or self.old place item.now) }
    {
        let (tier, index) = locate(self.first, place);
        match self.tiers.get_mut(tier) {
            Some(tier) => tier.get_mut(index),
            None => None,
        }
    }

    /// Inserts an item at a place. Where there is no memory, the list stays as it was.
    pub fn insert(&mut self, place: usize, item: T) -> Result<(), NoMemory>
        requires { place ≤ length self.old }
        ensures ok { OnOk result (self.new ≡ insert self.old place item) }
        ensures err { OnErr result (self.new ≡ self.old) }
    {
        let Some(len) = self.len.checked_add(1) else {
            return Err(NoMemory);
        };
        insert_item(&mut self.tiers, self.alloc, self.len, place, item)?;
        self.first = first_len(&self.tiers);
        self.len = len;
        Ok(())
    }

    /// Removes the item at a place, and returns it. It takes no memory.
    pub fn remove(&mut self, place: usize) -> T
        requires { place < length self.old }
        ensures value { result ≡ slice_index_or self.old place result }
        ensures left { self.new ≡ remove self.old place }
    {
        let (tier, index) = locate(self.first, place);
        let item = take_out(&mut self.tiers, tier, index);
        close_up(&mut self.tiers, tier, place < self.len / 2);
        self.first = first_len(&self.tiers);
        self.len -= 1;
        item
    }
}

// The tier of a place, and its index there, where the first tier has so many items.
#[inline(always)]
fn locate(first: usize, place: usize) -> (usize, usize)
    ensures { IsIndexOf first place result.0 result.1 }
{
    if place < first {
        return (0, place);
    }
    let past = place - first;
    (past / TIER + 1, past % TIER)
}

// How many items the first tier has, if there is one.
fn first_len<T>(tiers: &Vec<VecDeque<T>>) -> usize
    ensures { result ≡ first_size tiers.now.items }
{
    if tiers.is_empty() {
        return 0;
    }
    tiers[0].len()
}

// Inserts an item. Room for it is made at the nearer end, and in a list shorter than a full tier at the front.
fn insert_item<T: Drop>(
    tiers: &mut Vec<VecDeque<T>>,
    alloc: Global,
    len: usize,
    place: usize,
    item: T,
) -> Result<(), NoMemory>
    requires tiers { AreTiers tiers.old.items }
    requires total { len ≡ length (all_items tiers.old.items) }
    requires within { place ≤ len }
    ensures tiers { AreTiers tiers.new.items }
    ensures ok { OnOk result (all_items tiers.new.items ≡ insert (all_items tiers.old.items) place item) }
    ensures err { OnErr result (all_items tiers.new.items ≡ all_items tiers.old.items) }
    ensures front { OnErr result (first_size tiers.new.items ≡ first_size tiers.old.items) }
{
    if len < TIER || place < len / 2 {
        return insert_from_front(tiers, alloc, place, item);
    }
    insert_from_back(tiers, alloc, place, item)
}

// Inserts an item, for which room is made in the first tier.
fn insert_from_front<T: Drop>(
    tiers: &mut Vec<VecDeque<T>>,
    alloc: Global,
    place: usize,
    item: T,
) -> Result<(), NoMemory>
    requires tiers { AreTiers tiers.old.items }
    requires within { place ≤ length (all_items tiers.old.items) }
    ensures tiers { AreTiers tiers.new.items }
    ensures ok { OnOk result (all_items tiers.new.items ≡ insert (all_items tiers.old.items) place item) }
    ensures err { OnErr result (all_items tiers.new.items ≡ all_items tiers.old.items) }
    ensures front { OnErr result (first_size tiers.new.items ≡ first_size tiers.old.items) }
{
    grow_at_front(tiers, alloc)?;
    let (tier, index) = locate(first_len(tiers) + 1, place);
    spare_to_back(tiers, 0, tier);
    put(tiers, tier, index, item);
    Ok(())
}

// Inserts an item, for which room is made in the last tier. There are as many items as a full tier has.
fn insert_from_back<T: Drop>(
    tiers: &mut Vec<VecDeque<T>>,
    alloc: Global,
    place: usize,
    item: T,
) -> Result<(), NoMemory>
    requires tiers { AreTiers tiers.old.items }
    requires many { TIER ≤ length (all_items tiers.old.items) }
    requires within { place ≤ length (all_items tiers.old.items) }
    ensures tiers { AreTiers tiers.new.items }
    ensures ok { OnOk result (all_items tiers.new.items ≡ insert (all_items tiers.old.items) place item) }
    ensures err { OnErr result (all_items tiers.new.items ≡ all_items tiers.old.items) }
    ensures front { OnErr result (first_size tiers.new.items ≡ first_size tiers.old.items) }
{
    grow_at_back(tiers, alloc)?;
    let (tier, index) = locate(first_len(tiers), place);
    let last = tiers.len() - 1;
    spare_to_front(tiers, last, tier);
    put(tiers, tier, index, item);
    Ok(())
}

// Reserves a place for an item in the first tier, or in a new one where the first is full.
fn grow_at_front<T: Drop>(tiers: &mut Vec<VecDeque<T>>, alloc: Global) -> Result<(), NoMemory>
    requires { AreTiers tiers.old.items }
    ensures same { all_items tiers.new.items ≡ all_items tiers.old.items }
    ensures ok { OnOk result (HasSpare tiers.new.items 0) }
    ensures err { OnErr result (AreTiers tiers.new.items) }
    ensures front { OnErr result (first_size tiers.new.items ≡ first_size tiers.old.items) }
{
    if !tiers.is_empty() && tiers[0].len() < TIER {
        tiers[0].reserve(1)?;
        return Ok(());
    }
    let mut tier = VecDeque::new(alloc);
    tier.reserve(1)?;
    // Most directories need one tier.
    tiers.reserve_exact(1)?;
    tiers.insert(0, tier)?;
    Ok(())
}

// Reserves a place for an item in the last tier, or in a new one where the last is full.
fn grow_at_back<T: Drop>(tiers: &mut Vec<VecDeque<T>>, alloc: Global) -> Result<(), NoMemory>
    requires { AreTiers tiers.old.items }
    ensures same { all_items tiers.new.items ≡ all_items tiers.old.items }
    ensures ok { OnOk result (HasSpare tiers.new.items (length tiers.new.items - 1)) }
    ensures err { OnErr result (AreTiers tiers.new.items) }
    ensures front { OnErr result (first_size tiers.new.items ≡ first_size tiers.old.items) }
{
    let count = tiers.len();
    if count > 0 && tiers[count - 1].len() < TIER {
        tiers[count - 1].reserve(1)?;
        return Ok(());
    }
    let mut tier = VecDeque::new(alloc);
    tier.reserve(1)?;
    tiers.reserve_exact(1)?;
    tiers.push(tier)?;
    Ok(())
}

// Moves the last item of a tier to the front of the next, which has a spare place.
fn pass_on<T>(tiers: &mut Vec<VecDeque<T>>, tier: usize)
    requires { HasSpare tiers.old.items (tier + 1) }
    ensures same { all_items tiers.new.items ≡ all_items tiers.old.items }
    ensures spare { HasSpare tiers.new.items tier }
    ensures first { tier ≡ 0 → first_size tiers.new.items + 1 ≡ first_size tiers.old.items }
    ensures later { 0 < tier → first_size tiers.new.items ≡ first_size tiers.old.items }
{
    let item = tiers[tier].pop_back().unwrap();
    tiers[tier + 1].push_front_reserved(item);
}

// Moves the first item of the next tier to the end of this one, which has a spare place.
fn pull_in<T>(tiers: &mut Vec<VecDeque<T>>, tier: usize)
    requires next { tier + 1 < length tiers.old.items }
    requires spare { HasSpare tiers.old.items tier }
    ensures same { all_items tiers.new.items ≡ all_items tiers.old.items }
    ensures length { length tiers.new.items ≡ length tiers.old.items }
    ensures spare { HasSpare tiers.new.items (tier + 1) }
    ensures first { tier ≡ 0 → first_size tiers.new.items ≡ first_size tiers.old.items + 1 }
    ensures later { 0 < tier → first_size tiers.new.items ≡ first_size tiers.old.items }
{
    let item = tiers[tier + 1].pop_front().unwrap();
    tiers[tier].push_back_reserved(item);
}

// Moves the spare place to a tier nearer the front, or leaves it.
fn spare_to_front<T>(tiers: &mut Vec<VecDeque<T>>, from: usize, to: usize)
    requires order { to ≤ from }
    requires spare { HasSpare tiers.old.items from }
    ensures same { all_items tiers.new.items ≡ all_items tiers.old.items }
    ensures spare { HasSpare tiers.new.items to }
    ensures first { to ≡ 0 → first_size tiers.old.items ≤ first_size tiers.new.items + 1 }
    ensures later { 0 < to → first_size tiers.new.items ≡ first_size tiers.old.items }
{
    let mut at = from;
    while to < at {
        at -= 1;
        pass_on(tiers, at);
    }
}

// Moves the spare place to a tier nearer the back, or leaves it.
fn spare_to_back<T>(tiers: &mut Vec<VecDeque<T>>, from: usize, to: usize)
    requires order { from ≤ to }
    requires within { to < length tiers.old.items }
    requires spare { HasSpare tiers.old.items from }
    ensures same { all_items tiers.new.items ≡ all_items tiers.old.items }
    ensures length { length tiers.new.items ≡ length tiers.old.items }
    ensures spare { HasSpare tiers.new.items to }
    ensures first { from ≡ 0 → 0 < to → first_size tiers.new.items ≡ first_size tiers.old.items + 1 }
    ensures none { to ≡ 0 → first_size tiers.new.items ≡ first_size tiers.old.items }
{
    let mut at = from;
    while at < to {
        pull_in(tiers, at);
        at += 1;
    }
}

// Inserts an item into a tier that has a spare place.
fn put<T: Drop>(tiers: &mut Vec<VecDeque<T>>, tier: usize, index: usize, item: T)
    requires spare { HasSpare tiers.old.items tier }
    requires within { HoldsAt (λ t. index ≤ length t.items) tiers.old.items tier }
    ensures inserted { all_items tiers.new.items ≡ insert (all_items tiers.old.items) (items_before tiers.old.items tier + index) item }
    ensures tiers { AreTiers tiers.new.items }
{
    let _done = tiers[tier].insert(index, item);
}

// Takes an item out of a tier, which then has a spare place.
fn take_out<T>(tiers: &mut Vec<VecDeque<T>>, tier: usize, index: usize) -> T
    requires tiers { AreTiers tiers.old.items }
    requires there { tier < length tiers.old.items }
    requires within { HoldsAt (λ t. index < length t.items) tiers.old.items tier }
    ensures value { result ≡ slice_index_or (all_items tiers.old.items) (items_before tiers.old.items tier + index) result }
    ensures left { all_items tiers.new.items ≡ remove (all_items tiers.old.items) (items_before tiers.old.items tier + index) }
    ensures spare { HasSpare tiers.new.items tier }
{
    tiers[tier].remove(index).unwrap()
}

// Moves the spare place from a tier to the front or the back, and drops a tier that is empty then.
fn close_up<T: Drop>(tiers: &mut Vec<VecDeque<T>>, tier: usize, to_front: bool)
    requires { HasSpare tiers.old.items tier }
    ensures same { all_items tiers.new.items ≡ all_items tiers.old.items }
    ensures tiers { AreTiers tiers.new.items }
{
    if to_front {
        spare_to_front(tiers, tier, 0);
        trim_front(tiers);
        return;
    }
    let last = tiers.len() - 1;
    spare_to_back(tiers, tier, last);
    trim_back(tiers);
}

// Drops the first tier where it is empty.
fn trim_front<T: Drop>(tiers: &mut Vec<VecDeque<T>>)
    requires { HasSpare tiers.old.items 0 }
    ensures same { all_items tiers.new.items ≡ all_items tiers.old.items }
    ensures tiers { AreTiers tiers.new.items }
{
    if tiers[0].is_empty() {
        tiers.remove(0);
    }
}

// Drops the last tier where it is empty.
fn trim_back<T: Drop>(tiers: &mut Vec<VecDeque<T>>)
    requires { HasSpare tiers.old.items (length tiers.old.items - 1) }
    ensures same { all_items tiers.new.items ≡ all_items tiers.old.items }
    ensures tiers { AreTiers tiers.new.items }
{
    let last = tiers.len() - 1;
    if tiers[last].is_empty() {
        tiers.pop();
    }
}
