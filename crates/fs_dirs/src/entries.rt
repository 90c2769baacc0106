// The entries of all directories.
ghost use Rattle.std.specs.Prelude.{◌≡◌, ◌-◌, ◌<◌, ◌≤◌, false, IfOk, IsSome, OnErr, OnOk, Some, cond, is_some, slice_get};
ghost use Rattle.std.specs.Ordering.{eq_by_cmp};
ghost use Rattle.std.specs.FinMap as map;
ghost use Rattle.kern_model.specs.Keys.{spot_cmp};
ghost use Rattle.kern_model.specs.Entries.{entry_count, holder, link_count, names_in};
ghost use Rattle.fs_dirs.specs.Directory.{TakesFewSteps};
ghost use Rattle.fs_dirs.specs.Entries.{AreHolders, entries_alone, objects_in, spot_of};

use crate::dirs::Dirs;
use crate::links::{Holder, LinkTable, first_dir};
use crate::spots::SpotRef;
use fs_path::{Name, NameList, NoMemory, Steps};
use kern_model::Oid;
use std::alloc::Global;
use std::marker::{Brand, Model};
use std::sync::ledger::{Blank, Ledger};

/// The entries of all directories, and the names of each object that has some.
#[derive(Drop)]
pub struct Entries {
    dirs: Dirs,
    names: LinkTable,
    total: usize,
}

impl Model for Entries {
    ghost use Rattle.std.specs.FinMap as map;
    ghost use Rattle.kern_model.specs.declared.numbers.Oid.{Oid};
    ghost use Rattle.kern_model.specs.Keys.{spot_cmp};
    ghost use Rattle.fs_dirs.specs.Entries.{AreIndexed, entries_of};
    ghost use Rattle.kern_model.proofs.StateCode.{oid_code, spot_code};

    ghost Value = { map.FinMap spot_cmp Oid };

    ghost coded = { map.code spot_code oid_code };

    ghost view = { λ e. entries_of e.dirs };

    ghost invariant = { λ e. AreIndexed (entries_of e.dirs) e.names e.total };
}

// How many entries are left where one goes, if it is there.
fn without_one(total: usize, gone: &Option<Oid>) -> usize
    requires { IsSome gone.now → 1 ≤ total }
    ensures { result ≡ cond (is_some gone.now) (total - 1) total }
{
    match gone {
        Some(_) => total - 1,
        None => total,
    }
}

impl Entries {
    /// No entry.
    pub fn new(alloc: Global) -> Self
        ensures { result ≡ map.empty }
    {
        Entries {
            dirs: Dirs::new(alloc),
            names: LinkTable::new(alloc),
            total: 0,
        }
    }

    /// How many entries there are.
    pub fn total(&self) -> usize
        ensures { result ≡ map.len self.now }
    {
        self.total
    }

    /// Where an entry leads, if it is there. Comparisons of names count in `steps`.
    pub fn look_counted<L: Ledger>(
        &self,
        dir: &Oid,
        name: &Name,
        steps: &mut Steps<L>,
    ) -> Option<Oid>
        ensures found { result ≡ map.get self.now (dir.now, name.now) }
        ensures counted { TakesFewSteps (entry_count (entries_alone self.now) dir.now) steps.old steps.new }
    {
        self.dirs.look_counted(dir, name, steps)
    }

    /// How many names a directory contains.
    pub fn len(&self, dir: &Oid) -> usize
        ensures { result ≡ entry_count (entries_alone self.now) dir.now }
    {
        self.dirs.len(dir)
    }

    /// The object to which the name at a place in a directory leads, if it contains so many.
    pub fn object_at(&self, dir: &Oid, place: usize) -> Option<Oid>
        ensures { result ≡ slice_get (objects_in (entries_alone self.now) dir.now) place }
    {
        self.dirs.object_at(dir, place)
    }

    /// Copies of the names in a directory, in their order.
    pub fn names(&self, dir: &Oid) -> Result<NameList, NoMemory>
        ensures { IfOk result (λ names. names ≡ names_in (entries_alone self.now) dir.now) }
    {
        self.dirs.names(dir)
    }

    /// Where an entry leads, if it is there.
    pub fn look(&self, dir: &Oid, name: &Name) -> Option<Oid>
        ensures { result ≡ map.get self.now (dir.now, name.now) }
    {
        self.look_from::<Brand>(dir, name, Blank::new(1))
    }

    // The same, with a count of its own.
    fn look_from<L: Ledger>(&self, dir: &Oid, name: &Name, blank: Blank) -> Option<Oid>
        requires name { blank.name ≡ L.name }
        requires parts { blank.parts ≡ L.parts }
        requires any { 0 < L.parts }
        ensures { result ≡ map.get self.now (dir.now, name.now) }
    {
        let mut steps = Steps::<L>::new(blank);
        self.look_counted(dir, name, &mut steps)
    }

    /// The directories that hold an object, and how many names it has in each.
    pub fn holders(&self, id: &Oid) -> &[Holder]
        ensures { AreHolders self.now id.now result.now }
    {
        self.names.holders(id)
    }

    /// The directory that holds an object, if one does, where it has no second name.
    pub fn holder(&self, id: &Oid) -> Option<Oid>
        requires { link_count (entries_alone self.now) id.now ≤ 1 }
        ensures { result ≡ holder (entries_alone self.now) id.now }
    {
        first_dir(self.names.holders(id))
    }

    /// How many names an object has.
    pub fn name_count(&self, id: &Oid) -> u32
        ensures { result ≡ link_count (entries_alone self.now) id.now }
    {
        self.names.count(id)
    }

    /// Has an entry lead to an object, in place of the one to which it led.
    pub fn insert(&mut self, dir: &Oid, name: Name, id: &Oid) -> Result<(), NoMemory>
        ensures ok { OnOk result (self.new ≡ map.insert self.old (dir.now, name) id.now) }
        ensures err { OnErr result (self.new ≡ self.old) }
    {
        let Some(more) = self.total.checked_add(1) else {
            return Err(NoMemory);
        };
        self.names.add_name(id, dir)?;
        let replaced = match self.dirs.insert(dir, name, id) {
            Ok(replaced) => replaced,
            Err(e) => {
                self.names.take_name(id, dir);
                return Err(e);
            }
        };
        self.names.drop_name(&replaced, dir);
        self.total = without_one(more, &replaced);
        Ok(())
    }

    /// Removes an entry, if it is there, and returns the object to which it led. It takes no memory.
    pub fn remove(&mut self, dir: &Oid, name: &Name) -> Option<Oid>
        ensures found { result ≡ map.get self.old (dir.now, name.now) }
        ensures removed { self.new ≡ map.remove self.old (dir.now, name.now) }
    {
        let removed = self.dirs.remove(dir, name);
        self.names.drop_name(&removed, dir);
        self.total = without_one(self.total, &removed);
        removed
    }

    /// Removes the entry of an object at a spot, and has that at another one lead to the object, in place of the one to which it
    /// led.
    pub fn relocate(
        &mut self,
        from: &SpotRef<'_>,
        to: &SpotRef<'_>,
        id: &Oid,
    ) -> Result<(), NoMemory>
        requires there { map.get self.old (spot_of from.now) ≡ Some id.now }
        requires apart { eq_by_cmp spot_cmp (spot_of from.now) (spot_of to.now) ≡ false }
        ensures moved { OnOk result (self.new ≡ map.insert (map.remove self.old (spot_of from.now)) (spot_of to.now) id.now) }
        ensures err { OnErr result (self.new ≡ self.old) }
    {
        if self.names.count(id) == 1 {
            return self.relocate_only(from, to, id);
        }
        self.insert(to.dir, to.name.copy()?, id)?;
        self.remove(from.dir, from.name);
        Ok(())
    }

    // The same, where the object has no other name.
    fn relocate_only(
        &mut self,
        from: &SpotRef<'_>,
        to: &SpotRef<'_>,
        id: &Oid,
    ) -> Result<(), NoMemory>
        requires there { map.get self.old (spot_of from.now) ≡ Some id.now }
        requires apart { eq_by_cmp spot_cmp (spot_of from.now) (spot_of to.now) ≡ false }
        requires only { link_count (entries_alone self.old) id.now ≡ 1 }
        ensures moved { OnOk result (self.new ≡ map.insert (map.remove self.old (spot_of from.now)) (spot_of to.now) id.now) }
        ensures err { OnErr result (self.new ≡ self.old) }
    {
        let replaced = self.dirs.insert(to.dir, to.name.copy()?, id)?;
        self.dirs.remove(from.dir, from.name);
        self.names.set_only(id, to.dir);
        self.names.drop_name(&replaced, to.dir);
        self.total = without_one(self.total, &replaced);
        Ok(())
    }
}
