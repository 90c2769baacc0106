// What each directory contains.
ghost use Rattle.std.specs.Prelude.{◌≡◌, ◌<◌, [], ℕ, IfOk, OnErr, OnOk, get_or, length, option_copied, slice_get, unwrap_or};
ghost use Rattle.std.specs.FinMap as map;
ghost use Rattle.kern_model.specs.LabelLists.{IsSet};
ghost use Rattle.fs_dirs.specs.Directory.{TakesFewSteps};
ghost use Rattle.fs_dirs.specs.Entries.{contents_of, entries_of};

use crate::directory::Directory;
use fs_path::{Name, NameList, NoMemory, Steps};
use kern_model::{LabelMap, Oid};
use std::alloc::Global;
use std::marker::Model;
use std::sync::ledger::Ledger;

/// What the directories of one label contain, by the counts of their draws. What is no directory stands there as one without names.
#[derive(Drop)]
struct DirectoryList {
    directories: Vec<Directory>,
}

impl Model for DirectoryList {
    ghost use Rattle.std.specs.Prelude.{List};
    ghost use Rattle.std.specs.FinMap as map;
    ghost use Rattle.std.specs.Coded.{codes, coded_list};
    ghost use Rattle.fs_dirs.specs.Entries.{Contents};
    ghost use Rattle.kern_model.proofs.StateCode.{oid_code};

    ghost Value = { List Contents };

    ghost coded = { coded_list (map.code (Prim.hlevel codes) oid_code) };

    ghost view = { λ l. l.directories.items };
}

impl DirectoryList {
    /// No directory.
    fn new(alloc: Global) -> Self
        ensures { result ≡ [] }
    {
        DirectoryList {
            directories: Vec::new(alloc),
        }
    }

    /// The directory at a count, if there is a place for it.
    fn get(&self, n: u16) -> Option<&Directory>
        ensures { unwrap_or (option_copied result) map.empty ≡ get_or self.now n map.empty }
    {
        self.directories.get(n as usize)
    }

    /// Makes a place for a count.
    fn reach(&mut self, alloc: Global, n: u16) -> Result<(), NoMemory>
        ensures ok { OnOk result (n < length self.new) }
        ensures same { (m : ℕ) → get_or self.new m map.empty ≡ get_or self.old m map.empty }
    {
        while self.directories.len() <= n as usize {
            self.directories.push(Directory::new(alloc))?;
        }
        Ok(())
    }

    /// Has a name in the directory at a count lead to an object, and returns the one to which it led, if it was there.
    fn insert(
        &mut self,
        alloc: Global,
        n: u16,
        name: Name,
        id: Oid,
    ) -> Result<Option<Oid>, NoMemory>
        ensures ok { OnOk result (IsSet map.empty self.old n (map.insert (get_or self.old n map.empty) name id) self.new) }
        ensures found { IfOk result (λ led. led ≡ map.get (get_or self.old n map.empty) name) }
        ensures err { OnErr result ((m : ℕ) → get_or self.new m map.empty ≡ get_or self.old m map.empty) }
    {
        self.reach(alloc, n)?;
        self.directories[n as usize].insert(name, id)
    }

    /// Removes a name from the directory at a count, if it is there, and returns the object to which it led.
    fn remove(&mut self, n: u16, name: &Name) -> Option<Oid>
        ensures found { result ≡ map.get (get_or self.old n map.empty) name.now }
        ensures removed { IsSet map.empty self.old n (map.remove (get_or self.old n map.empty) name.now) self.new }
    {
        let place = n as usize;
        if place >= self.directories.len() {
            return None;
        }
        self.directories[place].remove(name)
    }
}

/// What each directory contains.
#[derive(Drop)]
pub struct Dirs {
    alloc: Global,
    // The numbers of a label are drawn in turn, so that each list is not much longer than there are objects.
    by_label: LabelMap<DirectoryList>,
}

impl Model for Dirs {
    ghost use Rattle.std.specs.FinMap as map;
    ghost use Rattle.std.specs.Coded.{codes};
    ghost use Rattle.kern_model.specs.declared.numbers.Oid.{Oid};
    ghost use Rattle.kern_model.specs.Keys.{oid_cmp};
    ghost use Rattle.fs_dirs.specs.Directory.{name_cmp};
    ghost use Rattle.fs_dirs.specs.Entries.{dirs_in};
    ghost use Rattle.kern_model.proofs.StateCode.{oid_code};

    ghost Value = { map.FinMap oid_cmp (map.FinMap name_cmp Oid) };

    ghost coded = { map.code oid_code (map.code (Prim.hlevel codes) oid_code) };

    ghost view = { λ a. dirs_in a.by_label };
}

impl Dirs {
    /// No directory.
    pub fn new(alloc: Global) -> Self
        ensures { result ≡ map.empty }
    {
        Dirs {
            alloc,
            by_label: LabelMap::new(alloc),
        }
    }

    // A directory, if there is one at its number.
    fn directory(&self, dir: &Oid) -> Option<&Directory>
        ensures { unwrap_or (option_copied result) map.empty ≡ contents_of self.now dir.now }
    {
        self.by_label.get(&dir.label)?.get(dir.n)
    }

    /// The object to which a name in a directory leads, if it is there. Comparisons of names count in `steps`.
    pub fn look_counted<L: Ledger>(
        &self,
        dir: &Oid,
        name: &Name,
        steps: &mut Steps<L>,
    ) -> Option<Oid>
        ensures found { result ≡ map.get (contents_of self.now dir.now) name.now }
        ensures counted { TakesFewSteps (map.len (contents_of self.now dir.now)) steps.old steps.new }
    {
        match self.directory(dir) {
            Some(directory) => directory.look_counted(name, steps),
            None => None,
        }
    }

    /// How many names a directory contains.
    pub fn len(&self, dir: &Oid) -> usize
        ensures { result ≡ map.len (contents_of self.now dir.now) }
    {
        match self.directory(dir) {
            Some(directory) => directory.len(),
            None => 0,
        }
    }

    /// The object to which the name at a place in a directory leads, if it contains so many.
    pub fn object_at(&self, dir: &Oid, place: usize) -> Option<Oid>
        ensures { result ≡ slice_get (map.values (contents_of self.now dir.now)) place }
    {
        match self.directory(dir) {
            Some(directory) => directory.object_at(place),
            None => None,
        }
    }

    /// Copies of the names in a directory, in their order.
    pub fn names(&self, dir: &Oid) -> Result<NameList, NoMemory>
        ensures { IfOk result (λ names. names ≡ map.keys (contents_of self.now dir.now)) }
    {
        match self.directory(dir) {
            Some(directory) => directory.names(self.alloc),
            None => Ok(NameList::new(self.alloc)),
        }
    }

    /// Has a name in a directory lead to an object, and returns the one to which it led, if it was there.
    pub fn insert(&mut self, dir: &Oid, name: Name, id: &Oid) -> Result<Option<Oid>, NoMemory>
        ensures ok { OnOk result (entries_of self.new ≡ map.insert (entries_of self.old) (dir.now, name) id.now) }
        ensures found { IfOk result (λ led. led ≡ map.get (entries_of self.old) (dir.now, name)) }
        ensures err { OnErr result (entries_of self.new ≡ entries_of self.old) }
    {
        let alloc = self.alloc;
        if let Some(list) = self.by_label.get_mut(&dir.label) {
            return list.insert(alloc, dir.n, name, *id);
        }
        let mut list = DirectoryList::new(alloc);
        let led = list.insert(alloc, dir.n, name, *id)?;
        self.by_label.insert(dir.label, list)?;
        Ok(led)
    }

    /// Removes a name from a directory, if it is there, and returns the object to which it led. It takes no memory.
    pub fn remove(&mut self, dir: &Oid, name: &Name) -> Option<Oid>
        ensures found { result ≡ map.get (contents_of self.old dir.now) name.now }
        ensures removed { entries_of self.new ≡ map.remove (entries_of self.old) (dir.now, name.now) }
    {
        let Some(list) = self.by_label.get_mut(&dir.label) else {
            return None;
        };
        list.remove(dir.n, name)
    }
}
