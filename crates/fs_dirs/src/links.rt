// Where the names of objects stand.
ghost use Rattle.std.specs.Prelude.{◌≡◌, ◌+◌, ◌<◌, [], ◌∷◌, ℕ, IfErr, IfOk, IfSome, OnErr, OnOk, get_or, length, slice_get};
ghost use Rattle.std.specs.Option.{option_map};
ghost use Rattle.std.specs.FinMap as map;
ghost use Rattle.kern_model.specs.Keys.{same_oid};
ghost use Rattle.kern_model.specs.declared.numbers.Oid.{Oid as Number};
ghost use Rattle.kern_model.specs.LabelLists.{IsSet};
ghost use Rattle.fs_dirs.specs.Entries.{HasLess, HasMore, HasOnly, IsIn, IsWith, dir_of, first_name, holders_at, names_in_all};
ghost use Rattle.fs_dirs.specs.Links.{AreKept, AreSorted, IsGap, holders_in};

use fs_path::NoMemory;
use kern_model::{LabelMap, Oid};
use lab_lattice::Label;
use std::alloc::Global;
use std::marker::Model;
use std::slice;

/// A directory that holds an object, and how many further names the object has there beside the first.
#[derive(Clone, Copy, Drop)]
pub struct Holder {
    // The parts of the directory's number, side by side with the count, so that they take 20 bytes.
    label: Label,
    n: u16,
    pub further: u16,
}

impl Holder {
    // A directory that holds one name.
    fn of(dir: &Oid) -> Holder
        ensures { result ≡ first_name dir.now }
    {
        Holder {
            label: dir.label,
            n: dir.n,
            further: 0,
        }
    }

    /// The number of the directory.
    pub fn dir(&self) -> Oid
        ensures { result ≡ dir_of self.now }
    {
        Oid {
            label: self.label,
            n: self.n,
        }
    }

    // How many names the object has there.
    fn names(&self) -> u32
        ensures { result ≡ self.now.further + 1 }
    {
        self.further as u32 + 1
    }

    // Whether it is this directory.
    fn is(&self, dir: &Oid) -> bool
        ensures { result ≡ same_oid (dir_of self.now) dir.now }
    {
        self.dir().is_same(dir)
    }

    // The same directory with one name more.
    fn with_one_more(&self) -> Result<Holder, NoMemory>
        ensures { IfOk result (λ more. more ≡ record self.now { further = self.now.further + 1 }) }
    {
        match self.further.checked_add(1) {
            Some(further) => Ok(Holder { further, ..*self }),
            None => Err(NoMemory),
        }
    }
}

// Where a directory stands among others, or where it belongs.
fn place_of(holders: &[Holder], dir: &Oid) -> Result<usize, usize>
    requires { AreSorted holders.now }
    ensures within { IfOk result (λ place. place < length holders.now) }
    ensures is { IfOk result (λ place. dir_of (get_or holders.now place (first_name dir.now)) ≡ dir.now) }
    ensures absent { IfErr result (λ _. IsIn dir.now holders.now → ⊥) }
    ensures gap { IfErr result (IsGap holders.now dir.now) }
{
    holders.binary_search_by_key(dir, |holder| holder.dir())
}

/// The first of some directories, if there is one.
pub fn first_dir(holders: &[Holder]) -> Option<Oid>
    ensures { result ≡ option_map dir_of (slice_get holders.now 0) }
{
    match holders.first() {
        Some(holder) => Some(holder.dir()),
        None => None,
    }
}

// Several directories that hold an object, in the order of their numbers. Each stands there once.
#[derive(Drop)]
struct Several {
    holders: Vec<Holder>,
    // How many names stand in all of them.
    count: u32,
}

impl Several {
    // One directory, with room for a second.
    fn of(alloc: Global, one: Holder) -> Result<Several, NoMemory>
        ensures holders { IfOk result (λ several. several.holders.items ≡ one ∷ []) }
        ensures count { IfOk result (λ several. several.count ≡ one.further + 1) }
    {
        let mut holders = Vec::with_capacity(alloc, 2)?;
        holders.push(one)?;
        Ok(Several {
            count: one.names(),
            holders,
        })
    }

    // Adds a name in a directory.
    fn push(&mut self, dir: &Oid) -> Result<(), NoMemory>
        requires { AreSorted self.old.holders.items }
        ensures names { OnOk result (IsWith self.old.holders.items dir.now self.new.holders.items) }
        ensures count { OnOk result (self.new.count ≡ self.old.count + 1) }
        ensures sorted { AreSorted self.new.holders.items }
        ensures err_names { OnErr result (self.new.holders.items ≡ self.old.holders.items) }
        ensures err_count { OnErr result (self.new.count ≡ self.old.count) }
    {
        let Some(count) = self.count.checked_add(1) else {
            return Err(NoMemory);
        };
        match place_of(&self.holders, dir) {
            Ok(place) => self.holders[place] = self.holders[place].with_one_more()?,
            Err(place) => self.holders.insert(place, Holder::of(dir))?,
        }
        self.count = count;
        Ok(())
    }

    // Takes out one name, which stands in a directory.
    fn take_out(&mut self, dir: &Oid)
        requires sorted { AreSorted self.old.holders.items }
        requires some { 0 < self.old.count }
        requires is_in { IsIn dir.now self.old.holders.items }
        ensures names { IsWith self.new.holders.items dir.now self.old.holders.items }
        ensures count { self.new.count + 1 ≡ self.old.count }
        ensures sorted { AreSorted self.new.holders.items }
    {
        let Ok(place) = place_of(&self.holders, dir) else {
            unreachable!();
        };
        self.count -= 1;
        let holder = self.holders[place];
        if holder.further > 0 {
            self.holders[place] = Holder {
                further: holder.further - 1,
                ..holder
            };
        } else {
            self.holders.remove(place);
        }
    }
}

// What is kept of the directories that hold an object. A single one takes no memory of its own.
#[derive(Drop)]
enum Kept {
    None,
    One(Holder),
    Several(Box<Several>),
}

impl Kept {
    // What is kept of a single directory with one name less.
    fn without_one(holder: &Holder) -> Kept
        ensures names { IsWith (holders_in result) (dir_of holder.now) (holder.now ∷ []) }
        ensures kept { AreKept result }
    {
        match holder.further {
            0 => Kept::None,
            further => Kept::One(Holder {
                further: further - 1,
                ..*holder
            }),
        }
    }
}

/// The directories that hold an object. Each stands there once.
#[derive(Drop)]
struct Links {
    kept: Kept,
}

impl Model for Links {
    ghost use Rattle.std.specs.Prelude.{List};
    ghost use Rattle.std.specs.Coded.{coded_list};
    ghost use Rattle.fs_dirs.specs.declared.links.Holder.{Holder};
    ghost use Rattle.fs_dirs.specs.Entries.{holder_code};
    ghost use Rattle.fs_dirs.specs.Links.{AreKept, holders_in};

    ghost Value = { List Holder };

    ghost coded = { coded_list holder_code };

    ghost view = { λ l. holders_in l.kept };

    ghost invariant = { λ l. AreKept l.kept };
}

impl Links {
    /// No name.
    fn new() -> Links
        ensures { result ≡ [] }
    {
        Links { kept: Kept::None }
    }

    /// The directories.
    fn holders(&self) -> &[Holder]
        ensures { result.now ≡ self.now }
    {
        match &self.kept {
            Kept::None => &[],
            Kept::One(holder) => slice::from_ref(holder),
            Kept::Several(several) => several.holders.as_slice(),
        }
    }

    /// How many names stand in them.
    fn count(&self) -> u32
        ensures { result ≡ names_in_all self.now }
    {
        match &self.kept {
            Kept::None => 0,
            Kept::One(holder) => holder.names(),
            Kept::Several(several) => several.count,
        }
    }

    /// Adds a name in a directory.
    fn push(&mut self, alloc: Global, dir: &Oid) -> Result<(), NoMemory>
        ensures ok { OnOk result (IsWith self.old dir.now self.new) }
        ensures err { OnErr result (self.new ≡ self.old) }
    {
        match &mut self.kept {
            Kept::None => self.kept = Kept::One(Holder::of(dir)),
            Kept::One(holder) if holder.is(dir) => *holder = holder.with_one_more()?,
            Kept::One(holder) => {
                let mut several = Several::of(alloc, *holder)?;
                several.push(dir)?;
                self.kept = Kept::Several(Box::new(alloc, several)?);
            }
            Kept::Several(several) => several.push(dir)?,
        }
        Ok(())
    }

    /// Takes out one name, which stands in a directory.
    fn take_out(&mut self, dir: &Oid)
        requires { IsIn dir.now self.old }
        ensures { IsWith self.new dir.now self.old }
    {
        match &mut self.kept {
            Kept::None => unreachable!(),
            Kept::One(holder) => self.kept = Kept::without_one(holder),
            Kept::Several(several) => {
                several.take_out(dir);
                if let [holder] = several.holders.as_slice() {
                    self.kept = Kept::One(*holder);
                }
            }
        }
    }

    /// Has one name, in a directory, in place of all others. It takes no memory.
    fn set_only(&mut self, dir: &Oid)
        ensures { self.new ≡ first_name dir.now ∷ [] }
    {
        self.kept = Kept::One(Holder::of(dir));
    }
}

/// Where the names of the objects of one label stand, by the counts of their draws.
#[derive(Drop)]
struct LinkList {
    links: Vec<Links>,
}

impl Model for LinkList {
    ghost use Rattle.std.specs.Prelude.{List};
    ghost use Rattle.std.specs.Coded.{coded_list};
    ghost use Rattle.fs_dirs.specs.declared.links.Holder.{Holder};
    ghost use Rattle.fs_dirs.specs.Entries.{holder_code};

    ghost Value = { List (List Holder) };

    ghost coded = { coded_list (coded_list holder_code) };

    ghost view = { λ l. l.links.items };
}

impl LinkList {
    /// No name.
    fn new(alloc: Global) -> Self
        ensures { result ≡ [] }
    {
        LinkList {
            links: Vec::new(alloc),
        }
    }

    /// The directories that hold the object at a count.
    fn holders(&self, n: u16) -> &[Holder]
        ensures { result.now ≡ get_or self.now n [] }
    {
        match self.links.get(n as usize) {
            Some(links) => links.holders(),
            None => &[],
        }
    }

    /// How many names the object at a count has.
    fn count(&self, n: u16) -> u32
        ensures { result ≡ names_in_all (get_or self.now n []) }
    {
        match self.links.get(n as usize) {
            Some(links) => links.count(),
            None => 0,
        }
    }

    /// Makes a place for a count.
    fn reach(&mut self, n: u16) -> Result<(), NoMemory>
        ensures ok { OnOk result (n < length self.new) }
        ensures same { (m : ℕ) → get_or self.new m [] ≡ get_or self.old m [] }
    {
        // A label with one object has room for no other.
        if self.links.is_empty() {
            self.links.reserve_exact(n as usize + 1)?;
        }
        while self.links.len() <= n as usize {
            self.links.push(Links::new())?;
        }
        Ok(())
    }

    /// Adds a name of the object at a count.
    fn add(&mut self, n: u16, dir: &Oid) -> Result<(), NoMemory>
        ensures added { OnOk result (IsWith (get_or self.old n []) dir.now (get_or self.new n [])) }
        ensures others { OnOk result (IsSet [] self.old n (get_or self.new n []) self.new) }
        ensures err { OnErr result ((m : ℕ) → get_or self.new m [] ≡ get_or self.old m []) }
    {
        self.reach(n)?;
        let alloc = *self.links.allocator();
        self.links[n as usize].push(alloc, dir)
    }

    /// Takes out one name of the object at a count, which stands in a directory.
    fn take_out(&mut self, n: u16, dir: &Oid)
        requires { IsIn dir.now (get_or self.old n []) }
        ensures taken { IsWith (get_or self.new n []) dir.now (get_or self.old n []) }
        ensures others { IsSet [] self.old n (get_or self.new n []) self.new }
    {
        self.links[n as usize].take_out(dir);
    }

    /// Has the object at a count, which has a name, have one name alone, in a directory. It takes no memory.
    fn set_only(&mut self, n: u16, dir: &Oid)
        requires { 0 < names_in_all (get_or self.old n []) }
        ensures { IsSet [] self.old n (first_name dir.now ∷ []) self.new }
    {
        self.links[n as usize].set_only(dir);
    }
}

/// Where the names of each object stand.
#[derive(Drop)]
pub struct LinkTable {
    alloc: Global,
    // The numbers of a label are drawn in turn, so that each list has few places without a name.
    by_label: LabelMap<LinkList>,
}

impl Model for LinkTable {
    ghost use Rattle.std.specs.FinMap as map;
    ghost use Rattle.std.specs.Coded.{coded_list};
    ghost use Rattle.lab_lattice.specs.Label.{label_code};
    ghost use Rattle.fs_dirs.specs.Entries.{Holders, holder_code};

    ghost Value = { Holders };

    ghost coded = { map.code label_code (coded_list (coded_list holder_code)) };

    ghost view = { λ a. a.by_label };
}

impl LinkTable {
    /// The empty table.
    pub fn new(alloc: Global) -> Self
        ensures { result ≡ map.empty }
    {
        LinkTable {
            alloc,
            by_label: LabelMap::new(alloc),
        }
    }

    /// The directories that hold an object.
    pub fn holders(&self, id: &Oid) -> &[Holder]
        ensures { result.now ≡ holders_at self.now id.now }
    {
        match self.by_label.get(&id.label) {
            Some(list) => list.holders(id.n),
            None => &[],
        }
    }

    /// How many names an object has.
    pub fn count(&self, id: &Oid) -> u32
        ensures { result ≡ names_in_all (holders_at self.now id.now) }
    {
        match self.by_label.get(&id.label) {
            Some(list) => list.count(id.n),
            None => 0,
        }
    }

    /// Adds a name of an object in a directory.
    pub fn add_name(&mut self, id: &Oid, dir: &Oid) -> Result<(), NoMemory>
        ensures ok { OnOk result (HasMore self.old id.now dir.now self.new) }
        ensures err { OnErr result ((q : Number) → holders_at self.new q ≡ holders_at self.old q) }
    {
        if let Some(list) = self.by_label.get_mut(&id.label) {
            return list.add(id.n, dir);
        }
        let mut list = LinkList::new(self.alloc);
        list.add(id.n, dir)?;
        self.by_label.insert(id.label, list)?;
        Ok(())
    }

    /// Takes the name in a directory from an object. It takes no memory.
    pub fn take_name(&mut self, id: &Oid, dir: &Oid)
        requires { IsIn dir.now (holders_at self.old id.now) }
        ensures { HasMore self.new id.now dir.now self.old }
    {
        let Some(list) = self.by_label.get_mut(&id.label) else {
            unreachable!();
        };
        list.take_out(id.n, dir);
    }

    /// Has an object that has a name have one name alone, in a directory. It takes no memory.
    pub fn set_only(&mut self, id: &Oid, dir: &Oid)
        requires { 0 < names_in_all (holders_at self.old id.now) }
        ensures { HasOnly self.old id.now dir.now self.new }
    {
        let Some(list) = self.by_label.get_mut(&id.label) else {
            unreachable!();
        };
        list.set_only(id.n, dir);
    }

    /// Takes the name in a directory from an object, if there is one. It takes no memory.
    pub fn drop_name(&mut self, id: &Option<Oid>, dir: &Oid)
        requires { IfSome id.now (λ id. IsIn dir.now (holders_at self.old id)) }
        ensures { HasLess self.old id.now dir.now self.new }
    {
        if let Some(id) = id {
            self.take_name(id, dir);
        }
    }
}
