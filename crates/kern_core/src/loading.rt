// The objects of a world, before their entries stand in directories.
ghost use Rattle.std.specs.Prelude.{◌≡◌, ◌==◌, ◌<◌, IfOk, OnOk, not, true};
ghost use Rattle.std.specs.Cmp.Lexicographic.{pointwise};
ghost use Rattle.std.specs.FinMap.{FinMap};
ghost use Rattle.std.specs.List.{list_all};
ghost use Rattle.kern_model.specs.declared.limits.TheConstants.{MAX_OBJECTS};
ghost use Rattle.kern_model.specs.declared.numbers.Oid.{Oid as Number};
ghost use Rattle.kern_model.specs.Keys.{spot_cmp};
ghost use Rattle.kern_model.specs.State.{last_drawn, root};
ghost use Rattle.kern_model.specs.Boot.{boot_object, boot_objects, nothing};
ghost use Rattle.fs_dirs.specs.Tree.{AreEntries};
ghost use Rattle.kern_core.specs.Starts.{IsSpotOf, LeadsTo, RoomForObjects, directory_from, has_no, state_loaded, world_object};

use cap_bits::CapSet;
use fd_table::FdTable;
use fs_dirs::{Spot, Spots, Tree, root_directory};
use fs_nodes::Nodes;
use kern_model::{Attr, Body, Name, NameList, NoMemory, ObjectList, Oid, Path, WorldObject};
use lab_lattice::Label;
use proc_table::Procs;
use std::alloc::Global;
use sys_lookup::Shared;

/// A directory, and the names that lead to it from the root.
#[derive(Drop)]
pub struct NamedDirectory {
    names: NameList,
    dir: Oid,
}

impl NamedDirectory {
    fn root(alloc: Global) -> NamedDirectory
        ensures { (entries : FinMap spot_cmp Number) → LeadsTo entries result }
    {
        NamedDirectory {
            names: NameList::new(alloc),
            dir: root_directory(),
        }
    }

    // Goes to the root where one of the names is this, so that no other entry of this name is on the way.
    fn leave(&mut self, name: &Name)
        ensures apart { has_no name.now self.new.names ≡ true }
        ensures leads { (entries : FinMap spot_cmp Number) → LeadsTo entries self.old → LeadsTo entries self.new }
    {
        if !has_no(name, self.names.items()) {
            self.names.clear();
            self.dir = root_directory();
        }
    }
}

// Whether none of these names is this.
fn has_no(name: &Name, names: &[Name]) -> bool
    ensures { result ≡ has_no name.now names.now }
{
    names.iter().all(|other| other != name)
}

/// Gives back the memory of the items that are gone, once it is an eighth of the list.
pub fn give_back<T: Drop>(left: &mut Vec<T>)
    ensures { left.new.items ≡ left.old.items }
{
    if left.len() <= left.capacity() / 8 * 7 {
        left.shrink_to_fit();
    }
}

/// A state that is being loaded: objects, their entries, the bound of capabilities over exec, and the highest label.
#[derive(Drop)]
pub struct Loading {
    nodes: Nodes,
    spots: Spots,
    bound: CapSet,
    top: Label,
}

impl Loading {
    /// Nothing is loaded yet.
    pub fn new(alloc: Global, bound: CapSet, top: Label) -> Result<Loading, NoMemory>
        ensures { IfOk result (λ loading. state_loaded loading ≡ nothing bound top) }
    {
        Ok(Loading {
            nodes: Nodes::new(alloc)?,
            spots: Spots::new(alloc),
            bound,
            top,
        })
    }

    /// Makes the objects of a world, in order, and frees what it does not keep of each as soon as that object is made.
    pub fn take_objects(&mut self, alloc: Global, objects: ObjectList) -> Result<(), NoMemory>
        requires { RoomForObjects self.old.nodes.table.numbers objects }
        ensures { OnOk result (state_loaded self.new ≡ boot_objects (state_loaded self.old) objects) }
    {
        let mut last = NamedDirectory::root(alloc);
        let mut left = objects.into_vec();
        left.reverse();
        while let Some(object) = left.pop() {
            let WorldObject {
                path,
                label,
                attr,
                body,
            } = object;
            self.boot_object(&mut last, &path, label, attr, body)?;
            give_back(&mut left);
        }
        Ok(())
    }

    /// The state with all entries in their directories, and without processes.
    pub fn load(self, alloc: Global) -> Result<Shared, NoMemory>
        requires { AreEntries self.nodes.table self.spots }
        ensures { IfOk result (λ shared. shared ≡ state_loaded self) }
    {
        let Loading {
            nodes,
            spots,
            bound,
            top,
        } = self;
        Ok(Shared {
            tree: Tree::load(alloc, nodes, spots)?,
            fds: FdTable::new(alloc),
            procs: Procs::new(alloc),
            bound,
            top,
        })
    }

    // Makes an object under the next number of its label, and its entry. The directory of the object before it is tried first.
    fn boot_object(
        &mut self,
        last: &mut NamedDirectory,
        path: &Path,
        label: Label,
        attr: Attr,
        body: Body,
    ) -> Result<(), NoMemory>
        requires room { last_drawn self.old.nodes.table.numbers label < MAX_OBJECTS }
        requires last { LeadsTo self.old.spots last.old }
        ensures state { OnOk result (state_loaded self.new ≡ boot_object (state_loaded self.old) (world_object path.now label attr body)) }
        ensures last { OnOk result (LeadsTo self.new.spots last.new) }
    {
        let spot = self.spot_of(last, path.components())?;
        let id = self.nodes.create_next(label, attr, body)?;
        if let Some(spot) = spot {
            last.leave(&spot.1);
            self.spots.set(spot, id)?;
        }
        Ok(())
    }

    // The spot that a path names for a new object. The path of the root names none.
    fn spot_of(&self, last: &mut NamedDirectory, names: &[Name]) -> Result<Option<Spot>, NoMemory>
        requires { LeadsTo self.now.spots last.old }
        ensures spot { IfOk result (λ spot. IsSpotOf (state_loaded self.now) root names.now spot) }
        ensures last { OnOk result (LeadsTo self.now.spots last.new) }
    {
        if names.is_empty() {
            return Ok(None);
        }
        self.go_to(last, &names[..names.len() - 1])?;
        Ok(Some((last.dir, names[names.len() - 1].copy()?)))
    }

    // Goes to the directory to which names lead from the root.
    fn go_to(&self, last: &mut NamedDirectory, names: &[Name]) -> Result<(), NoMemory>
        requires { LeadsTo self.now.spots last.old }
        ensures there { OnOk result (last.new.names ≡ names.now) }
        ensures leads { OnOk result (LeadsTo self.now.spots last.new) }
    {
        if last.names.items() != names {
            last.dir = self.directory_at(names)?;
            last.names.copy_from(names)?;
        }
        Ok(())
    }

    // The directory to which names lead from the root.
    fn directory_at(&self, names: &[Name]) -> Result<Oid, NoMemory>
        ensures { IfOk result (λ dir. dir ≡ directory_from self.now.spots root names.now) }
    {
        let mut dir = root_directory();
        for name in names {
            let spot = (dir, name.copy()?);
            dir = self.spots.get(&spot).unwrap_or(dir);
        }
        Ok(dir)
    }
}
