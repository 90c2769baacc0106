// Objects and processes of a world as they are read.
ghost use Rattle.std.specs.Prelude.{◌≡◌, ◌<◌, ◌==◌, ◌&&◌, ◌||◌, not, [], ◌∷◌, ◌++◌, nat_le, is_some, IfOk, IfSome, IsTrue, OnErr, OnOk, length, slice_get, None};
ghost use Rattle.std.specs.Option.{option_map};
ghost use Rattle.lab_lattice.specs.Label.{Label, bottom, dominates};
ghost use Rattle.kern_model.specs.declared.limits.TheConstants.{MAX_OBJECTS, MAX_PROCS};
ghost use Rattle.kern_model.specs.Kinds.{kind_of, is_dir};
ghost use Rattle.kern_model.specs.World.{object_with_path, same_names, objects_at, procs_at};
ghost use Rattle.world_text.specs.Indexed.{path_entry_of, hasher_of, hash_in, path_hash, object_at, count_in, IsCounted, IsEmpty, HasObject, HasProcess, IsSpot, is_dir_entry, is_above_entry};
ghost use Rattle.world_text.specs.Placing.{is_root, object_fault, process_fault};

use crate::NoMemory;
use crate::chains::Chains;
use fs_path::{List, Name, Path};
use kern_model::limits::{MAX_OBJECTS, MAX_PROCS};
use kern_model::{Body, LabelMap, ObjectList, ProcList, WorldObject, WorldProc};
use lab_lattice::{Label, Lattice, bottom};
use line_text::LineFault;
use std::alloc::Global;
use std::hash::{FoldHasher, Hasher};
use std::marker::Model;

/// How many there are at each label.
type Counts = LabelMap<usize>;

fn count_at(counts: &Counts, label: &Label) -> usize
    ensures { result ≡ count_in counts.now label.now }
{
    counts.get(label).copied().unwrap_or(0)
}

// The same. The next call finds this label at once.
fn find_count(counts: &mut Counts, label: &Label) -> usize
    ensures count { result ≡ count_in counts.old label.now }
    ensures same { counts.new ≡ counts.old }
{
    match counts.get_mut(label) {
        Some(count) => *count,
        None => 0,
    }
}

// Counts one more at a label that has so many.
fn count_one(counts: &mut Counts, label: &Label, count: usize) -> Result<(), NoMemory>
    requires known { count ≡ count_in counts.old label.now }
    requires room { count < MAX_OBJECTS }
    ensures { OnOk result (IsCounted counts.old counts.new label.now) }
{
    counts.insert(*label, count + 1)?;
    Ok(())
}

/// What stands at a path.
#[derive(Clone, Copy)]
pub struct PathEntry {
    /// Whether it is a directory.
    pub is_dir: bool,
    pub label: Label,
}

fn is_dir(body: &Body) -> bool
    ensures { result ≡ is_dir (kind_of body.now) }
{
    matches!(body, Body::Dir)
}

fn path_entry_of(object: &WorldObject) -> PathEntry
    ensures { result ≡ path_entry_of object.now }
{
    PathEntry {
        is_dir: is_dir(&object.body),
        label: object.label,
    }
}

fn is_dir_entry(entry: &Option<PathEntry>) -> bool
    ensures { result ≡ is_dir_entry entry.now }
{
    match entry {
        Some(entry) => entry.is_dir,
        None => false,
    }
}

fn is_above_entry(label: &Label, entry: &Option<PathEntry>) -> bool
    ensures { result ≡ is_above_entry label.now entry.now }
{
    match entry {
        Some(entry) => label.dominates(&entry.label),
        None => true,
    }
}

fn is_root(path: &Path) -> bool
    ensures { result ≡ is_root path.now.names }
{
    path.components().is_empty()
}

// Whether an object is the root, or its directory is there.
fn has_parent(object: &WorldObject, directory: &Option<PathEntry>) -> bool
    ensures { result ≡ (is_root object.now.path.names || is_dir_entry directory.now) }
{
    is_root(&object.path) || is_dir_entry(directory)
}

// Whether an object may be the root: a directory of the lowest label.
fn may_be_root(object: &WorldObject) -> bool
    ensures { result ≡ (is_dir (kind_of object.now.body) && dominates bottom object.now.label) }
{
    is_dir(&object.body) && bottom().dominates(&object.label)
}

// Whether an object is the root, but may not be.
fn is_wrong_root(object: &WorldObject) -> bool
    ensures { result ≡ (is_root object.now.path.names && not (is_dir (kind_of object.now.body) && dominates bottom object.now.label)) }
{
    is_root(&object.path) && !may_be_root(object)
}

// The hasher after names, one after another.
fn hasher_of(names: &[Name]) -> FoldHasher
    ensures { result ≡ hasher_of names.now }
{
    let mut hasher = FoldHasher::default();
    for name in names {
        hasher.write(name.bytes());
    }
    hasher
}

// The hash of a path of which this is the hasher.
fn hash_in(hasher: &FoldHasher) -> u32
    ensures { result ≡ hash_in hasher.now }
{
    (hasher.finish() >> 32) as u32
}

// Whether an object has a path of these names.
fn has_path(object: &WorldObject, names: &[Name]) -> bool
    ensures { result ≡ same_names object.now.path.names names.now }
{
    object.path.components() == names
}

/// Where an object goes: what is known of it before it comes after those before it.
#[derive(Clone, Copy)]
pub struct Spot {
    // The hash of its path.
    hash: u32,
    // Where its directory stands.
    directory: Option<usize>,
    // How many objects have its label.
    count: usize,
}

impl Spot {
    // Whether no number of the label is left for an object.
    fn is_full(&self) -> bool
        ensures { result ≡ nat_le MAX_OBJECTS self.now.count }
    {
        self.count >= MAX_OBJECTS
    }
}

// Objects and processes in the order of their lines, and by what they are found.
#[derive(Drop)]
struct Kept {
    objects: ObjectList,
    procs: ProcList,
    // The objects by the hashes of their paths.
    chains: Chains,
    // Where the directory of the last object stands: it is mostly that of the next one.
    directory: Option<usize>,
    object_counts: Counts,
    proc_counts: Counts,
}

impl Kept {
    // No object and no process.
    fn new(alloc: Global) -> Kept
        ensures { IsEmpty result }
    {
        Kept {
            objects: List::new(alloc),
            procs: List::new(alloc),
            chains: Chains::new(alloc),
            directory: None,
            object_counts: LabelMap::new(alloc),
            proc_counts: LabelMap::new(alloc),
        }
    }

    // Puts an object there. Where memory runs out, it is there in part.
    fn put_object(
        &mut self,
        alloc: Global,
        object: WorldObject,
        spot: &Spot,
    ) -> Result<(), NoMemory>
        requires known { spot.now.count ≡ count_in self.old.object_counts object.label }
        requires room { spot.now.count < MAX_OBJECTS }
        ensures { OnOk result (HasObject self.old self.new object spot.now.hash) }
    {
        self.directory = spot.directory;
        self.chains.push(alloc, spot.hash)?;
        count_one(&mut self.object_counts, &object.label, spot.count)?;
        self.objects.push(object)?;
        Ok(())
    }

    // Puts a process after those before it. Where memory runs out, it is there in part.
    fn put_process(&mut self, process: WorldProc) -> Result<(), NoMemory>
        requires { count_in self.old.proc_counts process.label < MAX_OBJECTS }
        ensures { OnOk result (HasProcess self.old self.new process) }
    {
        let count = count_at(&self.proc_counts, &process.label);
        count_one(&mut self.proc_counts, &process.label, count)?;
        self.procs.push(process)?;
        Ok(())
    }
}

/// Objects and processes in the order of their lines, with chains of the objects by their paths and counts at each label, so
/// that no line is compared with all lines before it. They are kept on the heap, so that a world goes from line to line at once.
#[derive(Drop)]
pub struct WorldBuilder {
    kept: Box<Kept>,
}

impl Model for WorldBuilder {
    ghost use Rattle.world_text.specs.Tree.{Tree};
    ghost use Rattle.world_text.specs.Indexed.{IsIndexed, tree_of};
    ghost use Rattle.std.specs.Coded.{codes};
    ghost use Rattle.std.specs.FinSet as set;
    ghost use Rattle.cap_bits.specs.Cap.{cap_cmp, cap_code};
    ghost use Rattle.lab_lattice.specs.Label.{label_code};

    ghost Value = { Tree };

    ghost coded = { Prim.hlevel (codes, set.code {R = cap_cmp} cap_code, label_code) };

    ghost view = { λ d. tree_of d.kept.value };

    ghost invariant = { λ d. IsIndexed d.kept.value };
}

impl WorldBuilder {
    /// No object and no process.
    pub fn new(alloc: Global) -> Result<WorldBuilder, NoMemory>
        ensures { IfOk result (λ builder. builder ≡ record { objects = []; procs = [] }) }
    {
        let kept = Box::new(alloc, Kept::new(alloc))?;
        Ok(WorldBuilder { kept })
    }

    /// Whether there is no object.
    pub fn is_empty(&self) -> bool
        ensures { result ≡ (length self.now.objects == 0) }
    {
        self.kept.objects.items().is_empty()
    }

    // Where the object with a path of these names, which has this hash, stands.
    fn find(&self, names: &[Name], hash: u32) -> Option<usize>
        requires { hash ≡ path_hash names.now }
        ensures within { IfSome result (λ place. place < length self.now.objects) }
        ensures found { object_at self.now.objects result ≡ object_with_path self.now.objects names.now }
    {
        let objects = self.kept.objects.items();
        let mut count = objects.len();
        while let Some(place) = self.kept.chains.last_before(hash, count) {
            if has_path(&objects[place], names) {
                return Some(place);
            }
            count = place;
        }
        None
    }

    // Whether an object stands at this place that has a path of these names.
    fn is_at(&self, place: usize, names: &[Name]) -> bool
        ensures within { IsTrue result → place < length self.now.objects }
        ensures found { IsTrue result → slice_get self.now.objects place ≡ object_with_path self.now.objects names.now }
    {
        let objects = self.kept.objects.items();
        place < objects.len() && has_path(&objects[place], names)
    }

    // Where the object with a path of these names, which has this hash, stands. The directory of the last object is tried first.
    fn place_of(&self, names: &[Name], hash: u32) -> Option<usize>
        requires { hash ≡ path_hash names.now }
        ensures within { IfSome result (λ place. place < length self.now.objects) }
        ensures found { object_at self.now.objects result ≡ object_with_path self.now.objects names.now }
    {
        match self.kept.directory {
            Some(place) if self.is_at(place, names) => Some(place),
            _ => self.find(names, hash),
        }
    }

    // How many objects have a label.
    fn count_of(&mut self, label: &Label) -> usize
        ensures count { result ≡ objects_at label.now self.old.objects }
        ensures same { self.new ≡ self.old }
    {
        find_count(&mut self.kept.object_counts, label)
    }

    /// Where an object goes.
    pub fn spot_of(&mut self, object: &WorldObject) -> Spot
        ensures spot { IsSpot self.new object.now result }
        ensures same { self.new ≡ self.old }
    {
        let count = self.count_of(&object.label);
        self.spot_with(object, count)
    }

    // Where an object goes whose label so many have. The root has no directory.
    fn spot_with(&self, object: &WorldObject, count: usize) -> Spot
        requires { count ≡ objects_at object.now.label self.now.objects }
        ensures { IsSpot self.now object.now result }
    {
        let names = object.path.components();
        match names.split_last() {
            Some((name, above)) => {
                let mut hasher = hasher_of(above);
                let directory = self.place_of(above, hash_in(&hasher));
                hasher.write(name.bytes());
                let hash = hash_in(&hasher);
                Spot {
                    hash,
                    directory,
                    count,
                }
            }
            None => {
                let hash = hash_in(&hasher_of(names));
                Spot {
                    hash,
                    directory: None,
                    count,
                }
            }
        }
    }

    // Whether an object with this path, which has this hash, was given.
    fn is_given(&self, path: &Path, hash: u32) -> bool
        requires { hash ≡ path_hash path.now.names }
        ensures { result ≡ is_some (object_with_path self.now.objects path.now.names) }
    {
        self.find(path.components(), hash).is_some()
    }

    // What stands at a place, if it is one.
    fn entry_at(&self, place: Option<usize>) -> Option<PathEntry>
        requires { IfSome place (λ place. place < length self.now.objects) }
        ensures { result ≡ option_map path_entry_of (object_at self.now.objects place) }
    {
        let place = place?;
        Some(path_entry_of(&self.kept.objects.items()[place]))
    }

    // Whether no number of the label is left for a process.
    fn is_full_of_procs(&self, label: &Label) -> bool
        ensures { result ≡ nat_le MAX_PROCS (procs_at label.now self.now.procs) }
    {
        count_at(&self.kept.proc_counts, label) >= MAX_PROCS
    }

    /// Why an object can't come after those before it, if it can't.
    pub fn object_fault(&self, object: &WorldObject, spot: &Spot) -> Option<LineFault>
        requires { IsSpot self.now object.now spot.now }
        ensures { result ≡ object_fault self.now object.now }
    {
        if self.is_given(&object.path, spot.hash) {
            return Some(LineFault::Repeated);
        }
        let directory = self.entry_at(spot.directory);
        if !has_parent(object, &directory) {
            return Some(LineFault::NoParent);
        }
        if is_wrong_root(object) {
            return Some(LineFault::RootLabel);
        }
        if !is_above_entry(&object.label, &directory) {
            return Some(LineFault::LabelOrder);
        }
        if spot.is_full() {
            return Some(LineFault::TooMany);
        }
        None
    }

    /// Why a process can't come after those before it, if it can't.
    #[tactic(auto, unfolding(crate::specs::Placing::process_fault))]
    pub fn process_fault(&self, process: &WorldProc) -> Option<LineFault>
        ensures { result ≡ process_fault self.now process.now }
    {
        if self.is_empty() {
            return Some(LineFault::NoParent);
        }
        if self.is_full_of_procs(&process.label) {
            return Some(LineFault::TooMany);
        }
        None
    }

    /// Puts an object after those before it, where it goes. Where memory runs out, none is left.
    pub fn put_object(
        &mut self,
        alloc: Global,
        object: WorldObject,
        spot: &Spot,
    ) -> Result<(), NoMemory>
        requires spot { IsSpot self.old object spot.now }
        requires fits { object_fault self.old object ≡ None }
        ensures ok { OnOk result (self.new ≡ record self.old { objects = self.old.objects ++ object ∷ [] }) }
        ensures err { OnErr result (self.new ≡ record { objects = []; procs = [] }) }
    {
        match self.kept.put_object(alloc, object, spot) {
            Ok(()) => Ok(()),
            Err(error) => {
                *self.kept = Kept::new(alloc);
                Err(error)
            }
        }
    }

    /// Puts a process after those before it. Where memory runs out, none is left.
    pub fn put_process(&mut self, alloc: Global, process: WorldProc) -> Result<(), NoMemory>
        requires { process_fault self.old process ≡ None }
        ensures ok { OnOk result (self.new ≡ record self.old { procs = self.old.procs ++ process ∷ [] }) }
        ensures err { OnErr result (self.new ≡ record { objects = []; procs = [] }) }
    {
        match self.kept.put_process(process) {
            Ok(()) => Ok(()),
            Err(error) => {
                *self.kept = Kept::new(alloc);
                Err(error)
            }
        }
    }

    /// The objects and the processes.
    pub fn into_lists(self) -> (ObjectList, ProcList)
        ensures { result ≡ (self.objects, self.procs) }
    {
        let kept = Box::into_inner(self.kept);
        (kept.objects, kept.procs)
    }
}
