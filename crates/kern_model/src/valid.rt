// Whether a run may start from a world.
ghost use Rattle.std.specs.Prelude.{◌≡◌, ◌≤◌, true, false, [], nat_le, length, drop, take};
ghost use Rattle.std.specs.Option.{option_copied};
ghost use Rattle.std.specs.Bool.{Decides};
ghost use Rattle.std.specs.List.{All, list_all};
ghost use Rattle.cap_bits.specs.FileCaps.{no_file_caps};
ghost use Rattle.lab_lattice.specs.Label.{bottom, dominates};
ghost use Rattle.kern_model.specs.declared.objects.Body.TheVariants as body;
ghost use Rattle.kern_model.specs.declared.world.WorldObject.{WorldObject};
ghost use Rattle.kern_model.specs.declared.world.WorldProc.{WorldProc};
ghost use Rattle.kern_model.specs.Kinds.{is_file, kind_of, bytes_of};
ghost use Rattle.kern_model.specs.World.{objects_at, procs_at, same_names, parent_names, object_with_path, IsPlaced, ArePlaced, IsWorldObject, AreOne, IsWorldProc, HasRoom, IsWorld};

use crate::limits::{MAX_FILE_BYTES, MAX_GROUPS, MAX_OBJECTS, MAX_PROCS};
use crate::{Body, Ids, Name, World, WorldObject, WorldProc};
use cap_bits::{CapSet, FileCaps};
use fs_path::is_mode;
use lab_lattice::{Label, Lattice, bottom};

// Whether two paths have the same names.
fn same_names(a: &[Name], b: &[Name]) -> bool
    ensures { result ≡ same_names a.now b.now }
{
    a == b
}

// The first of these objects whose path has these names.
fn object_with_path<'a>(objects: &'a [WorldObject], names: &[Name]) -> Option<&'a WorldObject>
    ensures { option_copied result ≡ object_with_path objects.now names.now }
{
    objects
        .iter()
        .find(|object| same_names(object.path.components(), names))
}

// All names but the last.
#[tactic(auto, using(crate::proofs::WorldLemmas::parents_are_taken))]
fn parent_names(names: &[Name]) -> &[Name]
    ensures { result.now ≡ parent_names names.now }
{
    match names {
        [parents @ .., _] => parents,
        [] => names,
    }
}

// Whether an object may stand in another one: a directory whose label its own dominates.
fn may_hold(parent: &WorldObject, object: &WorldObject) -> bool
    ensures { Decides result ((parent.now.body ≡ body.Dir) × (dominates object.now.label parent.now.label ≡ true)) }
{
    matches!(parent.body, Body::Dir) && object.label.dominates(&parent.label)
}

// Whether an object may come after others.
fn is_placed(before: &[WorldObject], object: &WorldObject) -> bool
    ensures { Decides result (IsPlaced before.now object.now) }
{
    let names = object.path.components();
    if object_with_path(before, names).is_some() {
        return false;
    }
    match object_with_path(before, parent_names(names)) {
        Some(parent) => may_hold(parent, object),
        None => false,
    }
}

// Whether each object but the first may come after those before it.
fn are_placed(objects: &[WorldObject]) -> bool
    requires { 1 ≤ length objects.now }
    ensures { Decides result (ArePlaced (take 1 objects.now) (drop 1 objects.now)) }
{
    for place in 1..objects.len() {
        if !is_placed(&objects[..place], &objects[place]) {
            return false;
        }
    }
    true
}

// Whether a file with these capabilities has none.
fn has_no_caps(caps: &FileCaps) -> bool
    ensures { Decides result (caps.now ≡ no_file_caps) }
{
    caps.p == CapSet::none() && caps.i == CapSet::none()
}

// Whether an object may hold what it does: only a file has bytes and capabilities.
fn may_be_held(held: &Body, caps: &FileCaps) -> bool
    ensures { Decides result ((length (bytes_of held.now) ≤ MAX_FILE_BYTES) × (held.now ≡ body.Pipe → ⊥) × (is_file (kind_of held.now) ≡ false → caps.now ≡ no_file_caps)) }
{
    match held {
        Body::File(bytes) => bytes.items().len() <= MAX_FILE_BYTES,
        Body::Dir | Body::Fifo => has_no_caps(caps),
        Body::Pipe => false,
    }
}

// Whether an object is as those of a world have to be.
fn is_world_object(top: &Label, object: &WorldObject) -> bool
    ensures { Decides result (IsWorldObject top.now object.now) }
{
    object.path.absolute
        && is_mode(object.attr.mode)
        && top.dominates(&object.label)
        && may_be_held(&object.body, &object.attr.caps)
}

// Whether a process has one user and one group.
fn are_one(ids: &Ids) -> bool
    ensures { Decides result (AreOne ids.now) }
{
    ids.ruid == ids.euid && ids.suid == ids.euid && ids.rgid == ids.egid && ids.sgid == ids.egid
}

// Whether a process is as those of a world have to be.
fn is_world_proc(top: &Label, process: &WorldProc) -> bool
    ensures { Decides result (IsWorldProc top.now process.now) }
{
    are_one(&process.ids)
        && process.ids.groups.items().len() <= MAX_GROUPS
        && top.dominates(&process.label)
        && process.caps.e.within(&process.caps.p)
}

// How many objects have a label.
fn objects_at(label: &Label, objects: &[WorldObject]) -> usize
    ensures { result ≡ objects_at label.now objects.now }
{
    objects
        .iter()
        .filter(|object| object.label.equal(label))
        .count()
}

// How many processes have a label.
fn procs_at(label: &Label, procs: &[WorldProc]) -> usize
    ensures { result ≡ procs_at label.now procs.now }
{
    procs
        .iter()
        .filter(|process| process.label.equal(label))
        .count()
}

// Whether there are numbers for all objects.
fn have_object_numbers(objects: &[WorldObject]) -> bool
    ensures { result ≡ list_all (λ (o : WorldObject). nat_le (objects_at o.label objects.now) MAX_OBJECTS) objects.now }
{
    objects
        .iter()
        .all(|object| objects_at(&object.label, objects) <= MAX_OBJECTS)
}

// Whether there are numbers for all processes.
fn have_proc_numbers(procs: &[WorldProc]) -> bool
    ensures { result ≡ list_all (λ (p : WorldProc). nat_le (procs_at p.label procs.now) MAX_PROCS) procs.now }
{
    procs
        .iter()
        .all(|process| procs_at(&process.label, procs) <= MAX_PROCS)
}

// Whether there are numbers for all objects and processes.
fn has_room(world: &World) -> bool
    ensures { Decides result (HasRoom world.now) }
{
    have_object_numbers(world.objects.items()) && have_proc_numbers(world.procs.items())
}

// Whether each object is as those of a world have to be.
fn are_world_objects(top: &Label, objects: &[WorldObject]) -> bool
    ensures { Decides result (All (IsWorldObject top.now) objects.now) }
{
    for object in objects {
        if !is_world_object(top, object) {
            return false;
        }
    }
    true
}

// Whether each process is as those of a world have to be.
fn are_world_procs(top: &Label, procs: &[WorldProc]) -> bool
    ensures { Decides result (All (IsWorldProc top.now) procs.now) }
{
    for process in procs {
        if !is_world_proc(top, process) {
            return false;
        }
    }
    true
}

// Whether objects and processes are as those of a world have to be, and there are numbers for all of them.
fn has_parts(world: &World) -> bool
    ensures { Decides result (All (IsWorldObject world.now.top) world.now.objects × All (IsWorldProc world.now.top) world.now.procs × HasRoom world.now) }
{
    are_world_objects(&world.top, world.objects.items())
        && are_world_procs(&world.top, world.procs.items())
        && has_room(world)
}

fn is_lowest(label: &Label) -> bool
    ensures { Decides result (label.now ≡ bottom) }
{
    bottom().dominates(label)
}

// Whether an object may be the root: a directory of the lowest label, with no names.
fn may_be_root(object: &WorldObject) -> bool
    ensures { Decides result ((object.now.path.names ≡ []) × (object.now.body ≡ body.Dir) × (object.now.label ≡ bottom)) }
{
    matches!(object.body, Body::Dir)
        && object.path.components().is_empty()
        && is_lowest(&object.label)
}

/// Whether a run may start from a world. The program does not call it: `world_text` judges a world as it is read.
///
/// It takes no memory, and so it looks for the directory of each object among all objects before it, and counts those of each
/// label anew: its time grows with the square of the number of objects.
pub fn world_valid(world: &World) -> bool
    ensures { Decides result (IsWorld world.now) }
{
    let objects = world.objects.items();
    let [first, ..] = objects else {
        return false;
    };
    if !may_be_root(first) {
        return false;
    }
    are_placed(objects) && has_parts(world)
}
