// The capabilities that a world has and that a run used, and calls that ask for capability sets.
ghost use Rattle.std.specs.Prelude.{◌≡◌};
ghost use Rattle.least_caps.specs.Asks.{asks};
ghost use Rattle.least_caps.specs.Named.{exercised, named, union_over};
ghost use Rattle.least_caps.specs.Stands.{object_caps, process_caps, stands};

use cap_bits::CapSet;
use kern_model::{Call, Rec, RecList, World, WorldObject, WorldProc};

// The capability that a record names as exercised, alone.
fn exercised(rec: &Rec) -> CapSet
    ensures { result ≡ exercised rec.now }
{
    match rec {
        Rec::Exercise(exercise) => CapSet::none().with(exercise.cap),
        _ => CapSet::none(),
    }
}

/// The capabilities that the exercises among records name.
pub fn named(recs: &RecList) -> CapSet
    ensures { result ≡ named recs.now }
{
    let mut caps = CapSet::none();
    for rec in recs.items() {
        caps = caps.union(exercised(rec));
    }
    caps
}

// The capabilities of an object.
fn object_caps(object: &WorldObject) -> CapSet
    ensures { result ≡ object_caps object.now }
{
    object.attr.caps.p.union(object.attr.caps.i)
}

// The capabilities of a process, in any of its sets.
fn process_caps(process: &WorldProc) -> CapSet
    ensures { result ≡ process_caps process.now }
{
    let caps = &process.caps;
    caps.e.union(caps.i).union(caps.p)
}

// The capabilities of objects.
fn objects_caps(objects: &[WorldObject]) -> CapSet
    ensures { result ≡ union_over object_caps objects.now }
{
    let mut caps = CapSet::none();
    for object in objects {
        caps = caps.union(object_caps(object));
    }
    caps
}

// The capabilities of processes.
fn processes_caps(processes: &[WorldProc]) -> CapSet
    ensures { result ≡ union_over process_caps processes.now }
{
    let mut caps = CapSet::none();
    for process in processes {
        caps = caps.union(process_caps(process));
    }
    caps
}

/// The capabilities that stand anywhere in a world: in the bound, in a set of a file or in a set of a process.
pub fn stands(world: &World) -> CapSet
    ensures { result ≡ stands world.now }
{
    world
        .bound
        .union(objects_caps(world.objects.items()))
        .union(processes_caps(world.procs.items()))
}

/// Whether a call asks for capability sets, or sets them.
pub fn asks(call: &Call) -> bool
    ensures { result ≡ asks call.now }
{
    matches!(
        call,
        Call::CapGetFile(_)
            | Call::CapSetFile(_, _)
            | Call::CapGetFd(_)
            | Call::CapSetFd(_, _)
            | Call::CapGetProc
            | Call::CapSetProc(_)
    )
}
