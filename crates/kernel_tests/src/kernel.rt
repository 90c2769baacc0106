// What no clause says: that with ample memory a world starts. What calls answer is tried by the cases.
ghost use Rattle.std.specs.Prelude.{IfSome};
ghost use Rattle.kern_model.specs.World.{IsWorld};

use cap_bits::{Cap, CapSet, CapState, FileCaps};
use kern_core::Kernel;
use kern_model::{
    Attr, Body, ByteList, GroupList, Ids, Mode, ObjectList, Path, Pid, ProcList, Rec, RecList,
    World, WorldObject, WorldProc, world_valid,
};
use lab_lattice::{Cats, Label, Level, Pair, bottom};
use std::alloc::Global;

const OWNER: u32 = 7;

fn attr(mode: Mode) -> Attr {
    Attr {
        owner: OWNER,
        group: OWNER,
        mode,
        caps: FileCaps::none(),
    }
}

fn root(alloc: Global) -> WorldObject {
    WorldObject {
        path: Path::root(alloc),
        label: bottom(),
        attr: attr(0o755),
        body: Body::Dir,
    }
}

fn file(alloc: Global, bytes: &[u8], label: Label) -> Option<WorldObject> {
    let path = Path::read(alloc, bytes).ok()?;
    Some(WorldObject {
        path,
        label,
        attr: attr(0o644),
        body: Body::File(ByteList::new(alloc)),
    })
}

fn process(alloc: Global, label: Label, caps: CapSet) -> WorldProc {
    WorldProc {
        label,
        ids: Ids {
            ruid: OWNER,
            euid: OWNER,
            suid: OWNER,
            rgid: OWNER,
            egid: OWNER,
            sgid: OWNER,
            groups: GroupList::new(alloc),
        },
        caps: CapState {
            e: caps,
            i: CapSet::none(),
            p: caps,
        },
    }
}

// Adds a root, and in it a file of the lowest label and one of the highest.
fn add_objects(alloc: Global, objects: &mut ObjectList, top: Label) -> Option<()> {
    objects.push(root(alloc)).ok()?;
    objects.push(file(alloc, b"/low", bottom())?).ok()?;
    objects.push(file(alloc, b"/high", top)?).ok()
}

// Adds a process of the highest label, and two of the lowest, of which the second has these capabilities.
fn add_procs(alloc: Global, procs: &mut ProcList, top: Label, caps: CapSet) -> Option<()> {
    procs.push(process(alloc, top, CapSet::none())).ok()?;
    procs.push(process(alloc, bottom(), CapSet::none())).ok()?;
    procs.push(process(alloc, bottom(), caps)).ok()
}

// Fills a world with these.
fn fill(alloc: Global, world: &mut World, caps: CapSet) -> Option<()> {
    add_objects(alloc, &mut world.objects, world.top)?;
    add_procs(alloc, &mut world.procs, world.top, caps)
}

fn world(alloc: Global, top: Label, caps: CapSet) -> Option<World>
    ensures { IfSome result (λ w. IsWorld w) }
{
    let mut world = World {
        top,
        bound: CapSet::none(),
        objects: ObjectList::new(alloc),
        procs: ProcList::new(alloc),
    };
    if fill(alloc, &mut world, caps).is_some() && world_valid(&world) {
        return Some(world);
    }
    None
}

// The capability of the second process of the lowest label.
fn mac_read() -> CapSet {
    CapSet::none().with(Cap::MacRead)
}

fn booted(alloc: Global) -> Option<(Kernel, RecList)> {
    Kernel::boot(alloc, &world(alloc, top()?, mac_read())?).ok()
}

// The highest label of the world.
fn top() -> Option<Label> {
    let first = Pair {
        first: Level::new(3)?,
        second: Cats::empty(),
    };
    Some(Pair {
        first,
        second: bottom().second,
    })
}

// The number of a process of the lowest label.
fn low(n: u16) -> Pid {
    Pid { label: bottom(), n }
}

// Whether the record is of a process that starts.
fn starts(rec: &Rec, by: Pid, caps: CapState) -> bool {
    match rec {
        Rec::Boot {
            who,
            label,
            caps: sets,
        } => *who == by && *label == by.label && *sets == caps,
        _ => false,
    }
}

// Whether the records are of the processes that start: two of three are of this one and of the first of the lowest label.
fn start_world(recs: &RecList, first: Pid) -> bool {
    match recs.items() {
        [a, b, _] => starts(a, first, CapState::none()) && starts(b, low(1), CapState::none()),
        _ => false,
    }
}

// Whether these are the living processes.
fn are_living(kernel: &Kernel, numbers: &[Pid]) -> bool {
    match kernel.live() {
        Ok(living) => living.items() == numbers,
        Err(_) => false,
    }
}

// Whether the kernel has started, with these records.
fn has_started(kernel: &Kernel, recs: &RecList) -> Option<bool> {
    let label = top()?;
    let first = Pid { label, n: 1 };
    Some(
        start_world(recs, first)
            && are_living(kernel, &[low(1), low(2), first])
            && kernel.label_of(&low(3)).is_none()
            && !kernel.failed(),
    )
}

fn start(alloc: Global) -> Option<bool> {
    let (kernel, recs) = booted(alloc)?;
    has_started(&kernel, &recs)
}

#[test]
fn a_small_world_starts(rt: HostRuntime) {
    assert!(rt; start(rt.alloc()) == Some(true));
}
