// Worlds, and whether each is valid; places and endings as they are written.
use cap_bits::{CapSet, CapState, FileCaps};
use fs_path::{ByteList, PathError};
use kern_model::*;
use lab_lattice::{Cats, Label, Level, Pair, bottom};
use std::alloc::Global;

fn label(level: u8) -> Label {
    let first = Pair {
        first: Level::new(level).unwrap_or(Level::lowest()),
        second: Cats::empty(),
    };
    Label {
        first,
        second: bottom().second,
    }
}

// The path of an object, its level and its kind.
type Made<'a> = (&'a [u8], u8, Kind);

fn body(alloc: Global, kind: Kind) -> Body {
    match kind {
        Kind::Dir => Body::Dir,
        Kind::File => Body::File(ByteList::new(alloc)),
        Kind::Fifo => Body::Fifo,
        Kind::Pipe => Body::Pipe,
    }
}

// Adds an object to those of a world.
fn add(
    alloc: Global,
    objects: &mut ObjectList,
    (path, level, kind): Made,
) -> Result<(), PathError> {
    let path = Path::read(alloc, path)?;
    objects.push(WorldObject {
        path,
        label: label(level),
        attr: Attr {
            owner: 0,
            group: 0,
            mode: 0o644,
            caps: FileCaps::none(),
        },
        body: body(alloc, kind),
    })?;
    Ok(())
}

fn process(alloc: Global, suid: u32) -> WorldProc {
    WorldProc {
        label: label(2),
        ids: Ids {
            ruid: 1,
            euid: 1,
            suid,
            rgid: 5,
            egid: 5,
            sgid: 5,
            groups: GroupList::new(alloc),
        },
        caps: CapState::none(),
    }
}

// A root, and a file in a directory above it.
const OBJECTS: [Made; 3] = [
    (b"/", 0, Kind::Dir),
    (b"/d", 1, Kind::Dir),
    (b"/d/f", 2, Kind::File),
];

fn add_all(alloc: Global, objects: &mut ObjectList) -> Result<(), PathError> {
    for made in &OBJECTS {
        add(alloc, objects, *made)?;
    }
    Ok(())
}

fn world(alloc: Global) -> Result<World, PathError> {
    let mut world = World {
        top: label(2),
        bound: CapSet::all(),
        objects: ObjectList::new(alloc),
        procs: ProcList::new(alloc),
    };
    add_all(alloc, &mut world.objects)?;
    Ok(world)
}

// Whether the world is valid with this object besides.
fn is_valid_with(alloc: Global, made: Made) -> Result<bool, PathError> {
    let mut world = world(alloc)?;
    add(alloc, &mut world.objects, made)?;
    Ok(world_valid(&world))
}

// Whether the world is valid with a process whose saved user is this.
fn is_valid_for(alloc: Global, suid: u32) -> Result<bool, PathError> {
    let mut world = world(alloc)?;
    world.procs.push(process(alloc, suid))?;
    Ok(world_valid(&world))
}

// Further objects, and whether the world is valid with each.
const FURTHER: [(Made, bool); 6] = [
    ((b"/p", 0, Kind::Fifo), true),
    ((b"/p", 3, Kind::Fifo), false),
    ((b"/p", 0, Kind::Pipe), false),
    ((b"/d", 1, Kind::Dir), false),
    ((b"/d/p", 0, Kind::Fifo), false),
    ((b"/d/f/g", 2, Kind::Fifo), false),
];

#[test]
fn objects(rt: HostRuntime) {
    for (made, valid) in &FURTHER {
        assert!(rt; is_valid_with(rt.alloc(), *made) == Ok(*valid));
    }
}

#[test]
fn processes(rt: HostRuntime) {
    assert!(rt; is_valid_for(rt.alloc(), 1) == Ok(true));
    assert!(rt; is_valid_for(rt.alloc(), 2) == Ok(false));
}

fn is_place(alloc: Global, place: Place, word: &[u8]) -> bool {
    let mut text = Vec::new(alloc);
    put_place(&mut text, place).is_ok() && text.as_slice() == word
}

#[test]
fn places(rt: HostRuntime) {
    assert!(rt; is_place(rt.alloc(), Place::First(0), b"p0"));
    assert!(rt; is_place(rt.alloc(), Place::Second(31), b"q31"));
    assert!(rt; is_place(rt.alloc(), Place::Handle, b"fd"));
    assert!(rt; is_place(rt.alloc(), Place::Target, b"pid"));
    assert!(rt; is_place(rt.alloc(), Place::Caller, b"self"));
}

fn is_ending(alloc: Global, ending: Ending, words: &[u8]) -> bool {
    let mut text = Vec::new(alloc);
    put_ending(&mut text, ending).is_ok() && text.as_slice() == words
}

#[test]
fn endings(rt: HostRuntime) {
    assert!(rt; is_ending(rt.alloc(), Ending::Exit(255), b"exit 255"));
    assert!(rt; is_ending(rt.alloc(), Ending::Term, b"kill TERM"));
    assert!(rt; is_ending(rt.alloc(), Ending::Kill, b"kill KILL"));
}
