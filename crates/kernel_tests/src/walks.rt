// What no clause says: that with ample memory a walk finds, and how it stops. Whole walks are tried by the cases.
use cap_bits::{CapSet, CapState, FileCaps};
use chk_rules::Checks;
use fd_table::FdTable;
use fs_dirs::{Tree, root_directory};
use kern_model::{Attr, Body, ByteList, CheckName, GroupList, Ids, Mode, Path, Pid, Place};
use lab_lattice::bottom;
use proc_creds::Creds;
use proc_table::Procs;
use std::alloc::Global;
use sys_lookup::{Caller, Found, Shared, WalkStop, walk};

const OWNER: u32 = 1;

const CALLER: u32 = 7;

// The attributes of an object of the owner.
fn attr(mode: Mode) -> Attr {
    Attr {
        owner: OWNER,
        group: OWNER,
        mode,
        caps: FileCaps::none(),
    }
}

// The credentials of the caller, who is not the owner.
fn creds(alloc: Global) -> Creds {
    let none = CapSet::none();
    Creds {
        ids: Ids {
            ruid: CALLER,
            euid: CALLER,
            suid: CALLER,
            rgid: CALLER,
            egid: CALLER,
            sgid: CALLER,
            groups: GroupList::new(alloc),
        },
        label: bottom(),
        caps: CapState {
            e: none,
            i: none,
            p: none,
        },
        umask: 0o022,
    }
}

// The state of this tree and these processes, which have no descriptors.
fn state(alloc: Global, tree: Tree, procs: Procs) -> Shared {
    Shared {
        tree,
        fds: FdTable::new(alloc),
        procs,
        bound: CapSet::none(),
        top: bottom(),
    }
}

// A root directory of this mode, and a process that starts in a file without a name.
fn started(alloc: Global, mode: Mode) -> Option<Shared> {
    let mut tree = Tree::new(alloc, attr(mode)).ok()?;
    let body = Body::File(ByteList::new(alloc));
    let file = tree.create(bottom(), attr(0o644), body).ok()?;
    let mut procs = Procs::new(alloc);
    procs.boot(creds(alloc), file).ok()?;
    Some(state(alloc, tree, procs))
}

// The walk of a path of the process.
fn walked<'a>(
    alloc: Global,
    shared: &Shared,
    path: &'a Path,
    second: bool,
) -> Option<Result<Found<'a>, WalkStop>> {
    let who = Pid {
        label: bottom(),
        n: 1,
    };
    let Some(caller) = Caller::find(shared, &who) else {
        return None;
    };
    let mut checks = Checks::new(alloc, who, caller.label(), caller.caps().e);
    Some(walk(shared, &mut checks, &who, path, second))
}

// Whether a walk found where it starts, the root.
fn is_root(walk: &Result<Found<'_>, WalkStop>) -> bool {
    match walk {
        Ok(Found::Start(id)) => *id == root_directory(),
        _ => false,
    }
}

// Whether a walk found this name in the root, and no object that has it.
fn is_absent(walk: &Result<Found<'_>, WalkStop>, name: &[u8]) -> bool {
    match walk {
        Ok(Found::Entry(dir, last, None)) => *dir == root_directory()
            && last.name().bytes() == name,
        _ => false,
    }
}

// Whether the search of the directory at this place was denied.
fn is_denied_at(walk: &Result<Found<'_>, WalkStop>, place: Place) -> bool {
    match walk {
        Err(WalkStop::Denied(CheckName::DacSearch, at)) => *at == place,
        _ => false,
    }
}

// Whether walks find the root, and a name without an object.
fn finds(alloc: Global, shared: &Shared) -> Option<bool> {
    let root = Path::read(alloc, b"/").ok()?;
    let start = walked(alloc, shared, &root, false)?;
    let absent = Path::read(alloc, b"/x").ok()?;
    let entry = walked(alloc, shared, &absent, false)?;
    Some(is_root(&start) && is_absent(&entry, b"x"))
}

// Whether walks stop at a name that is absent and not the last, and at a file.
fn stops(alloc: Global, shared: &Shared) -> Option<bool> {
    let below_absent = Path::read(alloc, b"/x/y").ok()?;
    let missing = walked(alloc, shared, &below_absent, false)?;
    let below_file = Path::read(alloc, b"x").ok()?;
    let file = walked(alloc, shared, &below_file, false)?;
    Some(matches!(&missing, Err(WalkStop::Missing)) && matches!(&file, Err(WalkStop::NotDir)))
}

// Whether walks of a first and of a second path are denied at their first place.
fn denies(alloc: Global, shared: &Shared) -> Option<bool> {
    let path = Path::read(alloc, b"/x").ok()?;
    let first = walked(alloc, shared, &path, false)?;
    let second = walked(alloc, shared, &path, true)?;
    Some(is_denied_at(&first, Place::First(0)) && is_denied_at(&second, Place::Second(0)))
}

fn tried_in_open(alloc: Global) -> Option<bool> {
    let shared = started(alloc, 0o755)?;
    Some(finds(alloc, &shared)? && stops(alloc, &shared)?)
}

fn tried_in_closed(alloc: Global) -> Option<bool> {
    let shared = started(alloc, 0o700)?;
    denies(alloc, &shared)
}

#[test]
fn a_walk_finds_what_is_there_and_stops_where_it_has_to(rt: HostRuntime) {
    assert!(rt; tried_in_open(rt.alloc()) == Some(true));
}

#[test]
fn a_denied_walk_names_its_check_and_place(rt: HostRuntime) {
    assert!(rt; tried_in_closed(rt.alloc()) == Some(true));
}
