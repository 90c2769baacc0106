// What no clause says: that the calls succeed with ample memory.
use cap_bits::CapState;
use kern_model::{GroupList, Ids, Mode, Oid, Pid};
use lab_lattice::bottom;
use proc_creds::Creds;
use proc_table::{ProcError, Procs};
use std::alloc::Global;

fn creds(alloc: Global) -> Creds {
    Creds {
        ids: Ids {
            ruid: 1,
            euid: 2,
            suid: 3,
            rgid: 4,
            egid: 5,
            sgid: 6,
            groups: GroupList::new(alloc),
        },
        label: bottom(),
        caps: CapState::none(),
        umask: 18,
    }
}

fn directory(n: u16) -> Oid {
    Oid { label: bottom(), n }
}

// Whether a process lives, is in this directory and has this mask.
fn is_in(procs: &Procs, who: &Pid, cwd: Oid, umask: Mode) -> bool {
    match procs.find(who) {
        Some(process) => process.cwd == cwd && process.creds.umask == umask,
        None => false,
    }
}

// Whether a process lives, its switch is on, and it has no parent.
fn is_first(procs: &Procs, who: &Pid) -> bool {
    match procs.find(who) {
        Some(process) => process.audited && process.parent.is_none(),
        None => false,
    }
}

// Whether these are the living processes.
fn are_living(procs: &Procs, numbers: &[Pid]) -> bool {
    match procs.live() {
        Ok(living) => living.items() == numbers,
        Err(_) => false,
    }
}

// Has a living process go to another directory.
fn set_cwd(procs: &mut Procs, who: &Pid, cwd: Oid) {
    if let Some(_) = procs.find(who) {
        procs.set_cwd(who, cwd);
    }
}

// Gives a living process another mask.
fn set_umask(procs: &mut Procs, who: &Pid, umask: Mode) {
    if let Some(creds) = procs.creds_mut(who) {
        creds.umask = umask;
    }
}

// Whether a process goes on from its start.
fn go_on(procs: &mut Procs, who: &Pid) -> bool {
    if !is_first(procs, who) || !is_in(procs, who, directory(1), 18) {
        return false;
    }
    set_cwd(procs, who, directory(2));
    set_umask(procs, who, 7);
    is_in(procs, who, directory(2), 7) && are_living(procs, &[*who])
}

fn goes_on(alloc: Global) -> Result<bool, ProcError> {
    let mut procs = Procs::new(alloc);
    let who = procs.boot(creds(alloc), directory(1))?;
    Ok(go_on(&mut procs, &who))
}

#[test]
fn process_starts_and_goes_on(rt: HostRuntime) {
    assert!(rt; goes_on(rt.alloc()) == Ok(true));
}

// Forks a living process.
fn fork(procs: &mut Procs, who: &Pid) -> Result<(), ProcError> {
    if let Some(_) = procs.find(who) {
        procs.fork(who)?;
    }
    Ok(())
}

// To what the next fork of a process comes after so many.
fn fork_after(procs: &mut Procs, who: &Pid, times: u32) -> Result<(), ProcError> {
    for _ in 0..times {
        fork(procs, who)?;
    }
    fork(procs, who)
}

fn next_fork(alloc: Global, after: u32) -> Result<(), ProcError> {
    let mut procs = Procs::new(alloc);
    let who = procs.boot(creds(alloc), directory(1))?;
    fork_after(&mut procs, &who, after)
}

#[test]
fn label_has_4095_processes(rt: HostRuntime) {
    assert!(rt; next_fork(rt.alloc(), 4_093) == Ok(()));
    assert!(rt; next_fork(rt.alloc(), 4_094) == Err(ProcError::Full));
}
