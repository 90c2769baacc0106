// What no clause says: that the calls succeed with ample memory.
use cap_bits::{Cap, CapSet, CapState, FileCaps};
use kern_model::{GroupList, Ids, NoMemory};
use proc_creds::{Creds, NotAllowed};
use std::alloc::Global;

// Credentials without effective and permitted capabilities, whose inheritable set is this.
fn creds(alloc: Global, inheritable: CapSet) -> Creds {
    let none = CapSet::none();
    Creds {
        ids: Ids {
            ruid: 1,
            euid: 2,
            suid: 3,
            rgid: 4,
            egid: 5,
            sgid: 6,
            groups: GroupList::new(alloc),
        },
        label: lab_lattice::bottom(),
        caps: CapState {
            e: none,
            i: inheritable,
            p: none,
        },
        umask: 18,
    }
}

// Whether a permitted capability is refused, and changes nothing.
fn grow_by_nothing(creds: &mut Creds) -> bool {
    let own = creds.caps;
    let grown = CapState { p: own.i, ..own };
    creds.cap_set(grown) == Err(NotAllowed)
        && creds.caps == own
        && creds.cap_set(CapState::none()) == Ok(())
}

fn grow(alloc: Global) -> bool {
    grow_by_nothing(&mut creds(alloc, CapSet::none().with(Cap::Kill)))
}

#[test]
fn sets_grow_by_nothing(rt: HostRuntime) {
    assert!(rt; grow(rt.alloc()));
}

// Whether exec of a file that permits a capability within the bound gives it, effective exactly where the flag is on.
fn is_given(alloc: Global, raised: bool) -> bool {
    let kill = CapSet::none().with(Cap::Kill);
    let Some(file) = FileCaps::from_state(&CapState {
        e: if raised { kill } else { CapSet::none() },
        i: CapSet::none(),
        p: kill,
    }) else {
        return false;
    };
    let mut creds = creds(alloc, CapSet::none());
    creds.exec_transform(&file, &kill, None, None);
    creds.caps.p == kill && creds.caps.e.has(Cap::Kill) == raised
}

#[test]
fn flag_makes_effective(rt: HostRuntime) {
    assert!(rt; is_given(rt.alloc(), true));
    assert!(rt; is_given(rt.alloc(), false));
}

fn is_copied(creds: &Creds) -> Result<bool, NoMemory> {
    let copy = creds.copy()?;
    Ok(copy.ids.egid == 5 && copy.umask == 18)
}

fn ids_are_copied(ids: &Ids) -> Result<bool, NoMemory> {
    let copy = ids.copy()?;
    Ok(copy.ruid == 1 && copy.sgid == 6 && copy.groups.items().is_empty())
}

fn copies(alloc: Global) -> Result<bool, NoMemory> {
    let creds = creds(alloc, CapSet::none());
    Ok(is_copied(&creds)? && ids_are_copied(&creds.ids)?)
}

#[test]
fn credentials_are_copied(rt: HostRuntime) {
    assert!(rt; copies(rt.alloc()) == Ok(true));
}
