// Whether nothing ever crosses a label.
ghost use Rattle.std.specs.Prelude.{◌≡◌, IfOk};
ghost use Rattle.std.specs.List.{list_all, list_any};
ghost use Rattle.lab_lattice.specs.Label.{Label};
ghost use Rattle.ever_caps.specs.Crossing.{crossing_labels, gives_to, has_upward, is_left_by, may_cross, may_give, may_have_by, program_of, programs};
ghost use Rattle.ever_caps.specs.Uncrossed.{is_above, is_uncrossed, upward_caps};

use crate::sets::{mac_ever, program_permits};
use cap_bits::{Cap, CapSet, CapState};
use kern_model::{NoMemory, World, WorldObject, WorldProc};
use lab_lattice::{Label, Lattice};
use std::alloc::Global;

// Whether a label is strictly above another.
fn is_above(label: &Label, other: &Label) -> bool
    ensures { result ≡ is_above label.now other.now }
{
    label.dominates(other) && !other.dominates(label)
}

// The two of the five capabilities over labels that only read, and that only move an object up.
fn upward_caps() -> CapSet
    ensures { result ≡ upward_caps }
{
    CapSet::none().with(Cap::MacRead).with(Cap::MacUpgrade)
}

// A file, as it concerns the processes that may execute it.
#[derive(Clone, Copy)]
struct Program {
    label: Label,
    caps: CapState,
}

// Whether a set has one of the two capabilities.
fn has_upward(caps: CapSet) -> bool
    ensures { result ≡ has_upward caps }
{
    caps.has(Cap::MacRead) || caps.has(Cap::MacUpgrade)
}

impl Program {
    // A file of a world.
    fn new(object: &WorldObject) -> Program
        ensures { result ≡ program_of object.now }
    {
        Program {
            label: object.label,
            caps: object.attr.caps.shown(),
        }
    }

    // Whether it may give one of the two capabilities to some process or other.
    fn may_give(&self) -> bool
        ensures { result ≡ may_give self.now }
    {
        has_upward(self.caps.p.union(self.caps.i))
    }

    // Whether it gives a capability to a process whose label dominates its own.
    fn gives_to(&self, cap: Cap, bound: CapSet, process: &WorldProc) -> bool
        ensures { result ≡ gives_to cap bound process.now self.now }
    {
        process.label.dominates(&self.label)
            && program_permits(&process.caps, &self.caps, bound).has(cap)
    }
}

// The files of a world that may give one of the two capabilities.
fn programs(alloc: Global, world: &World) -> Result<Vec<Program>, NoMemory>
    ensures { IfOk result (λ found. found.items ≡ programs world.now.objects) }
{
    let mut found = Vec::new(alloc);
    for object in world.objects.items() {
        let program = Program::new(object);
        if program.may_give() {
            found.push(program)?;
        }
    }
    Ok(found)
}

// Whether one of these programs gives a capability to a process.
fn is_given(cap: Cap, bound: CapSet, programs: &[Program], process: &WorldProc) -> bool
    ensures { result ≡ list_any (gives_to cap bound process.now) programs.now }
{
    programs
        .iter()
        .any(|program| program.gives_to(cap, bound, process))
}

// Whether a process has a capability effective or permitted, or a program gives it the capability.
fn may_have(cap: Cap, bound: CapSet, programs: &[Program], process: &WorldProc) -> bool
    ensures { result ≡ may_have_by cap bound programs.now process.now }
{
    process.caps.e.union(process.caps.p).has(cap) || is_given(cap, bound, programs, process)
}

// Whether a process may have one of the two capabilities.
fn may_cross(bound: CapSet, programs: &[Program], process: &WorldProc) -> bool
    ensures { result ≡ may_cross bound programs.now process.now }
{
    may_have(Cap::MacRead, bound, programs, process)
        || may_have(Cap::MacUpgrade, bound, programs, process)
}

// The labels of the processes that may.
fn crossing_labels(
    alloc: Global,
    world: &World,
    programs: &[Program],
) -> Result<Vec<Label>, NoMemory>
    ensures { IfOk result (λ labels. labels.items
        ≡ crossing_labels world.now.bound programs.now world.now.procs) }
{
    let mut labels = Vec::new(alloc);
    for process in world.procs.items() {
        if may_cross(world.bound, programs, process) {
            labels.push(process.label)?;
        }
    }
    Ok(labels)
}

// Whether all these labels are strictly above one.
fn are_above(labels: &[Label], label: &Label) -> bool
    ensures { result ≡ list_all (λ (other : Label). is_above other label.now) labels.now }
{
    labels.iter().all(|other| is_above(other, label))
}

/// The processes of a world that may ever cross a label, found once for all labels.
#[derive(Drop)]
pub struct Crossers {
    // Whether, of the five capabilities over labels, no process may ever have another than the two of `upward_caps`.
    only_upward: bool,
    // The labels of the processes that may have one of the two.
    labels: Vec<Label>,
}

impl Crossers {
    /// Those of a world.
    pub fn of(alloc: Global, world: &World) -> Result<Crossers, NoMemory>
        ensures { IfOk result (λ crossers. (label : Label) → is_left_by crossers label ≡ is_uncrossed label world.now) }
    {
        let programs = programs(alloc, world)?;
        Ok(Crossers {
            only_upward: mac_ever(world).within(&upward_caps()),
            labels: crossing_labels(alloc, world, &programs)?,
        })
    }

    /// Whether, of the five capabilities over labels, a process may ever have `cap_mac_read` and `cap_mac_upgrade` at most, and
    /// only one with a label strictly above this one: then nothing ever crosses this label.
    #[tactic(auto, unfolding(crate::specs::Crossing::is_left_by))]
    pub fn leave(&self, label: &Label) -> bool
        ensures { result ≡ is_left_by self.now label.now }
    {
        self.only_upward && are_above(&self.labels, label)
    }
}
