// What processes and files have together, and what a process may ever have.
ghost use Rattle.std.specs.Prelude.{◌≡◌};
ghost use Rattle.cap_bits.specs.FileCaps.{shown};
ghost use Rattle.kern_model.specs.Exec.{exec_permitted};
ghost use Rattle.ever_caps.specs.Ever.{all_files, all_processes, ever, is_confined, join, joined, mac_caps, mac_ever, mac_given_to, mac_in};

use cap_bits::{Cap, CapSet, CapState};
use kern_model::{World, WorldObject, WorldProc};

// Two states together.
fn join(a: &CapState, b: &CapState) -> CapState
    ensures { result ≡ join a.now b.now }
{
    CapState {
        e: a.e.union(b.e),
        i: a.i.union(b.i),
        p: a.p.union(b.p),
    }
}

// What processes have together.
fn processes_joined(processes: &[WorldProc]) -> CapState
    ensures { result ≡ joined (λ p. p.caps) processes.now }
{
    let mut together = CapState::none();
    for process in processes {
        together = join(&together, &process.caps);
    }
    together
}

// What the files among objects have together.
fn files_joined(objects: &[WorldObject]) -> CapState
    ensures { result ≡ joined (λ o. shown o.attr.caps) objects.now }
{
    let mut together = CapState::none();
    for object in objects {
        together = join(&together, &object.attr.caps.shown());
    }
    together
}

/// What all processes of a world have together.
pub fn all_processes(world: &World) -> CapState
    ensures { result ≡ all_processes world.now }
{
    processes_joined(world.procs.items())
}

// What all files of a world have together.
fn all_files(world: &World) -> CapState
    ensures { result ≡ all_files world.now }
{
    files_joined(world.objects.items())
}

// What a program permits to a process: what the file permits within the bound, and what file and process inherit.
pub(crate) fn program_permits(process: &CapState, file: &CapState, bound: CapSet) -> CapSet
    ensures { result ≡ exec_permitted process.now file.now bound }
{
    file.p.meet(bound).union(file.i.meet(process.i))
}

/// The capabilities that a process may ever have in a world: no run ever gives another one.
pub fn ever(world: &World) -> CapSet
    ensures { result ≡ ever world.now }
{
    let processes = all_processes(world);
    processes.e.union(processes.p).union(program_permits(
        &processes,
        &all_files(world),
        world.bound,
    ))
}

// The five capabilities that override the rules on labels.
fn mac_caps() -> CapSet
    ensures { result ≡ mac_caps }
{
    CapSet::none()
        .with(Cap::MacDowngrade)
        .with(Cap::MacRead)
        .with(Cap::MacRelabelSubj)
        .with(Cap::MacUpgrade)
        .with(Cap::MacWrite)
}

/// Those of the five capabilities over labels that a process with these sets has effective or permitted.
pub fn mac_in(caps: &CapState) -> CapSet
    ensures { result ≡ mac_in caps.now }
{
    mac_caps().meet(caps.e.union(caps.p))
}

/// Those of the five capabilities over labels that a file gives to a process with these sets.
pub fn mac_given_to(process: &CapState, bound: CapSet, object: &WorldObject) -> CapSet
    ensures { result ≡ mac_given_to process.now bound object.now }
{
    mac_caps().meet(program_permits(process, &object.attr.caps.shown(), bound))
}

/// Those of the five capabilities over labels that a process may ever have in a world.
pub fn mac_ever(world: &World) -> CapSet
    ensures { result ≡ mac_ever world.now }
{
    mac_caps().meet(ever(world))
}

/// Whether no process may ever have one of the five capabilities over labels: then nothing ever crosses a label.
pub fn is_confined(world: &World) -> bool
    ensures { result ≡ is_confined world.now }
{
    mac_ever(world).within(&CapSet::none())
}
