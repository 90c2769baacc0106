// A world as it is described, and the items of a script.
ghost use Rattle.std.specs.Prelude.{◌≡◌, IfOk};

use crate::{Attr, Body, Call, Ids, Pid};
use cap_bits::{CapSet, CapState};
use fs_path::{ByteList, List, NoMemory, Path};
use lab_lattice::Label;
use std::alloc::Global;

/// An object of a world: its path, and what stands there.
#[derive(Debug, Drop)]
pub struct WorldObject {
    pub path: Path,
    pub label: Label,
    pub attr: Attr,
    pub body: Body,
}

impl TryCopy for WorldObject {
    fn copy(&self) -> Result<WorldObject, NoMemory> {
        Ok(WorldObject {
            path: self.path.copy()?,
            label: self.label,
            attr: self.attr,
            body: self.body.copy()?,
        })
    }
}

/// A process of a world.
#[derive(Debug)]
pub struct WorldProc {
    pub label: Label,
    pub ids: Ids,
    pub caps: CapState,
}

impl Drop for WorldProc {
    fn drop(self) {
        let WorldProc {
            label: _,
            ids: _,
            caps: _,
        } = self;
    }
}

impl TryCopy for WorldProc {
    fn copy(&self) -> Result<WorldProc, NoMemory> {
        Ok(WorldProc {
            label: self.label,
            ids: self.ids.copy()?,
            caps: self.caps,
        })
    }
}

/// Objects of a world.
pub type ObjectList = List<WorldObject>;

/// Processes of a world.
pub type ProcList = List<WorldProc>;

/// Numbers of processes.
pub type PidList = List<Pid>;

/// Calls.
pub type CallList = List<Call>;

/// What a run starts from: the highest label, the bound of capabilities over exec, and objects and processes in the
/// order of their lines.
#[derive(Debug, Drop)]
pub struct World {
    pub top: Label,
    pub bound: CapSet,
    pub objects: ObjectList,
    pub procs: ProcList,
}

// An item of a world, of which a copy may be out of memory.
trait TryCopy: Sized {
    fn copy(&self) -> Result<Self, NoMemory>
        ensures { IfOk result (λ copy. copy ≡ self.now) };
}

fn copy_items<T: TryCopy + Drop>(alloc: Global, items: &[T]) -> Result<List<T>, NoMemory>
    ensures { IfOk result (λ copy. copy ≡ items.now) }
{
    let mut copy = List::with_capacity(alloc, items.len())?;
    for item in items {
        copy.push(item.copy()?)?;
    }
    Ok(copy)
}

impl World {
    /// A copy of the world.
    pub fn copy(&self, alloc: Global) -> Result<World, NoMemory>
        ensures { IfOk result (λ world. world ≡ self.now) }
    {
        Ok(World {
            top: self.top,
            bound: self.bound,
            objects: copy_items(alloc, self.objects.items())?,
            procs: copy_items(alloc, self.procs.items())?,
        })
    }
}

/// One call of a script: who calls, the word or words that the reply shows, and what is called.
#[derive(Debug)]
pub struct ScriptItem {
    pub who: Pid,
    pub head: ByteList,
    pub call: Call,
}

impl Drop for ScriptItem {
    fn drop(self) {
        let ScriptItem {
            who: _,
            head: _,
            call: _,
        } = self;
    }
}
