// A world without some capabilities.
ghost use Rattle.std.specs.Prelude.{◌≡◌, IfOk, map};
ghost use Rattle.kern_model.specs.World.{IsWorld};
ghost use Rattle.least_caps.specs.Narrowed.{attr_narrowed, caps_narrowed, file_narrowed, narrowed, object_narrowed, process_narrowed};

use cap_bits::{CapSet, CapState, FileCaps};
use fs_path::{List, NoMemory};
use kern_model::{Attr, World, WorldObject, WorldProc};
use std::alloc::Global;

// The three sets without some capabilities.
fn caps_narrowed(caps: &CapState, drop: CapSet) -> CapState
    ensures { result ≡ caps_narrowed drop caps.now }
{
    CapState {
        e: caps.e.minus(drop),
        i: caps.i.minus(drop),
        p: caps.p.minus(drop),
    }
}

// The capabilities of a file without some. The flag goes down where no capability is left.
fn file_narrowed(caps: &FileCaps, drop: CapSet) -> FileCaps
    ensures { result ≡ file_narrowed drop caps.now }
{
    let p = caps.p.minus(drop);
    let i = caps.i.minus(drop);
    FileCaps {
        p,
        i,
        eff: caps.eff && p.union(i) != CapSet::none(),
    }
}

// What of a world has capabilities.
trait CapHolder: Sized {
    ghost use Rattle.cap_bits.specs.CapSet.{CapSet as Dropped};

    ghost narrowed: { Dropped → Self → Self };

    // A copy without some capabilities.
    fn without(&self, drop: CapSet) -> Result<Self, NoMemory>
        ensures { IfOk result (λ narrow. narrow ≡ narrowed drop self.now) };
}

impl CapHolder for WorldObject {
    ghost narrowed = { object_narrowed };

    fn without(&self, drop: CapSet) -> Result<WorldObject, NoMemory> {
        Ok(WorldObject {
            path: self.path.copy()?,
            label: self.label,
            attr: Attr {
                caps: file_narrowed(&self.attr.caps, drop),
                ..self.attr
            },
            body: self.body.copy()?,
        })
    }
}

impl CapHolder for WorldProc {
    ghost narrowed = { process_narrowed };

    fn without(&self, drop: CapSet) -> Result<WorldProc, NoMemory> {
        Ok(WorldProc {
            label: self.label,
            ids: self.ids.copy()?,
            caps: caps_narrowed(&self.caps, drop),
        })
    }
}

fn items_narrowed<T: CapHolder + Drop>(
    alloc: Global,
    items: &[T],
    drop: CapSet,
) -> Result<List<T>, NoMemory>
    ensures { IfOk result (λ narrow. narrow ≡ map (T.narrowed drop) items.now) }
{
    let mut narrow = List::with_capacity(alloc, items.len())?;
    for item in items {
        narrow.push(item.without(drop)?)?;
    }
    Ok(narrow)
}

/// The world in which the bound and every set of a file or a process are without these capabilities, and the flag of a file with
/// two empty sets is off. A run may start from it as from the world.
#[tactic(auto, using(crate::proofs::NarrowedWorlds::is_world_narrowed))]
pub fn narrow(alloc: Global, world: &World, drop: &CapSet) -> Result<World, NoMemory>
    requires { IsWorld world.now }
    ensures narrowed { IfOk result (λ narrow. narrow ≡ narrowed drop.now world.now) }
    ensures world { IfOk result (λ narrow. IsWorld narrow) }
{
    Ok(World {
        top: world.top,
        bound: world.bound.minus(*drop),
        objects: items_narrowed(alloc, world.objects.items(), *drop)?,
        procs: items_narrowed(alloc, world.procs.items(), *drop)?,
    })
}
