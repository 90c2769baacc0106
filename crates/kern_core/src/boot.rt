// How the first state is made of a world.
ghost use Rattle.std.specs.Prelude.{◌≡◌, ◌<◌, true, IfOk, OnOk};
ghost use Rattle.cap_bits.specs.CapSet.{is_within};
ghost use Rattle.kern_model.specs.declared.limits.TheConstants.{MAX_PROCS};
ghost use Rattle.kern_model.specs.declared.records.Rec.TheVariants as rec;
ghost use Rattle.kern_model.specs.State.{last_drawn, next_process};
ghost use Rattle.kern_model.specs.Boot.{boot_process, boot_processes, objects_loaded, boot_recs_from};
ghost use Rattle.kern_model.specs.World.{IsWorld};
ghost use Rattle.kern_core.specs.Starts.{CanStart};

use crate::from_world::creds_from;
use crate::loading::{Loading, give_back};
use fs_dirs::root_directory;
use kern_model::{NoMemory, ProcList, Rec, RecList, World, WorldProc};
use proc_table::ProcError;
use std::alloc::Global;
use sys_lookup::Shared;

/// The state that has the objects of a world, and no process, and the processes of that world. The world is used up.
pub fn load_objects(alloc: Global, world: World) -> Result<(Shared, ProcList), NoMemory>
    requires { IsWorld world }
    ensures state { IfOk result (λ made. made.0 ≡ objects_loaded world) }
    ensures procs { IfOk result (λ made. made.1 ≡ world.procs) }
{
    let World {
        top,
        bound,
        objects,
        procs,
    } = world;
    let mut loading = Loading::new(alloc, bound, top)?;
    loading.take_objects(alloc, objects)?;
    let shared = loading.load(alloc)?;
    Ok((shared, procs))
}

/// Makes the processes of a world, in order, and returns a record for each. Their list gives back its memory as it empties.
pub fn take_processes(
    alloc: Global,
    shared: &mut Shared,
    procs: ProcList,
) -> Result<RecList, NoMemory>
    requires { CanStart shared.old.process_numbers procs }
    ensures state { OnOk result (shared.new ≡ boot_processes shared.old procs) }
    ensures recs { IfOk result (λ recs. recs ≡ boot_recs_from shared.old procs) }
{
    let mut left = procs.into_vec();
    let mut recs = RecList::with_capacity(alloc, left.len())?;
    left.reverse();
    while let Some(process) = left.pop() {
        recs.push(boot_process(shared, &process)?)?;
        give_back(&mut left);
    }
    Ok(recs)
}

// Makes a process under the next number of its label, and returns the record of its start.
fn boot_process(shared: &mut Shared, process: &WorldProc) -> Result<Rec, NoMemory>
    requires number { last_drawn shared.old.process_numbers process.now.label < MAX_PROCS }
    requires within { is_within process.now.caps.e process.now.caps.p ≡ true }
    ensures state { OnOk result (shared.new ≡ boot_process shared.old process.now) }
    ensures started { IfOk result (λ started. started ≡ rec.Boot (next_process shared.old process.now.label) process.now.label process.now.caps) }
{
    match shared.procs.boot(creds_from(process)?, root_directory()) {
        Ok(who) => Ok(Rec::Boot {
            who,
            label: process.label,
            caps: process.caps,
        }),
        Err(ProcError::Full) => unreachable!(),
        Err(ProcError::NoMemory(e)) => Err(e),
    }
}
