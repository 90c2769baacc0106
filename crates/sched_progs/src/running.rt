// Programs that run on a kernel.
ghost use Rattle.std.specs.Prelude.{◌≡◌, ◌≤◌, ◌<◌, [], true, IfErr, OnOk};
ghost use Rattle.std.specs.FinMap as map;
ghost use Rattle.kern_model.specs.Valid.{IsValid};
ghost use Rattle.sched_progs.specs.Loop.{loop, loop_end};
ghost use Rattle.sched_progs.specs.Programs.{are_programs};
ghost use Rattle.sched_progs.specs.Watching.{SawCalls};
ghost use Rattle.sched_progs.specs.declared.watch.SchedFault.TheVariants as fault;

use crate::program::ProgramTable;
use crate::schedule::Schedule;
use crate::starting::start;
use crate::watch::{SchedFault, Watch};
use kern_model::{Calls, LabelMap, PidList};
use script_text::LabelList;
use std::alloc::Global;

/// Runs the programs of the living processes in turns by label, going round the labels so many times. The watch sees each call
/// in order. After a fault it saw a part of them, and the one that it refused, if it did, is the next one.
pub fn run_programs<C: Calls, W: Watch>(
    alloc: Global,
    kernel: &mut C,
    living: &PidList,
    programs: &ProgramTable,
    slices: &LabelList,
    rounds: u32,
    watch: &mut W,
) -> Result<(), SchedFault>
    requires valid { IsValid (C.state kernel.old) }
    requires top { W.top watch.old ≡ (C.state kernel.old).top }
    requires living { living.now ≡ map.keys (C.state kernel.old).procs }
    requires programs { are_programs (C.state kernel.old).top programs.now ≡ true }
    requires going { W.refused watch.old ≡ [] }
    ensures saw { SawCalls result (loop (C.state kernel.old) programs.now slices.now rounds) (W.seen watch.old) (W.seen watch.new) (W.refused watch.new) }
    ensures state { OnOk result (C.state kernel.new ≡ loop_end (C.state kernel.old) programs.now slices.now rounds) }
    ensures top { W.top watch.new ≡ W.top watch.old }
    ensures rest { W.same_rest watch.old watch.new }
    ensures later { W.faults watch.old ≤ W.faults watch.new }
    ensures cause { IfErr result (λ e. e ≡ fault.Stopped → W.faults watch.old < W.faults watch.new) }
{
    let standings = start(alloc, living.items(), programs.items())?;
    let mut schedule = Schedule {
        standings,
        last_turns: LabelMap::new(alloc),
    };
    schedule.rounds(kernel, programs.items(), slices.items(), rounds, watch)
}
