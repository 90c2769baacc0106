// A world with programs, which are played in turns by label.
ghost use Rattle.std.specs.Prelude.{◌≡◌, ℕ};
ghost use Rattle.kern_model.specs.World.{IsWorld};
ghost use Rattle.lab_text.specs.Policy.{top_of};
ghost use Rattle.lab_engine.specs.Order.{session_order};
ghost use Rattle.lab_engine.specs.Playing.{WritesBoth, ends};
ghost use Rattle.sched_engine.specs.Schedule.{MayBePlayed};
ghost use Rattle.labsys.specs.Playing.{DoesWorld, IsOpened};
ghost use Rattle.labsys.specs.Readable.{RunReadable};
ghost use Rattle.labsys.specs.Scheduling.{session_by};

use crate::InputCommand;
use crate::playing::{end_without_world, finish};
use io_ends::{Sink, Source};
use kern_core::Kernel;
use lab_engine::{Fault, InputEnd, OpenedWorld, Played, Texts, write_head};
use sched_engine::{ReadSchedule, Schedule, Started, read_schedule, report_programs};
use std::alloc::Global;
use world_text::WorldText;

// Runs programs on a world that was accepted, and writes what they do. The kernel uses the world up.
fn run_schedule<K: Sink, T: Sink>(
    alloc: Global,
    read: WorldText,
    schedule: &Schedule,
    out: &mut K,
    trail: &mut T,
) -> Result<(), Fault>
    requires world { IsWorld read.world }
    requires top { read.world.top ≡ top_of read.policy }
    requires plays { MayBePlayed (top_of read.policy) schedule.now }
    ensures writes { WritesBoth result (session_order (session_by read schedule.now)) (K.view out.old) (K.view out.new)
        (T.view trail.old) (T.view trail.new) }
    ensures readable { (source : ℕ) → RunReadable (session_by read schedule.now)
        (ends source (K.view out.old) (T.view trail.old)) (ends source (K.view out.new) (T.view trail.new)) }
{
    let WorldText { policy, world } = read;
    let texts = Texts {
        alloc,
        policy: &policy,
    };
    let bound = world.bound;
    let (mut kernel, recs) = Kernel::boot_from(alloc, world)?;
    write_head(texts, &bound, recs.items(), trail)?;
    let living = kernel.live()?;
    let started = Started {
        living: &living,
        schedule,
    };
    let count = report_programs(&mut kernel, started, texts, out, trail)?;
    let played = Played {
        count,
        ending: InputEnd::Whole,
    };
    finish(texts, &kernel, &None, played, out)
}

/// Reads the programs that follow a world that was accepted, to the end of the input, and then runs them: replies go to
/// the output, records to the trail.
pub fn sched<S: Source, K: Sink, T: Sink>(
    alloc: Global,
    opened: OpenedWorld,
    source: &mut S,
    out: &mut K,
    trail: &mut T,
) -> Result<InputEnd, Fault>
    requires { IsOpened opened }
    ensures { DoesWorld InputCommand.Sched result opened.read opened.lines (S.view source.old).left (S.view source.new).left
        (ends (S.view source.old).faults (K.view out.old) (T.view trail.old))
        (ends (S.view source.new).faults (K.view out.new) (T.view trail.new)) }
{
    let OpenedWorld { read, mut lines } = opened;
    let texts = Texts {
        alloc,
        policy: &read.policy,
    };
    let found = read_schedule(texts, &mut lines, source)?;
    match found {
        ReadSchedule::Schedule(schedule) => {
            run_schedule(alloc, read, &schedule, out, trail)?;
            Ok(InputEnd::Whole)
        }
        ReadSchedule::Ended(ending) => end_without_world(alloc, ending, out),
    }
}
