// Processes at the first steps of their programs.
ghost use Rattle.std.specs.Prelude.{◌≡◌, [], IfOk, OnOk};
ghost use Rattle.std.specs.FinMap as map;
ghost use Rattle.sched_progs.specs.Programs.{first_step, steps_of};
ghost use Rattle.sched_progs.specs.Standings.{progress_at};
ghost use Rattle.sched_progs.specs.Starting.{AreStarted, IsIndex, set_if_absent, standing_at};

use crate::last_reply::LastReply;
use crate::program::Program;
use crate::standing::{Standing, Standings};
use kern_model::{NoMemory, Pid};
use std::alloc::Global;

// The first step of the program at a place of the table.
fn first_step(program: usize) -> Standing
    ensures { result ≡ standing_at program }
{
    Standing {
        program,
        place: 0,
        last: LastReply::Fresh,
    }
}

// The first step of the first program of each process.
fn index(alloc: Global, programs: &[(Pid, Program)]) -> Result<Standings, NoMemory>
    ensures { IfOk result (λ index. IsIndex programs.now index []) }
{
    let mut index = Standings::new(alloc);
    for (place, program) in programs.iter().enumerate() {
        add_program(&mut index, place, &program.0)?;
    }
    Ok(index)
}

// Puts a process at the first step of a program, unless it has one.
fn add_program(index: &mut Standings, place: usize, who: &Pid) -> Result<(), NoMemory>
    ensures { OnOk result (index.new ≡ set_if_absent (map.get index.old who.now) index.old who.now (standing_at place)) }
{
    match index.get(who) {
        Some(_) => Ok(()),
        None => index.set(who, first_step(place)),
    }
}

// Where a process starts.
fn start_of(programs: &[(Pid, Program)], index: &Standings, who: &Pid) -> Standing
    requires { IsIndex programs.now index.now [] }
    ensures { progress_at programs.now result ≡ first_step (steps_of programs.now who.now) }
{
    match index.get(who) {
        Some(standing) => standing,
        None => first_step(programs.len()),
    }
}

/// Each of these processes at the first step of its program.
pub fn start(
    alloc: Global,
    living: &[Pid],
    programs: &[(Pid, Program)],
) -> Result<Standings, NoMemory>
    ensures { IfOk result (λ standings. AreStarted programs.now living.now standings) }
{
    let index = index(alloc, programs)?;
    let mut standings = Standings::new(alloc);
    for who in living {
        standings.set(who, start_of(programs, &index, who))?;
    }
    Ok(standings)
}
