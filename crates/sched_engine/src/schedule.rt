// What programs are played, in which turns, and what each line adds.
ghost use Rattle.std.specs.Prelude.{◌≡◌, ◌&&◌, IfOk, length, nat_le};
ghost use Rattle.sched_engine.specs.Schedule.{after_prog_step, after_program, after_rounds, after_slices, are_few, are_turns, step_line, whole};

use crate::programs::ProgramsSoFar;
use fs_path::List;
use kern_model::{NoMemory, Pid};
use lab_lattice::Label;
use sched_progs::ProgramTable;
use script_text::{LabelList, ProgStep, StepLine};
use std::alloc::Global;
use std::mem;

/// The most labels that have turns, one after another.
pub const MAX_SLICES: usize = 64;

/// The most turns.
pub const MAX_TURNS: usize = 100_000;

/// The programs that are played, the labels that have turns, and how many times the turns go round them.
pub struct Schedule {
    pub slices: LabelList,
    pub rounds: u32,
    pub programs: ProgramTable,
}

impl Drop for Schedule {
    fn drop(self) {
        let Schedule {
            slices: _,
            rounds: _,
            programs: _,
        } = self;
    }
}

/// What is due in the lines of a schedule, and what the lines before gave. Blank lines and comments may stand before each.
pub enum Expecting {
    /// The labels that have turns.
    Slices,
    /// How many times the turns go round these labels.
    Rounds(LabelList),
    /// A further program, or a step of the last one, after these labels, the rounds and these programs.
    Programs(LabelList, u32, ProgramsSoFar),
}

impl Drop for Expecting {
    fn drop(self) {
        match self {
            Expecting::Slices => {}
            Expecting::Rounds(_) => {}
            Expecting::Programs(_, _, _) => {}
        }
    }
}

// Whether labels are few enough for turns, and some.
fn are_few(slices: &[Label]) -> bool
    ensures { result ≡ are_few slices.now }
{
    (1..=MAX_SLICES).contains(&slices.len())
}

// Whether there are turns of these labels in so many rounds, and few enough.
fn are_turns(slices: &[Label], rounds: u32) -> bool
    ensures { result ≡ are_turns slices.now rounds }
{
    match (rounds as usize).checked_mul(slices.len()) {
        Some(turns) => rounds >= 1 && turns <= MAX_TURNS,
        None => false,
    }
}

impl Expecting {
    // After the line `slices`.
    fn after_slices(self, slices: LabelList) -> Option<Expecting>
        ensures { result ≡ after_slices self slices }
    {
        match self {
            Expecting::Slices if are_few(slices.items()) => Some(Expecting::Rounds(slices)),
            _ => None,
        }
    }

    // After the line `rounds`.
    fn after_rounds(self, alloc: Global, rounds: u32) -> Option<Expecting>
        ensures { result ≡ after_rounds self rounds }
    {
        let Expecting::Rounds(slices) = self else {
            return None;
        };
        if !are_turns(slices.items(), rounds) {
            return None;
        }
        let programs = ProgramsSoFar::new(alloc);
        Some(Expecting::Programs(slices, rounds, programs))
    }

    // After a line `program`.
    fn after_program(self, alloc: Global, who: Pid) -> Result<Option<Expecting>, NoMemory>
        ensures { IfOk result (λ after. after ≡ after_program self who) }
    {
        let Expecting::Programs(slices, rounds, programs) = self else {
            return Ok(None);
        };
        match programs.with_program(alloc, who)? {
            Some(programs) => Ok(Some(Expecting::Programs(slices, rounds, programs))),
            None => Ok(None),
        }
    }

    // After a step of a program.
    fn after_prog_step(self, step: ProgStep) -> Result<Option<Expecting>, NoMemory>
        ensures { IfOk result (λ after. after ≡ after_prog_step self step) }
    {
        let Expecting::Programs(slices, rounds, programs) = self else {
            return Ok(None);
        };
        match programs.with_step(step)? {
            Some(programs) => Ok(Some(Expecting::Programs(slices, rounds, programs))),
            None => Ok(None),
        }
    }

    /// What is due after a line, where it may stand here.
    pub fn after_step(self, alloc: Global, line: StepLine) -> Result<Option<Expecting>, NoMemory>
        ensures { IfOk result (λ after. after ≡ step_line self line) }
    {
        let mut line = line;
        match &mut line {
            StepLine::Blank => Ok(Some(self)),
            StepLine::Slices(slices) => {
                let slices = mem::replace(slices, List::new(alloc));
                Ok(self.after_slices(slices))
            }
            StepLine::Rounds(rounds) => Ok(self.after_rounds(alloc, *rounds)),
            StepLine::Program(who) => self.after_program(alloc, *who),
            StepLine::One(step) => self.after_prog_step(mem::replace(step, ProgStep::Stop)),
        }
    }

    /// The schedule, where it may end here.
    pub fn into_schedule(self) -> Result<Option<Schedule>, NoMemory>
        ensures { IfOk result (λ schedule. schedule ≡ whole self) }
    {
        let Expecting::Programs(slices, rounds, programs) = self else {
            return Ok(None);
        };
        let programs = programs.into_table()?;
        Ok(Some(Schedule {
            slices,
            rounds,
            programs,
        }))
    }
}
