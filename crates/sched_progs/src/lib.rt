//! Programs of processes, which choose their next call by the last reply, in turns by label.
#![tactic(auto)]

ghost use Rattle.sched_progs.specs.Chosen.{LoopIsRun};
ghost use Rattle.sched_progs.specs.Laws.{ClosedLoopPrefix, ClosedLoopWhole, ClosedLoopEnd, LoopOfWorld, TwoLoopsAgree};

mod calling;
mod following;
mod last_reply;
mod moving;
mod program;
mod running;
mod schedule;
mod standing;
mod starting;
mod watch;

pub use program::{Program, ProgramTable, StepList};
pub use running::run_programs;
pub use watch::{SchedFault, Watch};

/// In turns by label, what Low processes do and are answered before anything crosses is a prefix of what they do where the part
/// of the state is all there is, with the programs and the turns of Low labels alone. Where no call crosses, both are the
/// same, and so are the parts of the states in which both end. It holds from the first state of every world that is accepted, for
/// programs whose calls have their arguments in their ranges and give entries names that are names.
pub fn closed_loop()
    ensures prefix { ClosedLoopPrefix }
    ensures whole { ClosedLoopWhole }
    ensures end { ClosedLoopEnd }
    ensures start { LoopOfWorld }
    ensures two { TwoLoopsAgree }
{}

/// What programs do in turns is the run of the script that they choose: the same calls in the same order, with the same replies and
/// records, which end in the same state.
pub fn chosen_script()
    ensures { LoopIsRun }
{}
