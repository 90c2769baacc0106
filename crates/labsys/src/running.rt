// The top call.
ghost use Rattle.std.specs.Prelude.{◌≡◌};
ghost use Rattle.labsys.specs.Clauses.{status_of};
ghost use Rattle.labsys.specs.Commands.{LeavesAlone, command_of};
ghost use Rattle.labsys.specs.Running.{Runs, run_ends};

use crate::command::command_of;
use crate::performing::perform;
use crate::{Command, Status};
use io_ends::{Sink, Source};
use lab_engine::{Fault, InputEnd};
use std::alloc::Global;

fn status_of(played: Result<InputEnd, Fault>) -> Status
    ensures { result ≡ status_of played }
{
    match played {
        Ok(InputEnd::Whole) => Status::Done,
        Ok(InputEnd::Refused(..) | InputEnd::RefusedWord(..)) => Status::Refused,
        Ok(InputEnd::TooMuch) => Status::TooLong,
        Err(Fault::Read) => Status::ReadFault,
        Err(Fault::Write) => Status::WriteFault,
        Err(Fault::Trail) => Status::TrailFault,
        Err(Fault::NoMemory) => Status::NoMemory,
    }
}

/// Runs the command that the words name: the variants of `Command` say what each does. FILE is not opened: `trail`
/// stands for it.
pub fn run<S: Source, K: Sink, T: Sink>(
    alloc: Global,
    words: &[String],
    source: &mut S,
    out: &mut K,
    trail: &mut T,
) -> Status
    ensures runs { Runs words.now result (run_ends (S.view source.old) (K.view out.old) (T.view trail.old))
        (run_ends (S.view source.new) (K.view out.new) (T.view trail.new)) }
    // Without a command nothing is read or written. A command leaves the source and the trail alone, where it does not
    // use them.
    ensures left_alone { LeavesAlone (command_of words.now) (source.new ≡ source.old)
        (out.new ≡ out.old) (trail.new ≡ trail.old) }
{
    let Ok(named) = command_of(alloc, words) else {
        return Status::NoMemory;
    };
    match named {
        Some(command) => status_of(perform(alloc, command, source, out, trail)),
        None => Status::Usage,
    }
}
