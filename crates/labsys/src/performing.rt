// What each command does.
ghost use Rattle.std.specs.Prelude.{◌≡◌, true, Some, Err};
ghost use Rattle.lab_engine.specs.Playing.{ends};
ghost use Rattle.labsys.specs.Commands.{FitsCommand, LeavesAlone, reads_source, writes_trail};
ghost use Rattle.labsys.specs.Playing.{CommandDid, format_of};

use crate::checking::check;
use crate::drilling::drill;
use crate::generating::generate;
use crate::least::least;
use crate::lineage::lineage;
use crate::never::never;
use crate::playing::{end_without_world, play};
use crate::scheduling::sched;
use crate::selecting::select;
use crate::upgrading::upgrade;
use crate::viewing::view;
use crate::{Command, InputCommand};
use io_ends::{Sink, Source};
use lab_engine::{Fault, InputEnd, Opened, open_input};
use std::alloc::Global;
use world_text::Format;

// The format of the input that a command reads.
fn format_of(command: &InputCommand<'_>) -> Format
    ensures { result ≡ format_of command.now }
{
    match command {
        InputCommand::Upgrade => Format::One,
        _ => Format::Two,
    }
}

// Opens the input that a command reads, and performs the command on its world and on what follows it. Of an input
// without a world it writes the last line.
fn perform_on_input<S: Source, K: Sink, T: Sink>(
    alloc: Global,
    command: InputCommand<'_>,
    source: &mut S,
    out: &mut K,
    trail: &mut T,
) -> Result<InputEnd, Fault>
    ensures did { CommandDid (Command.OnInput command.entry) result (S.view source.old).left (S.view source.new).left
        (ends (S.view source.old).faults (K.view out.old) (T.view trail.old))
        (ends (S.view source.new).faults (K.view out.new) (T.view trail.new)) }
    ensures alone { LeavesAlone (Some (Command.OnInput command.entry)) (source.new ≡ source.old) (out.new ≡ out.old)
        (trail.new ≡ trail.old) }
    ensures trail_fault { result ≡ Err Fault.Trail → writes_trail (Command.OnInput command.entry) ≡ true }
{
    let opened = match open_input(alloc, format_of(&command), source)? {
        Opened::World(opened) => opened,
        Opened::Ended(ending) => return end_without_world(alloc, ending, out),
    };
    match command {
        InputCommand::Play => play(alloc, opened, source, out, trail),
        InputCommand::Sched => sched(alloc, opened, source, out, trail),
        InputCommand::Check => check(alloc, opened, source, out),
        InputCommand::View(word) => view(alloc, word, opened, source, out),
        InputCommand::Upgrade => upgrade(alloc, opened, source, out),
        InputCommand::Least => least(alloc, opened, source, out),
        InputCommand::Never => never(alloc, opened, source, out),
    }
}

/// Performs a command, and returns how its input ends.
pub fn perform<S: Source, K: Sink, T: Sink>(
    alloc: Global,
    command: Command<'_>,
    source: &mut S,
    out: &mut K,
    trail: &mut T,
) -> Result<InputEnd, Fault>
    requires { FitsCommand command }
    ensures did { CommandDid command.entry result (S.view source.old).left (S.view source.new).left
        (ends (S.view source.old).faults (K.view out.old) (T.view trail.old))
        (ends (S.view source.new).faults (K.view out.new) (T.view trail.new)) }
    ensures alone { LeavesAlone (Some command.entry) (source.new ≡ source.old) (out.new ≡ out.old)
        (trail.new ≡ trail.old) }
    // A fault is one of an end that the command uses.
    ensures read_fault { result ≡ Err Fault.Read → reads_source command.entry ≡ true }
    ensures trail_fault { result ≡ Err Fault.Trail → writes_trail command.entry ≡ true }
{
    match command {
        Command::OnInput(command) => perform_on_input(alloc, command, source, out, trail),
        Command::Gen(lines) => {
            generate(alloc, lines, out)?;
            Ok(InputEnd::Whole)
        }
        Command::Drill(lines) => {
            drill(alloc, lines, out)?;
            Ok(InputEnd::Whole)
        }
        Command::Select(word) => select(alloc, word, source, out),
        Command::Lineage => lineage(alloc, source, out),
    }
}
