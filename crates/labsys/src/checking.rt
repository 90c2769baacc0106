// An input that is read and not played.
ghost use Rattle.std.specs.Prelude.{◌≡◌, IfOk, length};
ghost use Rattle.io_ends.specs.Ends.{SinkView};
ghost use Rattle.lab_engine.specs.Playing.{WritesOut, ends};
ghost use Rattle.labsys.specs.Checking.{checked_text, ok_text};
ghost use Rattle.labsys.specs.Playing.{DoesWorld, IsOpened};

use crate::InputCommand;
use io_ends::{Sink, Source};
use kern_model::{NoMemory, World};
use lab_engine::{Fault, InputEnd, OpenedWorld, Played, Texts, answer, check_script, report_last};
use line_text::LineWriter;
use std::alloc::Global;

// The line of an input that was read whole.
#[tactic(auto, unfolding(crate::specs::Checking::ok_text))]
fn ok_line(alloc: Global, world: &World, calls: u64) -> Result<Vec<u8>, NoMemory>
    ensures { IfOk result (λ text. text.items ≡ ok_text (length world.now.objects) (length world.now.procs) calls) }
{
    let mut line = LineWriter::new(alloc)?;
    line.bytes(b"ok ")?;
    line.digits(world.objects.items().len() as u64)?;
    line.bytes(b" ")?;
    line.digits(world.procs.items().len() as u64)?;
    line.bytes(b" ")?;
    line.digits(calls)?;
    line.line_feed()?;
    Ok(line.into_text())
}

// Writes what was found of an input with a world.
fn report_check<K: Sink>(
    alloc: Global,
    world: &World,
    checked: Played,
    out: &mut K,
) -> Result<(), Fault>
    ensures { WritesOut result (checked_text world.now checked.count checked.ending) (K.view out.old) (K.view out.new) }
{
    match checked.ending {
        InputEnd::Whole => {
            let text = ok_line(alloc, world, checked.count)?;
            answer(out, &text)
        }
        InputEnd::Refused(..) | InputEnd::RefusedWord(..) | InputEnd::TooMuch => {
            report_last(alloc, 0, checked.ending, out)
        }
    }
}

/// Reads the script after a world that was accepted, and writes what was found: how many objects, processes and calls
/// there are, or the line that refuses the input.
pub fn check<S: Source, K: Sink>(
    alloc: Global,
    opened: OpenedWorld,
    source: &mut S,
    out: &mut K,
) -> Result<InputEnd, Fault>
    requires { IsOpened opened }
    ensures { (trail : SinkView)
        → DoesWorld InputCommand.Check result opened.read opened.lines (S.view source.old).left (S.view source.new).left
        (ends (S.view source.old).faults (K.view out.old) trail)
        (ends (S.view source.new).faults (K.view out.new) trail) }
{
    let OpenedWorld { read, mut lines } = opened;
    let texts = Texts {
        alloc,
        policy: &read.policy,
    };
    let checked = check_script(texts, &mut lines, source)?;
    report_check(alloc, &read.world, checked, out)?;
    Ok(checked.ending)
}
