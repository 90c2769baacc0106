// A world of the old format, with its script, that is written in the format of today.
ghost use Rattle.std.specs.Prelude.{IfOk};
ghost use Rattle.io_ends.specs.Ends.{SinkView};
ghost use Rattle.world_text.specs.CanBeRead.{IsWorldText};
ghost use Rattle.world_text.specs.Written.{text_of_world};
ghost use Rattle.lab_engine.specs.Playing.{WritesOut, ends};
ghost use Rattle.lab_engine.specs.Upgrading.{ReadsBack};
ghost use Rattle.labsys.specs.Playing.{DoesWorld, IsOpened};

use crate::InputCommand;
use crate::viewing::report_unless_whole;
use io_ends::{Sink, Source};
use lab_engine::{Fault, InputEnd, OpenedWorld, Texts, answer, upgrade_script};
use std::alloc::Global;
use world_text::WorldText;

// Writes the text of a world.
fn write_world<K: Sink>(read: &WorldText, out: &mut K) -> Result<(), Fault>
    requires { IsWorldText read.now }
    ensures writes { WritesOut result (text_of_world read.now) (K.view out.old) (K.view out.new) }
    ensures back { IfOk result (λ _. ReadsBack read.now) }
{
    let text = read.write()?;
    answer(out, &text)
}

/// Writes a world of the old format that was accepted in the format of today, and the lines of the script after it as
/// they came, up to the first refused one.
pub fn upgrade<S: Source, K: Sink>(
    alloc: Global,
    opened: OpenedWorld,
    source: &mut S,
    out: &mut K,
) -> Result<InputEnd, Fault>
    requires { IsOpened opened }
    ensures { (trail : SinkView)
        → DoesWorld InputCommand.Upgrade result opened.read opened.lines (S.view source.old).left (S.view source.new).left
        (ends (S.view source.old).faults (K.view out.old) trail)
        (ends (S.view source.new).faults (K.view out.new) trail) }
{
    let OpenedWorld { read, mut lines } = opened;
    let texts = Texts {
        alloc,
        policy: &read.policy,
    };
    write_world(&read, out)?;
    let ending = upgrade_script(texts, &mut lines, source, out)?;
    report_unless_whole(alloc, ending, out)?;
    Ok(ending)
}
