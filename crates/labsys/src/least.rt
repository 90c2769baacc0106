// A world that is narrowed to the capabilities that its script needs.
ghost use Rattle.std.specs.Prelude.{◌≡◌, ℕ, ◌≤◌, ◌^◌, true, IfOk};
ghost use Rattle.io_ends.specs.Ends.{SinkView};
ghost use Rattle.world_text.specs.CanBeRead.{IsWorldText};
ghost use Rattle.lab_engine.specs.Counts.{CountsOnce, counts};
ghost use Rattle.lab_engine.specs.Playing.{WritesOut, ends};
ghost use Rattle.lab_engine.specs.Report.{caps_in};
ghost use Rattle.lab_engine.specs.Upgrading.{ReadsBack};
ghost use Rattle.labsys.specs.Least.{least_text, least_world, needs_text, unneeded_text};
ghost use Rattle.labsys.specs.Playing.{DoesWorld, IsOpened, NeedsWorld};

use crate::InputCommand;
use cap_bits::CapSet;
use cap_clause::set_to_text;
use io_ends::{Lines, Sink, Source};
use kern_core::Kernel;
use kern_model::NoMemory;
use lab_engine::{
    Fault, InputEnd, Judge, Kept, LineRules, OpenedWorld, Report, Texts, answer, keep_script,
    report_last,
};
use least_caps::{narrow, stands};
use line_text::LineWriter;
use std::alloc::Global;
use world_text::WorldText;

// The line of the capabilities that no exercise named.
#[tactic(auto, unfolding(crate::specs::Least::unneeded_text))]
fn unneeded_line(alloc: Global, unneeded: &CapSet) -> Result<Vec<u8>, NoMemory>
    ensures { IfOk result (λ text. text.items ≡ unneeded_text unneeded.now) }
{
    let mut line = LineWriter::new(alloc)?;
    line.bytes(b"# never needed")?;
    line.word(&set_to_text(alloc, unneeded)?)?;
    line.line_feed()?;
    Ok(line.into_text())
}

// The text of a world that is narrowed to some capabilities, after the line of the others.
fn least_text(alloc: Global, read: WorldText, needed: CapSet) -> Result<Vec<u8>, NoMemory>
    requires { IsWorldText read }
    ensures text { IfOk result (λ text. text.items ≡ least_text read needed) }
    ensures back { IfOk result (λ _. ReadsBack (least_world read needed)) }
{
    let WorldText { policy, world } = read;
    let unneeded = stands(&world).minus(needed);
    let world = narrow(alloc, &world, &unneeded)?;
    let mut text = unneeded_line(alloc, &unneeded)?;
    text.extend_from_slice(&WorldText { policy, world }.write()?)?;
    Ok(text)
}

// Writes what is due of a world whose script was played.
fn report_least<K: Sink>(
    alloc: Global,
    read: WorldText,
    kept: Kept,
    out: &mut K,
) -> Result<(), Fault>
    requires { IsWorldText read }
    ensures writes { WritesOut result (needs_text read (caps_in kept.report) kept.ending) (K.view out.old)
        (K.view out.new) }
    ensures back { kept.ending ≡ InputEnd.Whole
        → IfOk result (λ _. ReadsBack (least_world read (caps_in kept.report))) }
{
    match kept.ending {
        InputEnd::Whole => {
            let text = least_text(alloc, read, kept.report.caps())?;
            answer(out, &text)
        }
        InputEnd::Refused(..) | InputEnd::RefusedWord(..) | InputEnd::TooMuch => {
            report_last(alloc, 0, kept.ending, out)
        }
    }
}

// Plays the script of a world from its first state on, and keeps the capabilities that exercises name. A line that asks
// for capability sets is refused.
fn play_needed<S: Source>(
    alloc: Global,
    read: &WorldText,
    lines: &mut Lines,
    source: &mut S,
) -> Result<Kept, Fault>
    requires world { IsWorldText read.now }
    requires more { lines.old.more ≡ true }
    requires small { lines.old.room ≤ 2 ^ 24 }
    ensures needs { NeedsWorld result read.now lines.old (S.view source.old).left (S.view source.new).left }
    ensures counts { (o t : ℕ)
        → CountsOnce result (counts (S.view source.old).faults o t) (counts (S.view source.new).faults o t) }
{
    let texts = Texts {
        alloc,
        policy: &read.policy,
    };
    let rules = LineRules {
        texts,
        judge: Judge::RefusesAsked,
    };
    let (mut kernel, _) = Kernel::boot(alloc, &read.world)?;
    keep_script(
        rules,
        Report::Named(CapSet::none()),
        &mut kernel,
        lines,
        source,
    )
}

/// Plays a world that was accepted and the script after it, and writes the world without the capabilities that no
/// exercise named, after a line of these. A call or a utility that asks for capability sets is refused.
pub fn least<S: Source, K: Sink>(
    alloc: Global,
    opened: OpenedWorld,
    source: &mut S,
    out: &mut K,
) -> Result<InputEnd, Fault>
    requires { IsOpened opened }
    ensures { (trail : SinkView)
        → DoesWorld InputCommand.Least result opened.read opened.lines (S.view source.old).left (S.view source.new).left
        (ends (S.view source.old).faults (K.view out.old) trail)
        (ends (S.view source.new).faults (K.view out.new) trail) }
{
    let OpenedWorld { read, mut lines } = opened;
    let kept = play_needed(alloc, &read, &mut lines, source)?;
    let ending = kept.ending;
    report_least(alloc, read, kept, out)?;
    Ok(ending)
}
