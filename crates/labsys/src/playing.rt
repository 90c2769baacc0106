// A world that is played with its script, to the last line of the output.
ghost use Rattle.std.specs.Prelude.{◌≡◌, ◌++◌, [], cond, IfOk};
ghost use Rattle.kern_core.specs.Kernel.{state_of};
ghost use Rattle.lab_engine.specs.Playing.{WritesOut, ends};
ghost use Rattle.lab_engine.specs.Texts.{caps_in, end_text, ends_text, is_viewed, label_in, last_text};
ghost use Rattle.labsys.specs.Playing.{DoesWorld, IsOpened};

use crate::InputCommand;
use crate::session::Session;
use io_ends::{Sink, Source};
use kern_core::Kernel;
use kern_model::{NoMemory, Pid};
use lab_engine::{
    Fault, InputEnd, OpenedWorld, Played, Report, Texts, answer, end_line, report_last, write_head,
};
use lab_lattice::{Label, Lattice};
use std::alloc::Global;
use world_text::WorldText;

// Whether the end line of a process is written, by the label that views the run, if one does.
fn is_viewed(viewer: &Option<Label>, who: &Pid) -> bool
    ensures { result ≡ is_viewed viewer.now who.now }
{
    match viewer {
        Some(label) => label.dominates(&who.label),
        None => true,
    }
}

// The end line of a process, or no byte where it does not live.
fn end_of(texts: Texts<'_>, kernel: &Kernel, who: &Pid) -> Result<Vec<u8>, NoMemory>
    ensures { IfOk result (λ text. text.items ≡ end_text texts.entry.policy.now who.now
        (label_in (state_of kernel.now) who.now) (caps_in (state_of kernel.now) who.now)) }
{
    match (kernel.label_of(who), kernel.caps_of(who)) {
        (Some(label), Some(caps)) => end_line(texts, who, &label, &caps),
        _ => Ok(Vec::new(texts.alloc)),
    }
}

// What is written of a process at the end.
fn end_viewed(
    texts: Texts<'_>,
    kernel: &Kernel,
    viewer: &Option<Label>,
    who: &Pid,
) -> Result<Vec<u8>, NoMemory>
    ensures { IfOk result (λ text. text.items
        ≡ cond (is_viewed viewer.now who.now) (end_text texts.entry.policy.now who.now
        (label_in (state_of kernel.now) who.now) (caps_in (state_of kernel.now) who.now)) []) }
{
    if is_viewed(viewer, who) {
        end_of(texts, kernel, who)
    } else {
        Ok(Vec::new(texts.alloc))
    }
}

// Writes the end lines.
fn report_ends<K: Sink>(
    texts: Texts<'_>,
    kernel: &Kernel,
    viewer: &Option<Label>,
    out: &mut K,
) -> Result<(), Fault>
    ensures { WritesOut result (ends_text viewer.now texts.entry.policy.now (state_of kernel.now)) (K.view out.old)
        (K.view out.new) }
{
    let numbers = kernel.live()?;
    for who in numbers.items() {
        let text = end_viewed(texts, kernel, viewer, who)?;
        answer(out, &text)?;
    }
    Ok(())
}

/// Writes the end lines and the last line: those of all that live, or, where a label views the run, of those whose
/// number's label it dominates.
pub fn finish<K: Sink>(
    texts: Texts<'_>,
    kernel: &Kernel,
    viewer: &Option<Label>,
    played: Played,
    out: &mut K,
) -> Result<(), Fault>
    ensures { WritesOut result (ends_text viewer.now texts.entry.policy.now (state_of kernel.now)
        ++ last_text played.count played.ending) (K.view out.old) (K.view out.new) }
{
    report_ends(texts, kernel, viewer, out)?;
    report_last(texts.alloc, played.count, played.ending, out)
}

/// Plays a world that was accepted and the script after it, line by line: replies go to the output, records to the
/// trail. The kernel uses the world up, so that no object is kept twice.
pub fn play<S: Source, K: Sink, T: Sink>(
    alloc: Global,
    opened: OpenedWorld,
    source: &mut S,
    out: &mut K,
    trail: &mut T,
) -> Result<InputEnd, Fault>
    requires { IsOpened opened }
    ensures { DoesWorld InputCommand.Play result opened.read opened.lines (S.view source.old).left (S.view source.new).left
        (ends (S.view source.old).faults (K.view out.old) (T.view trail.old))
        (ends (S.view source.new).faults (K.view out.new) (T.view trail.new)) }
{
    let OpenedWorld { read, lines } = opened;
    let WorldText { policy, world } = read;
    let texts = Texts {
        alloc,
        policy: &policy,
    };
    let bound = world.bound;
    let (kernel, recs) = Kernel::boot_from(alloc, world)?;
    write_head(texts, &bound, recs.items(), trail)?;
    let mut session = Session {
        texts,
        kernel,
        lines,
        report: Report::All,
    };
    let played = session.play(source, out, trail)?;
    finish(texts, &session.kernel, &None, played, out)?;
    Ok(played.ending)
}

/// Writes the last line of an input without a world, which is all that is written of it.
pub fn end_without_world<K: Sink>(
    alloc: Global,
    ending: InputEnd,
    out: &mut K,
) -> Result<InputEnd, Fault>
    ensures writes { WritesOut result (last_text 0 ending) (K.view out.old) (K.view out.new) }
    ensures ending { IfOk result (λ e. e ≡ ending) }
{
    report_last(alloc, 0, ending, out)?;
    Ok(ending)
}
