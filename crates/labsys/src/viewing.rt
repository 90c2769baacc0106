// A world that is viewed from a label as it is played.
ghost use Rattle.std.specs.Prelude.{◌≡◌, ◌≢◌, ◌++◌, ℕ, Some};
ghost use Rattle.kern_core.specs.Kernel.{state_of};
ghost use Rattle.lab_text.specs.Text.{parse_label};
ghost use Rattle.io_ends.specs.Ends.{SinkView};
ghost use Rattle.lab_lattice.specs.Label.{Label};
ghost use Rattle.lab_engine.specs.declared.reporting.Report.TheVariants as a_report;
ghost use Rattle.lab_engine.specs.Playing.{WritesOut, ends};
ghost use Rattle.lab_engine.specs.Texts.{ends_text, last_text};
ghost use Rattle.lab_engine.specs.Viewing.{unless_whole};
ghost use Rattle.labsys.specs.Playing.{DoesWorld, IsOpened, WritesLeft, due_of_label};

use crate::playing::{end_without_world, finish};
use crate::session::Session;
use crate::{Argument, InputCommand};
use io_ends::{Sink, Source, SureSink};
use kern_core::Kernel;
use lab_engine::{CommandWord, Fault, InputEnd, OpenedWorld, Played, Report, Texts, report_last};
use lab_lattice::Label;
use lab_text::{Policy, mac_from_text};
use line_text::LineFault;
use std::alloc::Global;
use world_text::WorldText;

/// Writes the last line of an input that is not whole.
pub fn report_unless_whole<K: Sink>(
    alloc: Global,
    ending: InputEnd,
    out: &mut K,
) -> Result<(), Fault>
    ensures { WritesOut result (unless_whole ending) (K.view out.old) (K.view out.new) }
{
    match ending {
        InputEnd::Whole => Ok(()),
        InputEnd::Refused(..) | InputEnd::RefusedWord(..) | InputEnd::TooMuch => {
            report_last(alloc, 0, ending, out)
        }
    }
}

// Writes what follows the replies. Without a crossing that is the end lines and the last line.
fn finish_view<K: Sink>(
    texts: Texts<'_>,
    kernel: &Kernel,
    report: Report,
    ending: InputEnd,
    out: &mut K,
) -> Result<(), Fault>
    ensures below { (label : Label) (count : ℕ) → report ≡ a_report.Below label count
        → WritesOut result (ends_text (Some label) texts.entry.policy.now (state_of kernel.now)
        ++ last_text count ending) (K.view out.old) (K.view out.new) }
    ensures others { ((label : Label) (count : ℕ) → report ≢ a_report.Below label count)
        → WritesOut result (unless_whole ending) (K.view out.old) (K.view out.new) }
{
    match report {
        Report::Below(label, written) => {
            let seen = Played {
                count: written,
                ending,
            };
            finish(texts, kernel, &Some(label), seen, out)
        }
        Report::All | Report::Crossed | Report::Counted(_) | Report::Named(_) => {
            report_unless_whole(texts.alloc, ending, out)
        }
    }
}

// Plays the script of an accepted world, and writes what a label sees of it.
fn view_from<S: Source, K: Sink>(
    alloc: Global,
    label: Label,
    opened: OpenedWorld,
    source: &mut S,
    out: &mut K,
) -> Result<InputEnd, Fault>
    requires { IsOpened opened }
    ensures { (trail : SinkView) → WritesLeft (due_of_label (Some label) opened.read opened.lines) result opened.lines
        (S.view source.old).left (S.view source.new).left
        (ends (S.view source.old).faults (K.view out.old) trail)
        (ends (S.view source.new).faults (K.view out.new) trail) }
{
    let OpenedWorld { read, lines } = opened;
    let WorldText { policy, world } = read;
    let texts = Texts {
        alloc,
        policy: &policy,
    };
    let (kernel, _) = Kernel::boot_from(alloc, world)?;
    let mut session = Session {
        texts,
        kernel,
        lines,
        report: Report::Below(label, 0),
    };
    let played = session.play(source, out, &mut SureSink::new())?;
    finish_view(texts, &session.kernel, session.report, played.ending, out)?;
    Ok(played.ending)
}

// The label that a word denotes.
fn label_named(policy: &Policy, word: &Argument<'_>) -> Option<Label>
    ensures { result ≡ parse_label policy.now word.now }
{
    mac_from_text(policy, word.bytes()).ok()
}

/// Plays a world that was accepted and the script after it, and writes what the label of a word sees of it: the replies
/// up to the first call that crosses the label, and the line `crossed`, or else the end lines and how many replies were
/// written.
pub fn view<S: Source, K: Sink>(
    alloc: Global,
    word: Argument<'_>,
    opened: OpenedWorld,
    source: &mut S,
    out: &mut K,
) -> Result<InputEnd, Fault>
    requires { IsOpened opened }
    ensures { (trail : SinkView) → DoesWorld (InputCommand.View word.entry) result opened.read opened.lines
        (S.view source.old).left (S.view source.new).left
        (ends (S.view source.old).faults (K.view out.old) trail)
        (ends (S.view source.new).faults (K.view out.new) trail) }
{
    match label_named(&opened.read.policy, &word) {
        Some(label) => view_from(alloc, label, opened, source, out),
        None => {
            let ending = InputEnd::RefusedWord(CommandWord::View, LineFault::BadLabel);
            end_without_world(alloc, ending, out)
        }
    }
}
