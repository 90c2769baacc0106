// What reporting of a run takes, and what it writes.
ghost use Rattle.std.specs.Prelude.{◌≡◌, ◌+◌, ◌^◌, ◌∷◌, [], OnOk, IfOk, length};
ghost use Rattle.std.specs.List.{flat_map};
ghost use Rattle.aud_record.specs.Written.{rec_text as rec_line};
ghost use Rattle.lab_engine.specs.Order.{to_out};
ghost use Rattle.lab_engine.specs.Session.{trail_head};
ghost use Rattle.lab_engine.specs.Texts.{last_text};
ghost use Rattle.lab_engine.specs.declared.reporting.Report.TheVariants as a_report;
ghost use Rattle.lab_engine.specs.declared.reporting.Shown.TheVariants as a_shown;
ghost use Rattle.lab_engine.specs.Report.{CountsAtMost, before_reply, call_sends, has_reply, report_after_call};
ghost use Rattle.lab_engine.specs.Reporter.{HasCall, HasSeen, HoldReportsSince, SameEnds, call_on, calls_seen, reply_at};
ghost use Rattle.lab_engine.specs.Readable.{AreReadable};
ghost use Rattle.lab_engine.specs.Playing.{WritesBoth, WritesOut, WritesTrail};

use crate::replying::{CallHead, ReplyLine};
use crate::reporting::{Report, Shown};
use crate::texts::{Texts, last_line};
use crate::{Fault, InputEnd};
use aud_record::{header_text, rec_text};
use cap_bits::CapSet;
use ghost_list::GhostList;
use io_ends::{Sink, write_whole};
use kern_model::{Outcome, Pid, Rec, Reply};
use std::alloc::Global;
use std::mem::replace;

// Takes a text, and leaves an empty one in its place.
fn take(buffer: &mut Vec<u8>, alloc: Global) -> Vec<u8>
    ensures taken { result.items ≡ buffer.old.items }
    ensures left { buffer.new.items ≡ [] }
{
    replace(buffer, Vec::new(alloc))
}

// Writes a piece to the trail.
fn note<T: Sink>(trail: &mut T, piece: &[u8]) -> Result<(), Fault>
    ensures { WritesTrail result piece.now (T.view trail.old) (T.view trail.new) }
{
    match write_whole(trail, piece) {
        Ok(()) => Ok(()),
        Err(_) => Err(Fault::Trail),
    }
}

/// Writes a piece to the output.
pub fn answer<K: Sink>(out: &mut K, piece: &[u8]) -> Result<(), Fault>
    ensures { WritesOut result piece.now (K.view out.old) (K.view out.new) }
{
    match write_whole(out, piece) {
        Ok(()) => Ok(()),
        Err(_) => Err(Fault::Write),
    }
}

/// Writes the last line of the output.
pub fn report_last<K: Sink>(
    alloc: Global,
    count: u64,
    ending: InputEnd,
    out: &mut K,
) -> Result<(), Fault>
    ensures { WritesOut result (last_text count ending) (K.view out.old) (K.view out.new) }
{
    let text = last_line(alloc, count, ending)?;
    answer(out, &text)
}

/// Writes the records of a call to the trail, each as one piece. The text in `buffer` is not read.
pub fn note_all<T: Sink>(
    texts: Texts<'_>,
    call: u64,
    recs: &[Rec],
    buffer: &mut Vec<u8>,
    trail: &mut T,
) -> Result<(), Fault>
    ensures writes { WritesTrail result (flat_map (rec_line texts.entry.policy.now call) recs.now) (T.view trail.old) (T.view trail.new) }
    ensures readable { OnOk result (AreReadable texts.entry.policy.now call recs.now) }
{
    for rec in recs {
        *buffer = rec_text(take(buffer, texts.alloc), texts.policy, call, rec)?;
        note(trail, buffer)?;
    }
    Ok(())
}

/// Writes the head of the trail: its header, and the records of the start.
pub fn write_head<T: Sink>(
    texts: Texts<'_>,
    bound: &CapSet,
    recs: &[Rec],
    trail: &mut T,
) -> Result<(), Fault>
    ensures writes { WritesTrail result (trail_head texts.entry.policy.now bound.now recs.now) (T.view trail.old) (T.view trail.new) }
    ensures readable { OnOk result (AreReadable texts.entry.policy.now 0 recs.now) }
{
    let mut text = header_text(texts.alloc, texts.policy, bound)?;
    note(trail, &text)?;
    note_all(texts, 0, recs, &mut text, trail)
}

// The ends that the lines of calls go to, and what the lines take.
#[derive(Drop)]
struct CallWriter<'t, 'a, K: Sink, T: Sink> {
    texts: Texts<'t>,
    // A text whose memory the next line takes.
    buffer: &'a mut Vec<u8>,
    out: &'a mut K,
    trail: &'a mut T,
}

impl<'t, 'a, K: Sink, T: Sink> CallWriter<'t, 'a, K, T> {
    #[inline(always)]
    fn new(texts: Texts<'t>, buffer: &'a mut Vec<u8>, out: &'a mut K, trail: &'a mut T) -> Self
        ensures policy { result.texts.policy.now ≡ texts.entry.policy.now }
        ensures same_out { result.out.ghost_name ≡ out.entry.ghost_name }
        ensures same_trail { result.trail.ghost_name ≡ trail.entry.ghost_name }
        ensures same_buffer { result.buffer.ghost_name ≡ buffer.entry.ghost_name }
        ensures out { result.out.now ≡ out.old }
        ensures trail { result.trail.now ≡ trail.old }
    {
        CallWriter {
            texts,
            buffer,
            out,
            trail,
        }
    }

    // Writes what of a call comes before its reply, and returns whether the reply is to be written.
    #[inline(always)]
    fn show(&mut self, shown: Shown, number: u64, recs: &[Rec]) -> Result<bool, Fault>
        ensures writes { WritesBoth result (before_reply shown self.old.texts.policy.now number recs.now)
            (K.view self.old.out.now) (K.view self.new.out.now) (T.view self.old.trail.now) (T.view self.new.trail.now) }
        ensures reply { IfOk result (λ reply. reply ≡ has_reply shown) }
        ensures readable { OnOk result (shown ≡ a_shown.Call → AreReadable self.old.texts.policy.now number recs.now) }
        ensures same { SameEnds self.old.texts.policy.now self.new.texts.policy.now self.old.out self.new.out self.old.trail self.new.trail }
        ensures same_buffer { self.old.buffer.ghost_name ≡ self.new.buffer.ghost_name }
    {
        match shown {
            Shown::Call => {
                note_all(self.texts, number, recs, self.buffer, self.trail)?;
                Ok(true)
            }
            Shown::Reply => Ok(true),
            Shown::Crossing => {
                answer(self.out, b"crossed\n")?;
                Ok(false)
            }
            Shown::Nothing => Ok(false),
        }
    }

    // Writes the reply to a call.
    #[inline(always)]
    fn reply(&mut self, line: ReplyLine<'_>, reply: &Reply) -> Result<(), Fault>
        requires { HasCall line }
        ensures writes { WritesBoth result (to_out (reply_at self.old.texts.policy.now line.entry reply.now))
            (K.view self.old.out.now) (K.view self.new.out.now) (T.view self.old.trail.now) (T.view self.new.trail.now) }
        ensures same { SameEnds self.old.texts.policy.now self.new.texts.policy.now self.old.out self.new.out self.old.trail self.new.trail }
        ensures same_buffer { self.old.buffer.ghost_name ≡ self.new.buffer.ghost_name }
    {
        *self.buffer = line.text(
            take(self.buffer, self.texts.alloc),
            self.texts.policy,
            reply,
        )?;
        answer(self.out, self.buffer)
    }

    // Has the report go on after a call, and writes what is reported of the call.
    #[inline(always)]
    fn write_call(
        &mut self,
        report: &mut Report,
        number: u64,
        line: ReplyLine<'_>,
        outcome: &Outcome,
    ) -> Result<(), Fault>
        requires line { HasCall line }
        requires small { CountsAtMost (2 ^ 60) report.old }
        ensures writes { WritesBoth result (call_sends report.old self.old.texts.policy.now number (call_on line.entry outcome.now))
            (K.view self.old.out.now) (K.view self.new.out.now) (T.view self.old.trail.now) (T.view self.new.trail.now) }
        ensures report { OnOk result (report.new ≡ report_after_call report.old (call_on line.entry outcome.now)) }
        ensures readable { OnOk result (report.old ≡ a_report.All → AreReadable self.old.texts.policy.now number outcome.now.recs) }
        ensures same { SameEnds self.old.texts.policy.now self.new.texts.policy.now self.old.out self.new.out self.old.trail self.new.trail }
        ensures same_buffer { self.old.buffer.ghost_name ≡ self.new.buffer.ghost_name }
    {
        let shown = report.advance(line.who(), outcome)?;
        if !self.show(shown, number, outcome.recs.items())? {
            return Ok(());
        }
        self.reply(line, &outcome.reply)
    }
}

/// The ends that a run is reported to, with what its lines take and what is kept of its replies.
///
/// Behind what the output and the trail held at the start they hold what is reported of the calls that were seen, and
/// after a refused write a prefix of what is reported of the next call, in the order of the calls: the records of a
/// call stand before its reply.
#[derive(Drop)]
pub struct Reporter<'a, K: Sink, T: Sink> {
    /// What writing a line takes.
    pub texts: Texts<'a>,
    /// What of the run is written, and what is kept of its replies.
    pub report: Report,
    // A text whose memory the next line takes.
    buffer: &'a mut Vec<u8>,
    out: &'a mut K,
    trail: &'a mut T,
    // The output, the trail and the report as they were at the start.
    start: GhostList<K, T, Report>,
    // The calls that were seen.
    seen: GhostList<Pid, CallHead, Outcome>,
    // The call that a fault stopped, or none.
    stopped: GhostList<Pid, CallHead, Outcome>,
    ghost kept: { ∥ HoldReportsSince K.view T.view start.items texts.policy.now report (calls_seen seen.items) (calls_seen stopped.items) (K.view out.now) (T.view trail.now) ∥₁ },
}

impl<'a, K: Sink, T: Sink> Reporter<'a, K, T> {
    ghost use Rattle.lab_engine.specs.Player.{ReadableIfAll, SameBorrows, ShowsCalls, WritesCall};

    /// A reporter over an output and a trail, which has seen no call. The text in `buffer` is not read.
    pub fn new(
        texts: Texts<'a>,
        report: Report,
        buffer: &'a mut Vec<u8>,
        out: &'a mut K,
        trail: &'a mut T,
    ) -> Self
        ensures policy { result.texts.policy.now ≡ texts.entry.policy.now }
        ensures report { result.report ≡ report }
        ensures same_out { result.out.ghost_name ≡ out.entry.ghost_name }
        ensures same_trail { result.trail.ghost_name ≡ trail.entry.ghost_name }
        ensures same_buffer { result.buffer.ghost_name ≡ buffer.entry.ghost_name }
        ensures out { result.out.now ≡ out.old }
        ensures trail { result.trail.now ≡ trail.old }
        ensures start { result.start.items ≡ (out.old, (trail.old, report)) ∷ [] }
        ensures seen { HasSeen 0 result.seen.items result.stopped.items }
    {
        let start = GhostList::new().with(&*out, &*trail, &report);
        Reporter {
            texts,
            report,
            buffer,
            out,
            trail,
            start,
            seen: GhostList::new(),
            stopped: GhostList::new(),
        }
    }

    /// Writes what is reported of a call. The call is seen then, or is the one at which a fault stopped.
    #[inline(always)]
    pub fn report_call(
        &mut self,
        number: u64,
        line: ReplyLine<'_>,
        outcome: &Outcome,
    ) -> Result<(), Fault>
        requires line { HasCall line }
        requires small { CountsAtMost (2 ^ 60) self.old.report }
        requires number { number ≡ length (calls_seen self.old.seen.items) + 1 }
        requires going { calls_seen self.old.stopped.items ≡ [] }
        ensures writes { WritesCall result number (call_on line.entry outcome.now) self.old self.new }
        ensures report { OnOk result (self.new.report ≡ report_after_call self.old.report (call_on line.entry outcome.now)) }
        ensures readable { OnOk result (ReadableIfAll self.old number outcome.now.recs) }
        ensures saw { ShowsCalls result (call_on line.entry outcome.now ∷ []) self.old self.new }
        ensures start { self.new.start.items ≡ self.old.start.items }
        ensures same { SameBorrows self.old self.new }
    {
        let mut writer = CallWriter::new(self.texts, self.buffer, self.out, self.trail);
        match writer.write_call(&mut self.report, number, line, outcome) {
            Ok(()) => {
                self.seen = self.seen.with(line.who(), &line.head(), outcome);
                Ok(())
            }
            Err(fault) => {
                self.stopped = self.stopped.with(line.who(), &line.head(), outcome);
                Err(fault)
            }
        }
    }
}
