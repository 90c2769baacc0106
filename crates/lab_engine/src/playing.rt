// A script that is played.
ghost use Rattle.std.specs.Prelude.{◌≡◌, ◌≤◌, ◌^◌, ◌+◌, ◌∷◌, [], true, OnOk, IfOk, length};
ghost use Rattle.kern_model.specs.Run.{run, state_after_run};
ghost use Rattle.kern_model.specs.Step.{step};
ghost use Rattle.kern_model.specs.Arguments.{is_call};
ghost use Rattle.lab_text.specs.Policy.{top_of};
ghost use Rattle.sec_utils.specs.Items.{items_of};
ghost use Rattle.script_text.specs.Line.{MayBePlayed};
ghost use Rattle.script_text.specs.declared.line.Line.TheVariants as a_line;
ghost use Rattle.lab_engine.specs.Input.{items_in};
ghost use Rattle.lab_engine.specs.Judging.{judge_of};
ghost use Rattle.lab_engine.specs.Report.{CountsAtMost, report_after, report_after_call};
ghost use Rattle.lab_engine.specs.Reporter.{HasCall, HasSeen, calls_seen, played_at, who_of};
ghost use Rattle.lab_engine.specs.Player.{ItemsReadableIfAll, PlaysTo, ReadableIfAll, SameBorrows, ShowsCalls, ShowsScript, WritesCall, WritesItems};

use crate::handling::{LineHandler, handle_script};
use crate::judging::Judge;
use crate::reading::LineRules;
use crate::replying::ReplyLine;
use crate::reporter::Reporter;
use crate::{Fault, InputEnd};
use io_ends::{Lines, Sink, Source};
use kern_model::{Call, Calls};
use script_text::Line;
use sec_utils::{Util, expand};

// Plays a call, and writes what is reported of it.
#[inline(always)]
fn play_call<C: Calls, K: Sink, T: Sink>(
    kernel: &mut C,
    number: u64,
    line: ReplyLine<'_>,
    call: &Call,
    reporter: &mut Reporter<'_, K, T>,
) -> Result<(), Fault>
    requires arguments { is_call (C.state kernel.old).top call.now ≡ true }
    requires line { HasCall line }
    requires small { CountsAtMost (2 ^ 60) reporter.old.report }
    requires number { number ≡ length (calls_seen reporter.old.seen.items) + 1 }
    requires going { calls_seen reporter.old.stopped.items ≡ [] }
    ensures writes { WritesCall result number (played_at (C.state kernel.old) line.entry call.now) reporter.old reporter.new }
    ensures state { OnOk result (C.state kernel.new ≡ (step (C.state kernel.old) (who_of line.entry) call.now).state) }
    ensures report { OnOk result (reporter.new.report ≡ report_after_call reporter.old.report (played_at (C.state kernel.old) line.entry call.now)) }
    ensures readable { OnOk result (ReadableIfAll reporter.old number (played_at (C.state kernel.old) line.entry call.now).recs) }
    ensures saw { ShowsCalls result (played_at (C.state kernel.old) line.entry call.now ∷ []) reporter.old reporter.new }
    ensures start { reporter.new.start.items ≡ reporter.old.start.items }
    ensures same { SameBorrows reporter.old reporter.new }
{
    let outcome = kernel.call(line.who(), call)?;
    reporter.report_call(number, line, &outcome)
}

// Plays the calls of a utility, one for each path, and returns the number of the last one.
#[inline(never)]
fn play_tool<C: Calls, K: Sink, T: Sink>(
    kernel: &mut C,
    count: u64,
    line: &Line,
    util: &Util,
    reporter: &mut Reporter<'_, K, T>,
) -> Result<u64, Fault>
    requires line { line.now ≡ a_line.Tool util.now }
    requires calls { MayBePlayed (C.state kernel.old).top (a_line.Tool util.now) }
    requires small { count + length (items_of util.now) ≤ 2 ^ 60 }
    requires counted { CountsAtMost count reporter.old.report }
    requires seen { HasSeen count reporter.old.seen.items reporter.old.stopped.items }
    ensures writes { WritesItems result count (C.state kernel.old) (items_of util.now) reporter.old reporter.new }
    ensures state { OnOk result (C.state kernel.new ≡ state_after_run (C.state kernel.old) (items_of util.now)) }
    ensures report { OnOk result (reporter.new.report ≡ report_after reporter.old.report (run (C.state kernel.old) (items_of util.now))) }
    ensures count { IfOk result (λ last. last ≡ count + length (items_of util.now)) }
    ensures readable { OnOk result (ItemsReadableIfAll reporter.old count (C.state kernel.old) (items_of util.now)) }
    ensures saw { ShowsCalls result (run (C.state kernel.old) (items_of util.now)) reporter.old reporter.new }
    ensures start { reporter.new.start.items ≡ reporter.old.start.items }
    ensures same { SameBorrows reporter.old reporter.new }
{
    let calls = expand(reporter.texts.alloc, util)?;
    let mut number = count;
    for (at, call) in calls.items().iter().enumerate() {
        number += 1;
        play_call(kernel, number, ReplyLine::Script(line, at), call, reporter)?;
    }
    Ok(number)
}

// Plays the calls of a line after `count` others, and returns the number of the last one.
fn play_line<C: Calls, K: Sink, T: Sink>(
    kernel: &mut C,
    count: u64,
    line: &Line,
    reporter: &mut Reporter<'_, K, T>,
) -> Result<u64, Fault>
    requires calls { MayBePlayed (C.state kernel.old).top line.now }
    requires small { count + length (items_in line.now) ≤ 2 ^ 60 }
    requires counted { CountsAtMost count reporter.old.report }
    requires seen { HasSeen count reporter.old.seen.items reporter.old.stopped.items }
    ensures writes { WritesItems result count (C.state kernel.old) (items_in line.now) reporter.old reporter.new }
    ensures state { OnOk result (C.state kernel.new ≡ state_after_run (C.state kernel.old) (items_in line.now)) }
    ensures report { OnOk result (reporter.new.report ≡ report_after reporter.old.report (run (C.state kernel.old) (items_in line.now))) }
    ensures count { IfOk result (λ last. last ≡ count + length (items_in line.now)) }
    ensures readable { OnOk result (ItemsReadableIfAll reporter.old count (C.state kernel.old) (items_in line.now)) }
    ensures saw { ShowsCalls result (run (C.state kernel.old) (items_in line.now)) reporter.old reporter.new }
    ensures start { reporter.new.start.items ≡ reporter.old.start.items }
    ensures same { SameBorrows reporter.old reporter.new }
{
    match line {
        Line::Blank => Ok(count),
        Line::One { call, .. } => {
            play_call(
                kernel,
                count + 1,
                ReplyLine::Script(line, 0),
                call,
                reporter,
            )?;
            Ok(count + 1)
        }
        Line::Tool(util) => play_tool(kernel, count, line, util, reporter),
    }
}

/// What was played of a script: how many calls, and how the input ends after them.
#[derive(Clone, Copy, Debug, PartialEq, Eq)]
pub struct Played {
    pub count: u64,
    pub ending: InputEnd,
}

impl<'a, C: Calls, K: Sink, T: Sink> LineHandler<C> for Reporter<'a, K, T> {
    ghost use Rattle.std.specs.Prelude.{refl};
    ghost use Rattle.std.proofs.Common.{◌∙◌};
    ghost use Rattle.lab_engine.specs.Input.{items_in};
    ghost use Rattle.lab_engine.specs.Player.{PlaysCalls, StopsCalls, player_view};

    ghost ready = { λ r k count top. ((C.state k).top ≡ top) × CountsAtMost count r.report × HasSeen count r.seen.items r.stopped.items };

    ghost handles = { λ count line a b. PlaysCalls count (items_in line.says) (player_view C.state K.Sink T.Sink a) (player_view C.state K.Sink T.Sink b) };

    ghost stops = { λ count line fault a b. StopsCalls count (items_in line.says) fault (player_view C.state K.Sink T.Sink a) (player_view C.state K.Sink T.Sink b) };

    ghost same_borrows = { λ a b. (b.start.items ≡ a.start.items) × SameBorrows a b };

    #[inline(always)]
    fn handle_line(
        &mut self,
        kernel: &mut C,
        count: u64,
        line: &Line,
        _: &Lines,
    ) -> Result<u64, Fault> {
        play_line(kernel, count, line, self)
    }

    ghost same_refl = { λ a. (refl, (refl, refl, refl)) };

    ghost same_trans = { λ a b c p q. (q.0 ∙ p.0, (q.1.0 ∙ p.1.0, p.1.1 ∙ q.1.1, p.1.2 ∙ q.1.2)) };
}

/// Plays a script to its end, each line as soon as it is read, and reports its calls. A line that the judge refuses ends it.
pub fn play_script<C: Calls, S: Source, K: Sink, T: Sink>(
    judge: Judge,
    kernel: &mut C,
    lines: &mut Lines,
    source: &mut S,
    reporter: &mut Reporter<'_, K, T>,
) -> Result<Played, Fault>
    requires more { lines.old.more ≡ true }
    requires small { lines.old.room ≤ 2 ^ 24 }
    requires top { (C.state kernel.old).top ≡ top_of reporter.old.texts.policy.now }
    requires counted { CountsAtMost 0 reporter.old.report }
    requires seen { HasSeen 0 reporter.old.seen.items reporter.old.stopped.items }
    ensures plays { PlaysTo result (judge_of judge) lines.old lines.new (S.view source.old) (S.view source.new)
        (C.state kernel.old) (C.state kernel.new) reporter.old reporter.new }
    ensures saw { ShowsScript result (judge_of judge) lines.old lines.new (S.view source.old) (S.view source.new)
        (C.state kernel.old) reporter.old reporter.new }
    ensures start { reporter.new.start.items ≡ reporter.old.start.items }
    ensures same { SameBorrows reporter.old reporter.new }
{
    let rules = LineRules {
        texts: reporter.texts,
        judge,
    };
    handle_script(rules, lines, source, kernel, reporter)
}
