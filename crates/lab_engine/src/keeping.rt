// A script that is played for what is kept of its calls.
ghost use Rattle.std.specs.Prelude.{◌≡◌, ℕ, ◌≤◌, ◌^◌, true};
ghost use Rattle.lab_text.specs.Policy.{top_of};
ghost use Rattle.lab_engine.specs.Counts.{CountsOnce, counts};
ghost use Rattle.lab_engine.specs.Judging.{judge_of};
ghost use Rattle.lab_engine.specs.Keeping.{KeepsScript};
ghost use Rattle.lab_engine.specs.Report.{CountsAtMost};

use crate::playing::play_script;
use crate::reading::LineRules;
use crate::reporter::Reporter;
use crate::reporting::Report;
use crate::{Fault, InputEnd};
use io_ends::{Lines, Source, SureSink};
use kern_model::Calls;

/// How a script ends that was played, and what is kept of its calls.
#[derive(Clone, Copy)]
pub struct Kept {
    pub ending: InputEnd,
    pub report: Report,
}

/// Plays a script to its end, each line as soon as it is read, and keeps of its calls what a report keeps. It writes nothing.
pub fn keep_script<C: Calls, S: Source>(
    rules: LineRules<'_>,
    report: Report,
    kernel: &mut C,
    lines: &mut Lines,
    source: &mut S,
) -> Result<Kept, Fault>
    requires more { lines.old.more ≡ true }
    requires small { lines.old.room ≤ 2 ^ 24 }
    requires top { (C.state kernel.old).top ≡ top_of rules.texts.policy.now }
    requires counted { CountsAtMost 0 report }
    ensures keeps { KeepsScript result (judge_of rules.entry.judge) report rules.entry.texts.policy.now (C.state kernel.old) (C.state kernel.new) lines.old lines.new
        (S.view source.old).left (S.view source.new).left }
    ensures counts { (o t : ℕ) → CountsOnce result (counts (S.view source.old).faults o t) (counts (S.view source.new).faults o t) }
{
    let (buffer, out, trail) = (
        &mut Vec::new(rules.texts.alloc),
        &mut SureSink::new(),
        &mut SureSink::new(),
    );
    let mut reporter = Reporter::new(rules.texts, report, buffer, out, trail);
    let played = play_script(rules.judge, kernel, lines, source, &mut reporter)?;
    Ok(Kept {
        ending: played.ending,
        report: reporter.report,
    })
}
