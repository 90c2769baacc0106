// A world that was booted, at its script.
ghost use Rattle.std.specs.Prelude.{◌≡◌, ◌≤◌, ◌^◌, true};
ghost use Rattle.kern_core.specs.Kernel.{state_of};
ghost use Rattle.lab_text.specs.Policy.{top_of};
ghost use Rattle.lab_engine.specs.Input.{takes_all};
ghost use Rattle.lab_engine.specs.Playing.{PlaysScript, ends};
ghost use Rattle.lab_engine.specs.Report.{CountsAtMost};
ghost use Rattle.lab_engine.specs.Reporter.{HasSeen, SameEnds};

use io_ends::{Lines, Sink, Source};
use kern_core::Kernel;
use lab_engine::{Fault, Judge, Played, Report, Reporter, Texts, play_script};

/// The kernel that a world was booted on, with the names of the world's labels, the reader of its script, and what of
/// the run is written and kept.
#[derive(Drop)]
pub struct Session<'a> {
    pub texts: Texts<'a>,
    pub kernel: Kernel,
    pub lines: Lines,
    pub report: Report,
}

impl<'a> Session<'a> {
    // Plays the script, and reports it by a reporter that has seen no call.
    fn play_by<S: Source, K: Sink, T: Sink>(
        &mut self,
        source: &mut S,
        reporter: &mut Reporter<'_, K, T>,
    ) -> Result<Played, Fault>
        requires more { self.old.lines.more ≡ true }
        requires small { self.old.lines.room ≤ 2 ^ 24 }
        requires top { (state_of self.old.kernel).top ≡ top_of reporter.old.texts.policy.now }
        requires counted { CountsAtMost 0 reporter.old.report }
        requires seen { HasSeen 0 reporter.old.seen.items reporter.old.stopped.items }
        ensures plays { PlaysScript result takes_all reporter.old.texts.policy.now reporter.old.report self.new.report
            (state_of self.old.kernel) (state_of self.new.kernel) self.old.lines self.new.lines
            (S.view source.old).left (S.view source.new).left
            (ends (S.view source.old).faults (K.view reporter.old.out.now) (T.view reporter.old.trail.now))
            (ends (S.view source.new).faults (K.view reporter.new.out.now) (T.view reporter.new.trail.now)) }
        ensures same { SameEnds reporter.old.texts.policy.now reporter.new.texts.policy.now
            reporter.old.out reporter.new.out reporter.old.trail reporter.new.trail }
    {
        let played = play_script(
            Judge::TakesAll,
            &mut self.kernel,
            &mut self.lines,
            source,
            reporter,
        );
        self.report = reporter.report;
        played
    }

    /// Plays the script, and reports it to an output and a trail.
    pub fn play<S: Source, K: Sink, T: Sink>(
        &mut self,
        source: &mut S,
        out: &mut K,
        trail: &mut T,
    ) -> Result<Played, Fault>
        requires more { self.old.lines.more ≡ true }
        requires small { self.old.lines.room ≤ 2 ^ 24 }
        requires top { (state_of self.old.kernel).top ≡ top_of self.old.texts.policy.now }
        requires counted { CountsAtMost 0 self.old.report }
        ensures { PlaysScript result takes_all self.old.texts.policy.now self.old.report self.new.report
            (state_of self.old.kernel) (state_of self.new.kernel) self.old.lines self.new.lines
            (S.view source.old).left (S.view source.new).left
            (ends (S.view source.old).faults (K.view out.old) (T.view trail.old))
            (ends (S.view source.new).faults (K.view out.new) (T.view trail.new)) }
    {
        let room = &mut Vec::new(self.texts.alloc);
        let mut reporter = Reporter::new(self.texts, self.report, room, out, trail);
        self.play_by(source, &mut reporter)
    }
}
