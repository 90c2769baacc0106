// What is done with the lines of a script, one after another.
ghost use Rattle.std.specs.Prelude.{◌≡◌, ℕ, ◌≤◌, ◌^◌, ◌+◌, true, IfOk, length};
ghost use Rattle.lab_lattice.specs.Label.{Label};
ghost use Rattle.lab_text.specs.Policy.{top_of};
ghost use Rattle.lab_engine.specs.declared.ending.Fault.{Fault};
ghost use Rattle.lab_engine.specs.Input.{ScriptLine, items_in, script_line};
ghost use Rattle.lab_engine.specs.Judging.{judge_of};
ghost use Rattle.lab_engine.specs.Handling.{HandlesOrStops, HandlesScript, HoldsLine, MayBeHandled, StaysReady};

use crate::Fault;
use crate::playing::Played;
use crate::reading::{LineRules, NextLine, read_next};
use io_ends::{Lines, Source};
use script_text::Line;

/// What is done with each line of a script, on a value such as a kernel.
pub trait LineHandler<C> {
    /// After so many calls, it is ready for others below this label.
    ghost ready: { Self → C → ℕ → Label → Type 0 };

    /// After so many calls, it handled this line.
    ghost handles: { ℕ → ScriptLine → Self × C → Self × C → Type 0 };

    /// After so many calls, it was stopped in this line by a fault.
    ghost stops: { ℕ → ScriptLine → Fault → Self × C → Self × C → Type 0 };

    /// What it borrows is the same.
    ghost same_borrows: { Self → Self → Type 0 };

    /// Handles the line that a reader holds after `count` calls, and returns the number of its last call.
    fn handle_line(
        &mut self,
        on: &mut C,
        count: u64,
        line: &Line,
        lines: &Lines,
    ) -> Result<u64, Fault>
        requires held { HoldsLine lines.now }
        requires calls { MayBeHandled (ready self.old on.old count) line.now }
        requires small { count + length (items_in line.now) ≤ 2 ^ 60 }
        ensures handled { HandlesOrStops handles stops result count (script_line lines.now.line line.now) (self.old, on.old) (self.new, on.new) }
        ensures count { IfOk result (λ last. last ≡ count + length (items_in line.now)) }
        ensures ready { StaysReady result (ready self.old on.old count) (ready self.new on.new (count + length (items_in line.now))) }
        ensures same { same_borrows self.old self.new };

    ghost same_refl: { (a : Self) → same_borrows a a };

    ghost same_trans: { (a b c : Self) → same_borrows a b → same_borrows b c → same_borrows a c };
}

/// Reads a script to its end, and handles each line as soon as it is read.
#[inline(always)]
pub fn handle_script<C, S: Source, H: LineHandler<C>>(
    rules: LineRules<'_>,
    lines: &mut Lines,
    source: &mut S,
    on: &mut C,
    handler: &mut H,
) -> Result<Played, Fault>
    requires more { lines.old.more ≡ true }
    requires small { lines.old.room ≤ 2 ^ 24 }
    requires ready { H.ready handler.old on.old 0 (top_of rules.texts.policy.now) }
    ensures handles { HandlesScript H.handles H.stops result (judge_of rules.entry.judge) rules.entry.texts.policy.now lines.old lines.new (S.view source.old) (S.view source.new)
        (handler.old, on.old) (handler.new, on.new) }
    ensures same { H.same_borrows handler.old handler.new }
{
    let mut count = 0u64;
    loop {
        match read_next(rules, lines, source)? {
            NextLine::Line(line) => count = handler.handle_line(on, count, &line, lines)?,
            NextLine::Ended(ending) => return Ok(Played { count, ending }),
        }
    }
}
