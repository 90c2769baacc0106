// A script whose lines are written as they came.
ghost use Rattle.std.specs.Prelude.{◌≡◌, ◌≤◌, ◌^◌, true};
ghost use Rattle.io_ends.specs.Ends.{SinkView};
ghost use Rattle.lab_engine.specs.Playing.{ends};
ghost use Rattle.lab_engine.specs.Upgrading.{UpgradesScript};

use crate::checking::calls_in;
use crate::handling::{LineHandler, handle_script};
use crate::judging::Judge;
use crate::reading::LineRules;
use crate::reporter::answer;
use crate::texts::Texts;
use crate::{Fault, InputEnd};
use io_ends::{Lines, Sink, Source};
use script_text::Line;

// Writes lines as they came to a sink, and does not play them.
#[derive(Drop)]
struct LineCopier;

impl<K: Sink> LineHandler<K> for LineCopier {
    ghost use Rattle.lab_engine.specs.Upgrading.{CopiesLine, StopsInLine};

    ghost ready = { λ _ _ _ _. Unit {0} };

    ghost handles = { λ _ line a b. CopiesLine line (K.view a.1) (K.view b.1) };

    ghost stops = { λ _ line fault a b. StopsInLine line fault (K.view a.1) (K.view b.1) };

    ghost same_borrows = { λ _ _. Unit {0} };

    fn handle_line(
        &mut self,
        out: &mut K,
        count: u64,
        line: &Line,
        lines: &Lines,
    ) -> Result<u64, Fault> {
        answer(out, lines.ended_line())?;
        Ok(count + calls_in(line))
    }

    ghost same_refl = { λ _. tt };

    ghost same_trans = { λ _ _ _ _ _. tt };
}

/// Reads a script to its end without playing it, and writes each line as it came. A line that sets capability sets that are
/// not uniform is refused, where nothing else is wrong with it.
pub fn upgrade_script<S: Source, K: Sink>(
    texts: Texts<'_>,
    lines: &mut Lines,
    source: &mut S,
    out: &mut K,
) -> Result<InputEnd, Fault>
    requires more { lines.old.more ≡ true }
    requires small { lines.old.room ≤ 2 ^ 24 }
    ensures { (trail : SinkView) → UpgradesScript result texts.entry.policy.now lines.old lines.new (S.view source.old).left (S.view source.new).left
        (ends (S.view source.old).faults (K.view out.old) trail)
        (ends (S.view source.new).faults (K.view out.new) trail) }
{
    let rules = LineRules {
        texts,
        judge: Judge::RefusesMixed,
    };
    let copied = handle_script(rules, lines, source, out, &mut LineCopier)?;
    Ok(copied.ending)
}
