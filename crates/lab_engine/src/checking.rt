// A script that is read and not played.
ghost use Rattle.std.specs.Prelude.{◌≡◌, ℕ, ◌≤◌, ◌^◌, true, length};
ghost use Rattle.sec_utils.specs.declared.util.Util.{Util};
ghost use Rattle.sec_utils.specs.Calls.{IsWhole};
ghost use Rattle.script_text.specs.declared.line.Line.TheVariants as a_line;
ghost use Rattle.lab_engine.specs.Input.{items_in};
ghost use Rattle.lab_engine.specs.Counts.{CountsOnce, counts};
ghost use Rattle.lab_engine.specs.Checking.{ChecksScript};

use crate::Fault;
use crate::handling::{LineHandler, handle_script};
use crate::judging::Judge;
use crate::playing::Played;
use crate::reading::LineRules;
use crate::texts::Texts;
use io_ends::{Lines, Source};
use script_text::Line;

// How many calls a line stands for.
pub(crate) fn calls_in(line: &Line) -> u64
    requires { (util : Util) → line.now ≡ a_line.Tool util → IsWhole util }
    ensures { result ≡ length (items_in line.now) }
{
    match line {
        Line::Blank => 0,
        Line::One { .. } => 1,
        Line::Tool(util) => util.paths.items().len() as u64,
    }
}

// Counts the calls of lines, and does not play them.
#[derive(Drop)]
struct Checker;

impl LineHandler<()> for Checker {
    ghost ready = { λ _ _ _ _. Unit {0} };

    ghost handles = { λ _ _ _ _. Unit {0} };

    ghost stops = { λ _ _ _ _ _. ⊥ };

    ghost same_borrows = { λ _ _. Unit {0} };

    #[inline(always)]
    fn handle_line(
        &mut self,
        _: &mut (),
        count: u64,
        line: &Line,
        _: &Lines,
    ) -> Result<u64, Fault> {
        Ok(count + calls_in(line))
    }

    ghost same_refl = { λ _. tt };

    ghost same_trans = { λ _ _ _ _ _. tt };
}

/// Reads a script to its end without playing it: how many calls it has up to the first refused line, and how the input
/// ends after them.
pub fn check_script<S: Source>(
    texts: Texts<'_>,
    lines: &mut Lines,
    source: &mut S,
) -> Result<Played, Fault>
    requires more { lines.old.more ≡ true }
    requires small { lines.old.room ≤ 2 ^ 24 }
    ensures checks { ChecksScript result texts.entry.policy.now lines.old lines.new (S.view source.old).left (S.view source.new).left }
    ensures counts { (o t : ℕ) → CountsOnce result (counts (S.view source.old).faults o t) (counts (S.view source.new).faults o t) }
{
    let rules = LineRules {
        texts,
        judge: Judge::TakesAll,
    };
    handle_script(rules, lines, source, &mut (), &mut Checker)
}
