// An input, read line by line.
ghost use Rattle.std.specs.Prelude.{◌≡◌, ℕ, true};
ghost use Rattle.lab_engine.specs.Counts.{CountsOnce, counts};
ghost use Rattle.lab_engine.specs.Judging.{judge_of};
ghost use Rattle.lab_engine.specs.Reading.{Follows, ReadsLine, ReadsWorld};

use crate::judging::Judge;
use crate::texts::Texts;
use crate::{Fault, InputEnd, Part};
use io_ends::{Lines, Next, Source};
use line_text::LineFault;
use script_text::{Line, read_line};
use std::alloc::Global;
use world_text::{Expecting, Format, Parsed, WorldText, parse_line};

/// What reading a world leads to.
#[derive(Drop)]
pub enum ReadWorld {
    /// A world, after which the script begins.
    World(WorldText),
    /// The input ends before its world does.
    Ended(InputEnd),
}

/// What reading one line of a world leads to.
#[derive(Drop)]
pub enum WorldLine {
    /// Another line is expected.
    GoesOn(Expecting),
    /// The world is complete.
    World(WorldText),
    /// The input ends here.
    Ended(InputEnd),
}

/// How the lines of a script are read.
#[derive(Clone, Copy)]
pub struct LineRules<'a> {
    /// By which names, and with what memory.
    pub texts: Texts<'a>,
    /// Which lines are refused that can be read.
    pub judge: Judge,
}

/// What is next in a script.
#[derive(Drop)]
pub enum NextLine {
    /// A line that is taken.
    Line(Line),
    /// The input ends here.
    Ended(InputEnd),
}

/// The end of an input at a line that is refused.
pub fn refused(lines: &Lines, part: Part, why: LineFault) -> InputEnd
    ensures { result ≡ InputEnd.Refused lines.now.number part why }
{
    InputEnd::Refused(u64::from(lines.number()), part, why)
}

// Reads a line of a world.
fn read_world_line<S: Source>(
    alloc: Global,
    expecting: Expecting,
    lines: &mut Lines,
    source: &mut S,
) -> Result<WorldLine, Fault>
    requires { lines.old.more ≡ true }
    ensures reads { ReadsLine result expecting lines.old lines.new (S.view source.old).left (S.view source.new).left }
    ensures counts { (o t : ℕ) → CountsOnce result (counts (S.view source.old).faults o t) (counts (S.view source.new).faults o t) }
{
    match lines.next(source)? {
        Next::Line => match parse_line(alloc, expecting, lines.line())? {
            Parsed::GoesOn(after) => Ok(WorldLine::GoesOn(after)),
            Parsed::Begins(world) => Ok(WorldLine::World(world)),
            Parsed::Refuses(fault) => {
                let ending = refused(lines, Part::World, fault);
                Ok(WorldLine::Ended(ending))
            }
        },
        Next::TooMuch => Ok(WorldLine::Ended(InputEnd::TooMuch)),
        Next::End | Next::Unended | Next::LongLine => {
            let ending = refused(lines, Part::World, LineFault::Syntax);
            Ok(WorldLine::Ended(ending))
        }
    }
}

/// Reads the world of an input, in the format that is due, and takes no more of it from the source than the reader needs for
/// its last line.
pub fn read_world<S: Source>(
    alloc: Global,
    due: Format,
    lines: &mut Lines,
    source: &mut S,
) -> Result<ReadWorld, Fault>
    requires { lines.old.more ≡ true }
    ensures reads { ReadsWorld due result lines.old lines.new (S.view source.old).left (S.view source.new).left }
    ensures counts { (o t : ℕ) → CountsOnce result (counts (S.view source.old).faults o t) (counts (S.view source.new).faults o t) }
{
    let mut expecting = Expecting::Format(due);
    loop {
        match read_world_line(alloc, expecting, lines, source)? {
            WorldLine::GoesOn(after) => expecting = after,
            WorldLine::World(world) => return Ok(ReadWorld::World(world)),
            WorldLine::Ended(ending) => return Ok(ReadWorld::Ended(ending)),
        }
    }
}

/// Reads the next line of a script.
#[inline(always)]
pub fn read_next<S: Source>(
    rules: LineRules<'_>,
    lines: &mut Lines,
    source: &mut S,
) -> Result<NextLine, Fault>
    requires { lines.old.more ≡ true }
    ensures follows { Follows result (judge_of rules.entry.judge) rules.entry.texts.policy.now lines.old lines.new (S.view source.old).left (S.view source.new).left }
    ensures counts { (o t : ℕ) → CountsOnce result (counts (S.view source.old).faults o t) (counts (S.view source.new).faults o t) }
{
    match lines.next(source)? {
        Next::Line => match read_line(rules.texts.alloc, rules.texts.policy, lines.line()) {
            Ok(line) => match rules.judge.fault(&line) {
                None => Ok(NextLine::Line(line)),
                Some(why) => {
                    let ending = refused(lines, Part::Script, why);
                    Ok(NextLine::Ended(ending))
                }
            },
            Err(error) => {
                let ending = refused(lines, Part::Script, error.fault()?);
                Ok(NextLine::Ended(ending))
            }
        },
        Next::End => Ok(NextLine::Ended(InputEnd::Whole)),
        Next::Unended => {
            let ending = refused(lines, Part::Script, LineFault::Syntax);
            Ok(NextLine::Ended(ending))
        }
        Next::LongLine => {
            let ending = refused(lines, Part::Script, LineFault::TooLong);
            Ok(NextLine::Ended(ending))
        }
        Next::TooMuch => Ok(NextLine::Ended(InputEnd::TooMuch)),
    }
}
