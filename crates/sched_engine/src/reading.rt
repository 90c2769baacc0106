// A schedule, read line by line.
ghost use Rattle.std.specs.Prelude.{◌≡◌, ℕ, true, IfOk};
ghost use Rattle.lab_engine.specs.Counts.{CountsOnce, counts};
ghost use Rattle.lab_text.specs.Policy.{top_of};
ghost use Rattle.fs_path.specs.Words.{words_of};
ghost use Rattle.sched_engine.specs.Reading.{IfSchedule, IsFaultIn, ReadsLine, ReadsSchedule, are_many_slices};
ghost use Rattle.sched_engine.specs.Schedule.{MayBePlayed};

use crate::schedule::{Expecting, MAX_SLICES, Schedule};
use fs_path::words_of;
use io_ends::{Lines, Next, Source};
use kern_model::NoMemory;
use lab_engine::{Fault, InputEnd, Part, Texts};
use line_text::LineFault;
use script_text::{LineError, read_step};
use std::alloc::Global;

/// What reading a schedule leads to.
#[derive(Drop)]
pub enum ReadSchedule {
    /// A schedule, which goes on to the end of the input.
    Schedule(Schedule),
    /// The input ends without one.
    Ended(InputEnd),
}

/// What reading a line of a schedule leads to.
#[derive(Drop)]
pub enum ScheduleLine {
    /// This is due after it.
    GoesOn(Expecting),
    /// The input ends here.
    Ended(ReadSchedule),
}

// The end of an input at the line that was asked for last, which is refused.
fn refused(lines: &Lines, why: LineFault) -> ScheduleLine
    ensures { result ≡ ScheduleLine.Ended (ReadSchedule.Ended (InputEnd.Refused lines.now.number Part.Script why)) }
{
    let ending = InputEnd::Refused(u64::from(lines.number()), Part::Script, why);
    ScheduleLine::Ended(ReadSchedule::Ended(ending))
}

// Whether a line is `slices` with more labels than may have turns.
fn has_many_slices(alloc: Global, line: &[u8]) -> Result<bool, NoMemory>
    ensures { IfOk result (λ many. many ≡ are_many_slices (words_of line.now)) }
{
    let Some(words) = words_of(alloc, line)? else {
        return Ok(false);
    };
    Ok(match words.items() {
        [first, labels @ ..] => {
            first.bytes.items() == b"slices".as_slice() && labels.len() > MAX_SLICES
        }
        [] => false,
    })
}

// Why a line is refused that was judged alone. Too many labels are a fault of form, whichever they are.
fn fault_in(alloc: Global, line: &[u8], error: LineError) -> Result<LineFault, NoMemory>
    ensures { IfOk result (IsFaultIn line.now error) }
{
    if error == LineError::BadLabel && has_many_slices(alloc, line)? {
        return Ok(LineFault::Syntax);
    }
    error.fault()
}

// Reads a line of a schedule.
fn read_schedule_line<S: Source>(
    texts: Texts<'_>,
    due: Expecting,
    lines: &mut Lines,
    source: &mut S,
) -> Result<ScheduleLine, Fault>
    requires { lines.old.more ≡ true }
    ensures reads { ReadsLine result texts.entry.policy.now due lines.old lines.new (S.view source.old).left (S.view source.new).left }
    ensures counts { (o t : ℕ) → CountsOnce result (counts (S.view source.old).faults o t) (counts (S.view source.new).faults o t) }
{
    match lines.next(source)? {
        Next::Line => {
            let line = lines.line();
            match read_step(texts.alloc, texts.policy, line) {
                Ok(said) => match due.after_step(texts.alloc, said)? {
                    Some(after) => Ok(ScheduleLine::GoesOn(after)),
                    None => Ok(refused(lines, LineFault::Syntax)),
                },
                Err(error) => {
                    let fault = fault_in(texts.alloc, line, error)?;
                    Ok(refused(lines, fault))
                }
            }
        }
        Next::End => match due.into_schedule()? {
            Some(schedule) => Ok(ScheduleLine::Ended(ReadSchedule::Schedule(schedule))),
            None => Ok(refused(lines, LineFault::Syntax)),
        },
        Next::Unended => Ok(refused(lines, LineFault::Syntax)),
        Next::LongLine => Ok(refused(lines, LineFault::TooLong)),
        Next::TooMuch => Ok(ScheduleLine::Ended(ReadSchedule::Ended(InputEnd::TooMuch))),
    }
}

/// Reads the schedule that follows a world, to the end of the input, and plays nothing of it.
pub fn read_schedule<S: Source>(
    texts: Texts<'_>,
    lines: &mut Lines,
    source: &mut S,
) -> Result<ReadSchedule, Fault>
    requires { lines.old.more ≡ true }
    ensures reads { ReadsSchedule result texts.entry.policy.now lines.old lines.new (S.view source.old).left (S.view source.new).left }
    ensures plays { IfOk result (λ found. IfSchedule found (MayBePlayed (top_of texts.entry.policy.now))) }
    ensures counts { (o t : ℕ) → CountsOnce result (counts (S.view source.old).faults o t) (counts (S.view source.new).faults o t) }
{
    let mut due = Expecting::Slices;
    loop {
        match read_schedule_line(texts, due, lines, source)? {
            ScheduleLine::GoesOn(after) => due = after,
            ScheduleLine::Ended(found) => return Ok(found),
        }
    }
}
