// The lines of programs.
ghost use Rattle.std.specs.Prelude.{◌≡◌, IfOk, IfErr};
ghost use Rattle.lab_text.specs.Policy.{top_of};
ghost use Rattle.script_text.specs.Reading.{Answers, IsCause};
ghost use Rattle.script_text.specs.Line.{bytes_in};
ghost use Rattle.script_text.specs.Step.{labels, parse_slices, parse_rounds, parse_program};
ghost use Rattle.script_text.specs.Step.{parse_do, parse_jump, parse_stop, step_by, line_by, step_of_words};
ghost use Rattle.script_text.specs.Step.{parse_step, StepMayBePlayed, DoLine};

use crate::call::call_of;
use crate::fault::both;
use crate::step_word::{StepKeyword, number_condition, place, plain_condition};
use crate::{LabelList, LineError, ProgStep, StepLine, argument};
use fs_path::{LineWord, List, is_blank, words_of};
use kern_model::limits::MAX_LINE;
use kern_model::{Call, CallName};
use lab_text::Policy;
use std::alloc::Global;

fn labels_of(alloc: Global, policy: &Policy, words: &[LineWord<'_>]) -> Result<LabelList, LineError>
    ensures { Answers (labels policy.now (bytes_in words.now)) result }
{
    let mut labels = List::new(alloc);
    for word in words {
        labels.push(argument::label(policy, word)?)?;
    }
    Ok(labels)
}

// What stands after `slices`.
#[tactic(auto, unfolding(crate::specs::Step::parse_slices, crate::specs::Reading::map_reading))]
fn slices(alloc: Global, policy: &Policy, words: &[LineWord<'_>]) -> Result<StepLine, LineError>
    ensures { Answers (parse_slices policy.now (bytes_in words.now)) result }
{
    if words.is_empty() {
        return Err(LineError::Syntax);
    }
    labels_of(alloc, policy, words).map(StepLine::Slices)
}

// What stands after `rounds`.
#[tactic(auto, unfolding(crate::specs::Step::parse_rounds, crate::specs::Reading::map_reading))]
fn rounds(words: &[LineWord<'_>]) -> Result<StepLine, LineError>
    ensures { result ≡ parse_rounds (bytes_in words.now) }
{
    let [n] = words else {
        return Err(LineError::Syntax);
    };
    argument::number(n).map(StepLine::Rounds)
}

// What stands after `program`.
#[tactic(auto, unfolding(crate::specs::Step::parse_program, crate::specs::Reading::map_reading))]
fn program(policy: &Policy, words: &[LineWord<'_>]) -> Result<StepLine, LineError>
    ensures { result ≡ parse_program policy.now words.now }
{
    let [tag] = words else {
        return Err(LineError::Syntax);
    };
    if tag.quoted {
        return Err(LineError::Syntax);
    }
    argument::tag(policy, tag).map(StepLine::Program)
}

// What stands after `do`.
#[tactic(auto, unfolding(crate::specs::Step::parse_do))]
fn call_after_do(alloc: Global, policy: &Policy, words: &[LineWord<'_>]) -> Result<Call, LineError>
    ensures { Answers (parse_do policy.now words.now) result }
{
    let [name, arguments @ ..] = words else {
        return Err(LineError::Syntax);
    };
    if name.quoted {
        return Err(LineError::Syntax);
    }
    let name = CallName::from_word(name.bytes.items()).ok_or(LineError::Syntax)?;
    call_of(alloc, policy, name, arguments)
}

// What stands after `jump`.
#[tactic(auto, unfolding(crate::specs::Step::parse_jump, crate::specs::Reading::map_reading))]
fn jump(words: &[LineWord<'_>]) -> Result<ProgStep, LineError>
    ensures { result ≡ parse_jump (bytes_in words.now) }
{
    let (when, to) = match words {
        [word, to] => both(plain_condition(word), place(to))?,
        [word, n, to] => both(number_condition(word, n), place(to))?,
        _ => return Err(LineError::Syntax),
    };
    Ok(ProgStep::Jump { when, to })
}

// What stands after `stop`.
#[tactic(auto, unfolding(crate::specs::Step::parse_stop))]
fn stop(words: &[LineWord<'_>]) -> Result<ProgStep, LineError>
    ensures { result ≡ parse_stop words.now }
{
    match words {
        [] => Ok(ProgStep::Stop),
        _ => Err(LineError::Syntax),
    }
}

// A step by its keyword, and the words after it.
#[tactic(auto, unfolding(crate::specs::Step::step_by, crate::specs::Reading::map_reading))]
fn step_by(
    alloc: Global,
    policy: &Policy,
    keyword: StepKeyword,
    words: &[LineWord<'_>],
) -> Result<ProgStep, LineError>
    ensures { Answers (step_by policy.now keyword words.now) result }
{
    match keyword {
        StepKeyword::Do => call_after_do(alloc, policy, words).map(ProgStep::Do),
        StepKeyword::Jump => jump(words),
        StepKeyword::Stop => stop(words),
        _ => Err(LineError::Syntax),
    }
}

// A line by its keyword, and the words after it.
#[tactic(auto, unfolding(crate::specs::Step::line_by, crate::specs::Reading::map_reading))]
fn line_by(
    alloc: Global,
    policy: &Policy,
    keyword: Option<StepKeyword>,
    words: &[LineWord<'_>],
) -> Result<StepLine, LineError>
    ensures { Answers (line_by policy.now keyword words.now) result }
{
    match keyword {
        None => Err(LineError::Syntax),
        Some(StepKeyword::Slices) => slices(alloc, policy, words),
        Some(StepKeyword::Rounds) => rounds(words),
        Some(StepKeyword::Program) => program(policy, words),
        Some(keyword) => step_by(alloc, policy, keyword, words).map(StepLine::One),
    }
}

// What the words of a line say.
#[tactic(auto, unfolding(crate::specs::Step::step_of_words))]
fn step_of_words(
    alloc: Global,
    policy: &Policy,
    words: &[LineWord<'_>],
) -> Result<StepLine, LineError>
    ensures { Answers (step_of_words policy.now words.now) result }
{
    let [first, words @ ..] = words else {
        return Err(LineError::Syntax);
    };
    if first.quoted {
        return Err(LineError::Syntax);
    }
    let keyword = StepKeyword::from_bytes(first.bytes.items());
    line_by(alloc, policy, keyword, words)
}

/// What a line of programs says. The line comes without its line feed. In which order lines stand, and how many slices, rounds
/// and steps there are, is judged by the caller.
#[tactic(auto, unfolding(crate::specs::Step::parse_step))]
pub fn read_step(alloc: Global, policy: &Policy, line: &[u8]) -> Result<StepLine, LineError>
    ensures parsed { IfOk result (λ parsed. parse_step policy.now line.now ≡ Ok parsed) }
    ensures item { IfOk result (StepMayBePlayed (top_of policy.now)) }
    ensures cause { IfErr result (IsCause (parse_step policy.now line.now)) }
{
    if line.len() > MAX_LINE {
        return Err(LineError::TooLong);
    }
    if is_blank(line) {
        return Ok(StepLine::Blank);
    }
    let words = words_of(alloc, line)?.ok_or(LineError::Syntax)?;
    step_of_words(alloc, policy, words.items())
}

/// A line that begins with `do` is judged as the line of a script that has the tag of any process in place of `do`, but for its
/// length. A utility is a fault of form.
#[tactic(auto, using(crate::proofs::StepLaws::do_judged))]
pub fn do_line()
    ensures { DoLine }
{}
