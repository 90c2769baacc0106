// The words of lines of programs: their keywords, and the conditions of jumps.
ghost use Rattle.std.specs.Prelude.{◌≡◌};
ghost use Rattle.script_text.specs.Argument as argument;
ghost use Rattle.script_text.specs.StepWords.{keyword_word, keyword_named};
ghost use Rattle.script_text.specs.StepWords.{condition_word, condition_named, plain_condition, number_condition};
ghost use Rattle.script_text.specs.declared.step_word.TheConstants.{MAX_PLACE};

use crate::{LineError, When, argument};
use fs_path::{LineWord, numeral};

/// The highest number of a step in its program. The first step has number 0.
pub const MAX_PLACE: u32 = 255;

/// The first word of a line of programs.
#[derive(Clone, Copy)]
pub enum StepKeyword {
    Slices,
    Rounds,
    Program,
    Do,
    Jump,
    Stop,
}

const KEYWORDS: [StepKeyword; 6] = [
    StepKeyword::Slices,
    StepKeyword::Rounds,
    StepKeyword::Program,
    StepKeyword::Do,
    StepKeyword::Jump,
    StepKeyword::Stop,
];

impl StepKeyword {
    /// The keyword with these bytes.
    #[tactic(auto, unfolding(kern_model::specs::Named::find_named))]
    pub fn from_bytes(bytes: &[u8]) -> Option<StepKeyword>
        ensures { result ≡ keyword_named bytes.now }
    {
        KEYWORDS
            .iter()
            .copied()
            .find(|keyword| bytes == keyword.word())
    }

    // Its word.
    fn word(self) -> &'static [u8]
        ensures { result.now ≡ keyword_word self }
    {
        match self {
            StepKeyword::Slices => b"slices",
            StepKeyword::Rounds => b"rounds",
            StepKeyword::Program => b"program",
            StepKeyword::Do => b"do",
            StepKeyword::Jump => b"jump",
            StepKeyword::Stop => b"stop",
        }
    }
}

// The conditions of one word.
const PLAIN_CONDITIONS: [When; 5] = [
    When::Always,
    When::Fresh,
    When::Done,
    When::Denied,
    When::Refused,
];

// The first word of a condition.
fn condition_word(when: When) -> &'static [u8]
    ensures { result.now ≡ condition_word when }
{
    match when {
        When::Always => b"always",
        When::Fresh => b"fresh",
        When::Done => b"done",
        When::Denied => b"denied",
        When::Refused => b"refused",
        When::Number(_) => b"number",
    }
}

// The condition of one word with these bytes.
#[tactic(auto, unfolding(kern_model::specs::Named::find_named))]
fn condition_named(bytes: &[u8]) -> Option<When>
    ensures { result ≡ condition_named bytes.now }
{
    PLAIN_CONDITIONS
        .iter()
        .copied()
        .find(|when| bytes == condition_word(*when))
}

/// A condition of one word.
#[tactic(auto, unfolding(crate::specs::StepWords::plain_condition))]
pub fn plain_condition(word: &LineWord<'_>) -> Result<When, LineError>
    ensures { result ≡ plain_condition word.now.bytes }
{
    condition_named(word.bytes.items()).ok_or(LineError::Syntax)
}

/// A condition of two words.
#[tactic(auto, unfolding(crate::specs::StepWords::number_condition, crate::specs::Reading::map_reading))]
pub fn number_condition(word: &LineWord<'_>, n: &LineWord<'_>) -> Result<When, LineError>
    ensures { result ≡ number_condition word.now.bytes n.now.bytes }
{
    if word.bytes.items() != b"number".as_slice() {
        return Err(LineError::Syntax);
    }
    argument::number(n).map(When::Number)
}

/// The number of a step in its program.
#[tactic(auto, unfolding(crate::specs::Argument::up_to))]
pub fn place(word: &LineWord<'_>) -> Result<u8, LineError>
    ensures { result ≡ argument.up_to MAX_PLACE word.now.bytes }
{
    let n = numeral(word.bytes.items(), 10, 10, 0, u64::from(MAX_PLACE)).ok_or(LineError::Syntax)?;
    Ok(n as u8)
}
