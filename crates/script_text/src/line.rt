// The lines of a script.
ghost use Rattle.std.specs.Prelude.{◌≡◌, IfOk, IfErr};
ghost use Rattle.lab_text.specs.Policy.{top_of};
ghost use Rattle.script_text.specs.Reading.{Answers, IsCause};
ghost use Rattle.script_text.specs.Line.{bytes_in, call_line, parse_item, parse_line, MayBePlayed};

use crate::call::call_of;
use crate::fault::first_of;
use crate::tool::util_of;
use crate::{LineError, argument};
use fs_path::{LineWord, is_blank, words_of};
use kern_model::limits::MAX_LINE;
use kern_model::{Call, CallName, Pid};
use lab_text::Policy;
use sec_utils::{Tool, Util};
use std::alloc::Global;

/// What a line of a script says.
#[derive(Debug)]
pub enum Line {
    /// No call: it is blank or a comment.
    Blank,
    /// One call of a process.
    One { who: Pid, call: Call },
    /// One use of a utility by a process.
    Tool(Util),
}

// Written out, so that a drop is one call, whatever the line says.
impl Drop for Line {
    #[inline(always)]
    fn drop(self) {
        match self {
            Line::Blank => {}
            Line::One { who: _, call: _ } => {}
            Line::Tool(_) => {}
        }
    }
}

// A call with its tag and its arguments. It is moved into its line at once, and not by way of `both`.
#[tactic(auto, unfolding(crate::specs::Argument::tag, crate::specs::Reading::map_reading, crate::specs::Reading::both))]
fn call_line(
    alloc: Global,
    policy: &Policy,
    tag: &LineWord<'_>,
    name: CallName,
    arguments: &[LineWord<'_>],
) -> Result<Line, LineError>
    ensures { Answers (call_line policy.now tag.now.bytes (bytes_in arguments.now) name) result }
{
    let call = call_of(alloc, policy, name, arguments);
    match (argument::process_of_tag(policy, tag), call) {
        (Some(who), Ok(call)) => Ok(Line::One { who, call }),
        (Some(_), Err(fault)) => Err(fault),
        (None, Ok(_)) => Err(LineError::BadTag),
        (None, Err(fault)) => Err(first_of(LineError::BadTag, fault)),
    }
}

// What the words of a line say.
#[tactic(auto, unfolding(crate::specs::Line::parse_item, crate::specs::Reading::map_reading))]
fn item_of(alloc: Global, policy: &Policy, words: &[LineWord<'_>]) -> Result<Line, LineError>
    ensures { Answers (parse_item policy.now words.now) result }
{
    let [tag, name, arguments @ ..] = words else {
        return Err(LineError::Syntax);
    };
    if tag.quoted || name.quoted {
        return Err(LineError::Syntax);
    }
    if let Some(name) = CallName::from_word(name.bytes.items()) {
        return call_line(alloc, policy, tag, name, arguments);
    }
    let tool = Tool::from_word(name.bytes.items()).ok_or(LineError::Syntax)?;
    util_of(alloc, policy, tag, tool, arguments).map(Line::Tool)
}

/// What a line of a script says. The line comes without its line feed.
#[tactic(auto, unfolding(crate::specs::Line::parse_line))]
pub fn read_line(alloc: Global, policy: &Policy, line: &[u8]) -> Result<Line, LineError>
    ensures parsed { IfOk result (λ parsed. parse_line policy.now line.now ≡ Ok parsed) }
    ensures item { IfOk result (MayBePlayed (top_of policy.now)) }
    ensures cause { IfErr result (IsCause (parse_line policy.now line.now)) }
{
    if line.len() > MAX_LINE {
        return Err(LineError::TooLong);
    }
    if is_blank(line) {
        return Ok(Line::Blank);
    }
    let words = words_of(alloc, line)?.ok_or(LineError::Syntax)?;
    item_of(alloc, policy, words.items())
}
