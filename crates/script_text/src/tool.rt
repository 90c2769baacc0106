// Utilities with their arguments.
ghost use Rattle.std.specs.Prelude.{◌≡◌, IfOk};
ghost use Rattle.script_text.specs.Reading.{Answers};
ghost use Rattle.script_text.specs.Line.{bytes_in};
ghost use Rattle.script_text.specs.Tools.{on_paths, parse_tool, paths};

use crate::fault::both;
use crate::{LineError, NoMemory, argument};
use cap_bits::CapState;
use fs_path::{LineWord, List};
use lab_text::Policy;
use sec_utils::{ByteLists, PathList, Tool, Util};
use std::alloc::Global;

fn paths_of(alloc: Global, words: &[LineWord<'_>]) -> Result<PathList, LineError>
    ensures { Answers (paths (bytes_in words.now)) result }
{
    let mut paths = List::new(alloc);
    for word in words {
        paths.push(argument::path(alloc, word)?)?;
    }
    Ok(paths)
}

fn texts_of(alloc: Global, words: &[LineWord<'_>]) -> Result<ByteLists, NoMemory>
    ensures { IfOk result (λ texts. texts ≡ bytes_in words.now) }
{
    let mut texts = List::new(alloc);
    for word in words {
        texts.push(word.bytes.to_list()?)?;
    }
    Ok(texts)
}

// A utility that sets nothing, on one path or more.
#[tactic(auto, unfolding(crate::specs::Tools::on_paths, crate::specs::Reading::map_reading, crate::specs::Reading::both))]
fn on_paths(
    alloc: Global,
    policy: &Policy,
    tag: &LineWord<'_>,
    tool: Tool,
    words: &[LineWord<'_>],
) -> Result<Util, LineError>
    ensures { Answers (on_paths policy.now tag.now.bytes tool (bytes_in words.now)) result }
{
    if words.is_empty() {
        return Err(LineError::Syntax);
    }
    let (who, paths) = both(argument::tag(policy, tag), paths_of(alloc, words))?;
    Ok(Util {
        who,
        tool,
        caps: CapState::none(),
        mark: None,
        texts: texts_of(alloc, words)?,
        paths,
    })
}

/// A utility with its tag and its arguments.
#[tactic(auto, unfolding(crate::specs::Tools::parse_tool, crate::specs::Reading::map_reading, crate::specs::Reading::both))]
pub fn util_of(
    alloc: Global,
    policy: &Policy,
    tag: &LineWord<'_>,
    tool: Tool,
    words: &[LineWord<'_>],
) -> Result<Util, LineError>
    ensures { Answers (parse_tool policy.now tag.now.bytes tool (bytes_in words.now)) result }
{
    match (tool, words) {
        (Tool::GetFcap | Tool::GetFmac, _) => on_paths(alloc, policy, tag, tool, words),
        (Tool::SetFcap, [caps, paths @ ..]) => {
            let util = on_paths(alloc, policy, tag, tool, paths);
            let (util, caps) = both(util, argument::caps(caps))?;
            Ok(Util { caps, ..util })
        }
        (Tool::SetFmac, [label, paths @ ..]) => {
            let util = on_paths(alloc, policy, tag, tool, paths);
            let (util, label) = both(util, argument::label(policy, label))?;
            Ok(Util {
                mark: Some(label),
                ..util
            })
        }
        (_, []) => Err(LineError::Syntax),
    }
}
