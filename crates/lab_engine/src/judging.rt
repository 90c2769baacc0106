// Which lines of a script are refused that can be read.
ghost use Rattle.std.specs.Prelude.{◌≡◌};
ghost use Rattle.lab_engine.specs.Judging.{judge_of};
ghost use Rattle.lab_engine.specs.LeastInput.{line_asks, tool_asks};
ghost use Rattle.lab_engine.specs.UpgradeInput.{call_mixed, sets_mixed, tool_mixed};

use cap_bits::FileCaps;
use kern_model::Call;
use least_caps::asks;
use line_text::LineFault;
use script_text::Line;
use sec_utils::{Tool, Util};

/// Which lines of a script are refused though they can be read. Such a line has no other fault.
#[derive(Clone, Copy)]
pub enum Judge {
    /// None.
    TakesAll,
    /// Those that ask for capability sets.
    RefusesAsked,
    /// Those that set capability sets that are not uniform.
    RefusesMixed,
}

// Whether a utility asks for capability sets.
fn tool_asks(tool: Tool) -> bool
    ensures { result ≡ tool_asks tool }
{
    match tool {
        Tool::GetFcap | Tool::SetFcap => true,
        Tool::GetFmac | Tool::SetFmac => false,
    }
}

// Whether a line asks for capability sets.
fn line_asks(line: &Line) -> bool
    ensures { result ≡ line_asks line.now }
{
    match line {
        Line::Blank => false,
        Line::One { call, .. } => asks(call),
        Line::Tool(util) => tool_asks(util.tool),
    }
}

// Whether a call sets capability sets that are not uniform.
fn call_mixed(call: &Call) -> bool
    ensures { result ≡ call_mixed call.now }
{
    match call {
        Call::CapSetFile(_, caps) | Call::CapSetFd(_, caps) => FileCaps::from_state(caps).is_none(),
        _ => false,
    }
}

// Whether a utility sets capability sets that are not uniform.
fn tool_mixed(util: &Util) -> bool
    ensures { result ≡ tool_mixed util.now.tool util.now.caps }
{
    match util.tool {
        Tool::SetFcap => FileCaps::from_state(&util.caps).is_none(),
        Tool::GetFcap | Tool::GetFmac | Tool::SetFmac => false,
    }
}

// Whether a line sets capability sets that are not uniform.
fn sets_mixed(line: &Line) -> bool
    ensures { result ≡ sets_mixed line.now }
{
    match line {
        Line::Blank => false,
        Line::One { call, .. } => call_mixed(call),
        Line::Tool(util) => tool_mixed(util),
    }
}

impl Judge {
    // Why a line is refused that can be read, if it is.
    pub(crate) fn fault(self, line: &Line) -> Option<LineFault>
        ensures { result ≡ judge_of self line.now }
    {
        match self {
            Judge::TakesAll => None,
            Judge::RefusesAsked => line_asks(line).then_some(LineFault::CapsAsked),
            Judge::RefusesMixed => sets_mixed(line).then_some(LineFault::MixedCaps),
        }
    }
}
