// The utilities by their words, and one use of a utility.
ghost use Rattle.std.specs.Prelude.{◌≡◌};
ghost use Rattle.kern_model.specs.Named.{IsFoundBy};
ghost use Rattle.sec_utils.specs.Tools.{tool_word, tool_named};

use cap_bits::CapState;
use fs_path::{ByteList, List, Path};
use kern_model::Pid;
use lab_lattice::Label;

/// The utilities.
#[derive(Clone, Copy, Debug, PartialEq, Eq)]
pub enum Tool {
    /// Reports the capability sets of files.
    GetFcap,
    /// Sets the capability sets of files.
    SetFcap,
    /// Reports the labels of objects.
    GetFmac,
    /// Sets the labels of objects.
    SetFmac,
}

const TOOLS: [Tool; 4] = [Tool::GetFcap, Tool::SetFcap, Tool::GetFmac, Tool::SetFmac];

impl Tool {
    /// The word by which scripts and replies name it.
    pub fn word(self) -> &'static [u8]
        ensures { result.now ≡ tool_word self }
    {
        match self {
            Tool::GetFcap => b"getfcap",
            Tool::SetFcap => b"setfcap",
            Tool::GetFmac => b"getfmac",
            Tool::SetFmac => b"setfmac",
        }
    }

    /// The utility with this word.
    #[tactic(auto, unfolding(kern_model::specs::Named::find_named))]
    pub fn from_word(word: &[u8]) -> Option<Tool>
        ensures found { result ≡ tool_named word.now }
        ensures exact { IsFoundBy tool_word word.now result }
    {
        TOOLS.iter().copied().find(|tool| word == tool.word())
    }
}

/// Texts.
pub type ByteLists = List<ByteList>;

/// Paths.
pub type PathList = List<Path>;

/// One use of a utility by a process.
#[derive(Debug, Drop)]
pub struct Util {
    /// Who calls.
    pub who: Pid,
    pub tool: Tool,
    /// The capability sets that `SetFcap` sets.
    pub caps: CapState,
    /// The label that `SetFmac` sets.
    pub mark: Option<Label>,
    /// The paths as the line spells them, without quotes and escapes.
    pub texts: ByteLists,
    /// The paths.
    pub paths: PathList,
}
