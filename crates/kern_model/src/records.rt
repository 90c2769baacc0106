// Records of the audit trail.
use crate::{CallName, CheckName, Ending, Errno, Oid, Pid, Place, Reply, Thing};
use cap_bits::{Cap, CapState};
use fs_path::{ByteList, List};
use lab_lattice::Label;

/// A record of the trail, without the number of its call. Each has the process that it is about.
#[derive(Debug, Drop)]
pub enum Rec {
    /// The process starts with the world, with this label and these capability sets.
    Boot {
        who: Pid,
        label: Label,
        caps: CapState,
    },
    /// The process made a child.
    Fork {
        who: Pid,
        child: Pid,
    },
    /// The process took on a program: its file, the sets of the file, and those that the process has now.
    Exec {
        who: Pid,
        file: Oid,
        file_caps: CapState,
        caps: CapState,
    },
    /// The process ended.
    Exit {
        who: Pid,
        ending: Ending,
    },
    /// The process set its capability sets.
    CapSetProc {
        who: Pid,
        caps: CapState,
    },
    /// The process set the capability sets of a file.
    CapSetFile {
        who: Pid,
        file: Oid,
        caps: CapState,
    },
    /// The process set its label.
    MacSetProc {
        who: Pid,
        old: Label,
        new: Label,
    },
    /// The process set the label of an object.
    MacSetFile {
        who: Pid,
        object: Oid,
        old: Label,
        new: Label,
    },
    /// A capability let the process pass a check.
    Exercise(Exercise),
    /// A check denied a call of the process.
    Deny {
        who: Pid,
        call: CallName,
        errno: Errno,
        check: CheckName,
        place: Place,
    },
    /// The process set its audit switch.
    Switch {
        who: Pid,
        on: bool,
    },
    /// The process left a note.
    Note {
        who: Pid,
        bytes: ByteList,
    },
}

/// An exercise of a capability, which let a process pass a check.
#[derive(Clone, Copy, Debug, PartialEq, Eq)]
pub struct Exercise {
    pub who: Pid,
    /// The process's present label.
    pub label: Label,
    pub cap: Cap,
    pub check: CheckName,
    /// Where in the call the thing stands that the check is about.
    pub place: Place,
    /// That thing, and its present label.
    pub thing: Thing,
    pub thing_label: Label,
    /// The label that the thing is to get, if the check has one.
    pub new_label: Option<Label>,
}

/// Records in order.
pub type RecList = List<Rec>;

/// What a call answers, and the records that it leaves.
#[derive(Debug, Drop)]
pub struct Outcome {
    pub reply: Reply,
    pub recs: RecList,
}
