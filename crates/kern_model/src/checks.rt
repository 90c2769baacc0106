// Checks, and their verdicts.
ghost use Rattle.std.specs.Prelude.{◌≡◌};
ghost use Rattle.kern_model.specs.Rules.{cap_of, errno_of};

use crate::{Errno, Oid, Pid};
use cap_bits::Cap;
use lab_lattice::Label;

/// The checks by their names. Each has one rule. The last three are soft: they never refuse, and where their rule fails
/// and the capability is absent a weaker effect is taken.
#[derive(Clone, Copy, Debug, PartialEq, Eq)]
pub enum CheckName {
    /// The caller's label dominates the thing's.
    MacRead,
    /// The labels are equal.
    MacWrite,
    /// The label of an object dominates that of each directory that holds it.
    LabelOrder,
    /// The new label dominates the old one: never without the capability.
    MacUpgrade,
    /// The new label does not dominate the old one: never without the capability.
    MacDowngrade,
    /// A process gets another label: never without the capability.
    MacSubject,
    /// The mode lets the caller read.
    DacRead,
    /// The mode lets the caller search the directory.
    DacSearch,
    /// The mode lets the caller write.
    DacWrite,
    /// The mode lets the caller execute the file.
    DacExecute,
    /// The object is a regular file.
    ExecKind,
    /// The caller is the owner.
    Owner,
    /// The caller owns the object, the owner stays, and the new group is one of the caller's.
    Chown,
    /// The capabilities of a file are set: never without the capability.
    Setfcap,
    /// Each flag asked for is on a permitted capability of the caller.
    CapWithin,
    /// Permitted capabilities do not grow, effective ones are permitted, inheritable ones were inheritable or permitted.
    CapGrow,
    /// The user is the real or the saved one.
    Setuid,
    /// The group is the real or the saved one.
    Setgid,
    /// The sender's real or effective user is the receiver's real or saved one.
    Kill,
    /// The object to be linked is no directory.
    LinkDir,
    /// The object to be unlinked is no directory.
    UnlinkDir,
    /// A note is written to the trail: never without the capability.
    AudWrite,
    /// The audit switch is set: never without the capability.
    AudSwitch,
    /// Soft: real, effective and saved user are the one asked for.
    SetuidAll,
    /// Soft: real, effective and saved group are the one asked for.
    SetgidAll,
    /// Soft: nothing has to be cleared of a file's set-id bits and capability sets.
    Fsetid,
}

impl CheckName {
    /// The capability that lets a call go on where the rule of this check fails, if there is one.
    pub fn cap(self) -> Option<Cap>
        ensures { result ≡ cap_of self }
    {
        match self {
            CheckName::MacRead => Some(Cap::MacRead),
            CheckName::MacWrite => Some(Cap::MacWrite),
            CheckName::MacUpgrade => Some(Cap::MacUpgrade),
            CheckName::MacDowngrade => Some(Cap::MacDowngrade),
            CheckName::MacSubject => Some(Cap::MacRelabelSubj),
            CheckName::DacRead | CheckName::DacSearch => Some(Cap::DacReadSearch),
            CheckName::DacWrite => Some(Cap::DacWrite),
            CheckName::DacExecute => Some(Cap::DacExecute),
            CheckName::Owner => Some(Cap::Fowner),
            CheckName::Chown => Some(Cap::Chown),
            CheckName::Setfcap => Some(Cap::Setfcap),
            CheckName::Kill => Some(Cap::Kill),
            CheckName::AudWrite => Some(Cap::AuditWrite),
            CheckName::AudSwitch => Some(Cap::AuditControl),
            CheckName::SetuidAll => Some(Cap::Setuid),
            CheckName::SetgidAll => Some(Cap::Setgid),
            CheckName::Fsetid => Some(Cap::Fsetid),
            CheckName::LabelOrder
            | CheckName::ExecKind
            | CheckName::CapWithin
            | CheckName::CapGrow
            | CheckName::Setuid
            | CheckName::Setgid
            | CheckName::LinkDir
            | CheckName::UnlinkDir => None,
        }
    }

    /// The error number of a call that this check denied. A soft check denies nothing and has none.
    pub fn errno(self) -> Option<Errno>
        ensures { result ≡ errno_of self }
    {
        match self {
            CheckName::MacRead
            | CheckName::MacWrite
            | CheckName::DacRead
            | CheckName::DacSearch
            | CheckName::DacWrite
            | CheckName::DacExecute
            | CheckName::ExecKind => Some(Errno::EACCES),
            CheckName::SetuidAll | CheckName::SetgidAll | CheckName::Fsetid => None,
            CheckName::LabelOrder
            | CheckName::MacUpgrade
            | CheckName::MacDowngrade
            | CheckName::MacSubject
            | CheckName::Owner
            | CheckName::Chown
            | CheckName::Setfcap
            | CheckName::CapWithin
            | CheckName::CapGrow
            | CheckName::Setuid
            | CheckName::Setgid
            | CheckName::Kill
            | CheckName::LinkDir
            | CheckName::UnlinkDir
            | CheckName::AudWrite
            | CheckName::AudSwitch => Some(Errno::EPERM),
        }
    }
}

/// Where the thing of a check stands in a call: a directory or object of its first or second path, counted from
/// the start of the path, the object that a descriptor refers to, a named process, or the caller.
#[derive(Clone, Copy, Debug, PartialEq, Eq)]
pub enum Place {
    First(u8),
    Second(u8),
    Handle,
    Target,
    Caller,
}

/// What a check is about.
#[derive(Clone, Copy, Debug, PartialEq, Eq)]
pub enum Thing {
    Object(Oid),
    Process(Pid),
}

/// A check of a call, with whether its rule holds.
#[derive(Clone, Copy, Debug, PartialEq, Eq)]
pub struct Check {
    pub name: CheckName,
    pub holds: bool,
    pub thing: Thing,
    pub thing_label: Label,
    pub new_label: Option<Label>,
    pub place: Place,
}

/// The verdict of a check.
#[derive(Clone, Copy, Debug, PartialEq, Eq)]
pub enum Verdict {
    /// Its rule holds.
    Passed,
    /// Its rule fails, and the caller's capability lets the call go on.
    Exercised,
    /// Its rule fails.
    Denied,
}

/// The access to an object that its mode allows or not.
#[derive(Clone, Copy, Debug, PartialEq, Eq)]
pub enum Want {
    Read,
    Write,
    Execute,
}
