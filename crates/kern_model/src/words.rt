// The words by which scripts, replies and the trail name the kernel's values.
ghost use Rattle.std.specs.Prelude.{◌≡◌, ◌++◌, ◌∷◌, OnOk};
ghost use Rattle.std.specs.Fmt.{decimal};
ghost use Rattle.kern_model.specs.Names.{check_word, errno_word, kind_word, place_text, ending_text};

use crate::{CheckName, Ending, Errno, Kind, NoMemory, Place};
use fs_path::put_number;

impl CheckName {
    /// Its word.
    pub fn word(self) -> &'static [u8]
        ensures { result.now ≡ check_word self }
    {
        match self {
            CheckName::MacRead => b"mac_read",
            CheckName::MacWrite => b"mac_write",
            CheckName::LabelOrder => b"label_order",
            CheckName::MacUpgrade => b"mac_upgrade",
            CheckName::MacDowngrade => b"mac_downgrade",
            CheckName::MacSubject => b"mac_subject",
            CheckName::DacRead => b"dac_read",
            CheckName::DacSearch => b"dac_search",
            CheckName::DacWrite => b"dac_write",
            CheckName::DacExecute => b"dac_execute",
            CheckName::ExecKind => b"exec_kind",
            CheckName::Owner => b"owner",
            CheckName::Chown => b"chown",
            CheckName::Setfcap => b"setfcap",
            CheckName::CapWithin => b"cap_within",
            CheckName::CapGrow => b"cap_grow",
            CheckName::Setuid => b"setuid",
            CheckName::Setgid => b"setgid",
            CheckName::Kill => b"kill",
            CheckName::LinkDir => b"link_dir",
            CheckName::UnlinkDir => b"unlink_dir",
            CheckName::AudWrite => b"aud_write",
            CheckName::AudSwitch => b"aud_switch",
            CheckName::SetuidAll => b"setuid_all",
            CheckName::SetgidAll => b"setgid_all",
            CheckName::Fsetid => b"fsetid",
        }
    }
}

impl Errno {
    /// Its word.
    pub fn word(self) -> &'static [u8]
        ensures { result.now ≡ errno_word self }
    {
        match self {
            Errno::EACCES => b"EACCES",
            Errno::EAGAIN => b"EAGAIN",
            Errno::EBADF => b"EBADF",
            Errno::EBUSY => b"EBUSY",
            Errno::ECHILD => b"ECHILD",
            Errno::EEXIST => b"EEXIST",
            Errno::EFBIG => b"EFBIG",
            Errno::EINVAL => b"EINVAL",
            Errno::EISDIR => b"EISDIR",
            Errno::EMFILE => b"EMFILE",
            Errno::EMLINK => b"EMLINK",
            Errno::ENFILE => b"ENFILE",
            Errno::ENOENT => b"ENOENT",
            Errno::ENOSPC => b"ENOSPC",
            Errno::ENOTDIR => b"ENOTDIR",
            Errno::ENOTEMPTY => b"ENOTEMPTY",
            Errno::EPERM => b"EPERM",
            Errno::EPIPE => b"EPIPE",
            Errno::ESPIPE => b"ESPIPE",
            Errno::ESRCH => b"ESRCH",
        }
    }
}

impl Kind {
    /// Its word.
    pub fn word(self) -> &'static [u8]
        ensures { result.now ≡ kind_word self }
    {
        match self {
            Kind::Dir => b"dir",
            Kind::File => b"file",
            Kind::Fifo => b"fifo",
            Kind::Pipe => b"pipe",
        }
    }
}

// A letter and a number.
fn put_counted(text: &mut Vec<u8>, letter: u8, n: u8) -> Result<(), NoMemory>
    ensures { OnOk result (text.new.items ≡ text.old.items ++ letter ∷ decimal n) }
{
    text.push(letter)?;
    put_number(text, u64::from(n))
}

/// Writes a place: `p0`, `p1` and on for the first path, `q0`, `q1` and on for the second, `fd`, `pid` or `self`.
pub fn put_place(text: &mut Vec<u8>, place: Place) -> Result<(), NoMemory>
    ensures { OnOk result (text.new.items ≡ text.old.items ++ place_text place) }
{
    match place {
        Place::First(n) => put_counted(text, b'p', n),
        Place::Second(n) => put_counted(text, b'q', n),
        Place::Handle => text.extend_from_slice(b"fd"),
        Place::Target => text.extend_from_slice(b"pid"),
        Place::Caller => text.extend_from_slice(b"self"),
    }
}

/// Writes how a process ended: `exit N`, `kill TERM` or `kill KILL`.
pub fn put_ending(text: &mut Vec<u8>, ending: Ending) -> Result<(), NoMemory>
    ensures { OnOk result (text.new.items ≡ text.old.items ++ ending_text ending) }
{
    match ending {
        Ending::Exit(code) => {
            text.extend_from_slice(b"exit ")?;
            put_number(text, u64::from(code))
        }
        Ending::Term => text.extend_from_slice(b"kill TERM"),
        Ending::Kill => text.extend_from_slice(b"kill KILL"),
    }
}
