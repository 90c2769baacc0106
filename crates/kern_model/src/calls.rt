// Calls and their replies.
ghost use Rattle.std.specs.Prelude.{◌≡◌};
ghost use Rattle.kern_model.specs.Names.{name_of, word_of};

use crate::{CheckName, Fd, Gid, Ids, Mode, Pid, Place, StatAnswer, Uid};
use cap_bits::CapState;
use fs_path::{ByteList, NameList, Path};
use lab_lattice::Label;

/// How a path is opened: for reading, for writing, made where absent, refused where present, emptied, written at its end.
#[derive(Clone, Copy, Debug, PartialEq, Eq)]
pub struct OpenFlags {
    pub r: bool,
    pub w: bool,
    pub c: bool,
    pub x: bool,
    pub t: bool,
    pub a: bool,
}

/// From where an offset is counted: the start, the present offset or the end.
#[derive(Clone, Copy, Debug, PartialEq, Eq)]
pub enum Whence {
    Set,
    Cur,
    End,
}

/// A signal; the first one only asks whether it could be sent.
#[derive(Clone, Copy, Debug, PartialEq, Eq)]
pub enum Signal {
    Zero,
    Term,
    Kill,
}

/// How a process ended.
#[derive(Clone, Copy, Debug, PartialEq, Eq)]
pub enum Ending {
    Exit(u8),
    Term,
    Kill,
}

/// A system call with its arguments.
#[derive(Debug, Drop)]
pub enum Call {
    /// Opens the object that the path leads to; with `c` makes a file where none is. A mode stands exactly where `c` does.
    OpenPath(Path, OpenFlags, Option<Mode>),
    /// Closes a descriptor.
    Close(Fd),
    /// Reads up to so many bytes, at most `MAX_FILE_BYTES`.
    Read(Fd, u32),
    /// Writes all of these bytes.
    Write(Fd, ByteList),
    /// Moves the offset of a file.
    Lseek(Fd, Whence, i64),
    /// A further descriptor on the same description.
    Dup(Fd),
    /// Makes a pipe.
    Pipe,
    /// Makes a FIFO.
    Mkfifo(Path, Mode),
    /// Reports the status of the object that the descriptor refers to.
    Fstat(Fd),
    /// Makes a directory.
    Mkdir(Path, Mode),
    /// Removes an empty directory.
    Rmdir(Path),
    /// Gives the object of the first path the second as a further name.
    Link(Path, Path),
    /// Removes a name of a file or FIFO.
    Unlink(Path),
    /// Moves the entry of the first path to the second.
    Rename(Path, Path),
    /// Reports the names in the directory.
    Readdir(Path),
    /// Reports the status of the object that the path leads to.
    Stat(Path),
    /// Makes the directory the current one.
    Chdir(Path),
    /// Sets the mode.
    Chmod(Path, Mode),
    /// Sets owner and group.
    Chown(Path, Uid, Gid),
    /// Sets the bits that a new object does not get; at most octal 0777.
    Umask(Mode),
    /// Reports the capability sets of a file.
    CapGetFile(Path),
    /// Sets the capability sets of a file.
    CapSetFile(Path, CapState),
    /// Reports the capability sets of the file that the descriptor refers to.
    CapGetFd(Fd),
    /// Sets the capability sets of the file that the descriptor refers to.
    CapSetFd(Fd, CapState),
    /// Reports the label of the object that the path leads to.
    MacGetFile(Path),
    /// Sets the label of an object.
    MacSetFile(Path, Label),
    /// Reports the label of the object that the descriptor refers to.
    MacGetFd(Fd),
    /// Sets the label of the object that the descriptor refers to.
    MacSetFd(Fd, Label),
    /// Makes a child that is like the caller.
    Fork,
    /// Takes on the credentials that the program gives.
    Exec(Path),
    /// Ends the caller.
    Exit(u8),
    /// Takes the child that ended first.
    Wait,
    /// Sends a signal to a process.
    Kill(Pid, Signal),
    /// Reports the caller's number.
    Getpid,
    /// Reports the parent's number.
    Getppid,
    /// Reports the caller's users and groups.
    Getids,
    /// Sets the caller's user.
    Setuid(Uid),
    /// Sets the caller's group.
    Setgid(Gid),
    /// Reports the caller's capability sets.
    CapGetProc,
    /// Sets the caller's capability sets.
    CapSetProc(CapState),
    /// Reports the caller's label.
    MacGetProc,
    /// Sets the caller's label.
    MacSetProc(Label),
    /// Leaves a note in the trail.
    AudWrite(ByteList),
    /// Switches the caller's records of denials on or off.
    AudSwitch(bool),
}

/// A call by its name alone.
#[derive(Clone, Copy, Debug, PartialEq, Eq)]
pub enum CallName {
    OpenPath,
    Close,
    Read,
    Write,
    Lseek,
    Dup,
    Pipe,
    Mkfifo,
    Fstat,
    Mkdir,
    Rmdir,
    Link,
    Unlink,
    Rename,
    Readdir,
    Stat,
    Chdir,
    Chmod,
    Chown,
    Umask,
    CapGetFile,
    CapSetFile,
    CapGetFd,
    CapSetFd,
    MacGetFile,
    MacSetFile,
    MacGetFd,
    MacSetFd,
    Fork,
    Exec,
    Exit,
    Wait,
    Kill,
    Getpid,
    Getppid,
    Getids,
    Setuid,
    Setgid,
    CapGetProc,
    CapSetProc,
    MacGetProc,
    MacSetProc,
    AudWrite,
    AudSwitch,
}

impl Call {
    /// Its name.
    pub fn name(&self) -> CallName
        ensures { result ≡ name_of self.now }
    {
        match self {
            Call::OpenPath(_, _, _) => CallName::OpenPath,
            Call::Close(_) => CallName::Close,
            Call::Read(_, _) => CallName::Read,
            Call::Write(_, _) => CallName::Write,
            Call::Lseek(_, _, _) => CallName::Lseek,
            Call::Dup(_) => CallName::Dup,
            Call::Pipe => CallName::Pipe,
            Call::Mkfifo(_, _) => CallName::Mkfifo,
            Call::Fstat(_) => CallName::Fstat,
            Call::Mkdir(_, _) => CallName::Mkdir,
            Call::Rmdir(_) => CallName::Rmdir,
            Call::Link(_, _) => CallName::Link,
            Call::Unlink(_) => CallName::Unlink,
            Call::Rename(_, _) => CallName::Rename,
            Call::Readdir(_) => CallName::Readdir,
            Call::Stat(_) => CallName::Stat,
            Call::Chdir(_) => CallName::Chdir,
            Call::Chmod(_, _) => CallName::Chmod,
            Call::Chown(_, _, _) => CallName::Chown,
            Call::Umask(_) => CallName::Umask,
            Call::CapGetFile(_) => CallName::CapGetFile,
            Call::CapSetFile(_, _) => CallName::CapSetFile,
            Call::CapGetFd(_) => CallName::CapGetFd,
            Call::CapSetFd(_, _) => CallName::CapSetFd,
            Call::MacGetFile(_) => CallName::MacGetFile,
            Call::MacSetFile(_, _) => CallName::MacSetFile,
            Call::MacGetFd(_) => CallName::MacGetFd,
            Call::MacSetFd(_, _) => CallName::MacSetFd,
            Call::Fork => CallName::Fork,
            Call::Exec(_) => CallName::Exec,
            Call::Exit(_) => CallName::Exit,
            Call::Wait => CallName::Wait,
            Call::Kill(_, _) => CallName::Kill,
            Call::Getpid => CallName::Getpid,
            Call::Getppid => CallName::Getppid,
            Call::Getids => CallName::Getids,
            Call::Setuid(_) => CallName::Setuid,
            Call::Setgid(_) => CallName::Setgid,
            Call::CapGetProc => CallName::CapGetProc,
            Call::CapSetProc(_) => CallName::CapSetProc,
            Call::MacGetProc => CallName::MacGetProc,
            Call::MacSetProc(_) => CallName::MacSetProc,
            Call::AudWrite(_) => CallName::AudWrite,
            Call::AudSwitch(_) => CallName::AudSwitch,
        }
    }
}

impl CallName {
    /// The word by which scripts, replies and the trail name it.
    pub fn word(self) -> &'static [u8]
        ensures { result.now ≡ word_of self }
    {
        match self {
            CallName::OpenPath => b"open",
            CallName::Close => b"close",
            CallName::Read => b"read",
            CallName::Write => b"write",
            CallName::Lseek => b"lseek",
            CallName::Dup => b"dup",
            CallName::Pipe => b"pipe",
            CallName::Mkfifo => b"mkfifo",
            CallName::Fstat => b"fstat",
            CallName::Mkdir => b"mkdir",
            CallName::Rmdir => b"rmdir",
            CallName::Link => b"link",
            CallName::Unlink => b"unlink",
            CallName::Rename => b"rename",
            CallName::Readdir => b"readdir",
            CallName::Stat => b"stat",
            CallName::Chdir => b"chdir",
            CallName::Chmod => b"chmod",
            CallName::Chown => b"chown",
            CallName::Umask => b"umask",
            CallName::CapGetFile => b"cap_get_file",
            CallName::CapSetFile => b"cap_set_file",
            CallName::CapGetFd => b"cap_get_fd",
            CallName::CapSetFd => b"cap_set_fd",
            CallName::MacGetFile => b"mac_get_file",
            CallName::MacSetFile => b"mac_set_file",
            CallName::MacGetFd => b"mac_get_fd",
            CallName::MacSetFd => b"mac_set_fd",
            CallName::Fork => b"fork",
            CallName::Exec => b"exec",
            CallName::Exit => b"exit",
            CallName::Wait => b"wait",
            CallName::Kill => b"kill",
            CallName::Getpid => b"getpid",
            CallName::Getppid => b"getppid",
            CallName::Getids => b"getids",
            CallName::Setuid => b"setuid",
            CallName::Setgid => b"setgid",
            CallName::CapGetProc => b"cap_get_proc",
            CallName::CapSetProc => b"cap_set_proc",
            CallName::MacGetProc => b"mac_get_proc",
            CallName::MacSetProc => b"mac_set_proc",
            CallName::AudWrite => b"aud_write",
            CallName::AudSwitch => b"aud_switch",
        }
    }
}

/// Error numbers, by the names that POSIX.1 gives them.
#[derive(Clone, Copy, Debug, PartialEq, Eq)]
pub enum Errno {
    /// A check denied the call.
    EACCES,
    /// Too many numbers are drawn, or nothing is there yet.
    EAGAIN,
    /// The descriptor is not open, or not open for reading or for writing.
    EBADF,
    /// The root can't be removed or moved.
    EBUSY,
    /// There is no child.
    ECHILD,
    /// The name is there.
    EEXIST,
    /// A file would be too long.
    EFBIG,
    /// An argument does not fit the object.
    EINVAL,
    /// The object is a directory.
    EISDIR,
    /// The process has too many descriptors.
    EMFILE,
    /// The object has too many names.
    EMLINK,
    /// Too many open descriptions are drawn.
    ENFILE,
    /// A name is not there, or a directory is removed.
    ENOENT,
    /// Too many objects are drawn.
    ENOSPC,
    /// An object before a name of a path, or one that has to be a directory, is not one.
    ENOTDIR,
    /// The directory has entries.
    ENOTEMPTY,
    /// A check denied the call.
    EPERM,
    /// No description for reading is open on the pipe.
    EPIPE,
    /// A pipe or FIFO has no offset.
    ESPIPE,
    /// No living process has the number.
    ESRCH,
}

/// What a call answers that was done.
#[derive(Debug, Drop)]
pub enum Answer {
    Nothing,
    Number(u32),
    Two(u32, u32),
    Bytes(ByteList),
    Names(NameList),
    Stat(StatAnswer),
    Bits(Mode),
    Caps(CapState),
    Mark(Label),
    Process(Pid),
    Parent(Option<Pid>),
    Ids(Ids),
    Ended(Pid, Ending),
}

#[derive(Debug, Drop)]
pub enum Reply {
    /// The call was done.
    Done(Answer),
    /// A check denied the call: with `EACCES` or `EPERM`.
    Denied {
        errno: Errno,
        check: CheckName,
        place: Place,
    },
    /// Another cause stopped the call.
    Refused(Errno),
}
