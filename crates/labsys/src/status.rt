// How a run ended.
ghost use Rattle.std.specs.Prelude.{◌≡◌, is_none};
ghost use Rattle.labsys.specs.Exit.{is_reported};

/// How a run ended. The number is the exit status of the program.
#[derive(Clone, Copy, Debug, PartialEq, Eq)]
pub enum Status {
    /// The input was accepted to its end, where the command reads one, and all that is due was written.
    Done,
    /// The arguments name no command.
    Usage,
    /// A line of the input was refused, or the label of `view`, or what `select` is to pick.
    Refused,
    /// A read failed.
    ReadFault,
    /// A write to the output failed.
    WriteFault,
    /// A write to the trail failed.
    TrailFault,
    /// Memory ran out.
    NoMemory,
    /// The input is too long.
    TooLong,
}

impl Status {
    /// What the program prints to standard error, or nothing where the last line of the output reports the status.
    pub fn complaint(self) -> Option<&'static str>
        ensures { is_none result ≡ is_reported self }
    {
        match self {
            Status::Done | Status::Refused | Status::TooLong => None,
            Status::Usage => Some("usage"),
            Status::ReadFault => Some("read fault"),
            Status::WriteFault => Some("write fault"),
            Status::TrailFault => Some("trail fault"),
            Status::NoMemory => Some("no memory"),
        }
    }
}

impl From<Status> for u8 {
    ghost use Rattle.std.specs.Prelude.{◌≡◌};
    ghost use Rattle.labsys.specs.Exit.{exit_code};

    ghost from_gives = { λ status code. code ≡ exit_code status };

    fn from(status: Status) -> u8 {
        match status {
            Status::Done => 0,
            Status::Usage => 1,
            Status::Refused => 2,
            Status::ReadFault => 3,
            Status::WriteFault => 4,
            Status::TrailFault => 5,
            Status::NoMemory => 6,
            Status::TooLong => 7,
        }
    }
}
