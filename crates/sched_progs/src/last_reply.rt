// The last reply to a process.
ghost use Rattle.std.specs.Prelude.{◌≡◌};
ghost use Rattle.sched_progs.specs.Programs.{is_taken, last_of};

use kern_model::{Answer, Reply};
use script_text::When;

/// What a jump may ask of the last reply to a process.
#[derive(Clone, Copy, Debug, PartialEq, Eq)]
pub enum LastReply {
    /// There was none yet.
    Fresh,
    /// The call was done, and the reply is no number.
    Done,
    /// The call was done, and the reply is this one number.
    Number(u32),
    /// A check denied the call.
    Denied,
    /// The call was refused, and no check denied it.
    Refused,
}

impl LastReply {
    /// What a jump may ask of this reply.
    pub fn of(reply: &Reply) -> LastReply
        ensures { result ≡ last_of reply.now }
    {
        match reply {
            Reply::Done(Answer::Number(n)) => LastReply::Number(*n),
            Reply::Done(_) => LastReply::Done,
            Reply::Denied { .. } => LastReply::Denied,
            Reply::Refused(_) => LastReply::Refused,
        }
    }

    /// Whether a jump is taken after it.
    pub fn takes(self, when: When) -> bool
        ensures { result ≡ is_taken when self }
    {
        match when {
            When::Always => true,
            When::Fresh => matches!(self, LastReply::Fresh),
            When::Done => matches!(self, LastReply::Done | LastReply::Number(_)),
            When::Denied => matches!(self, LastReply::Denied),
            When::Refused => matches!(self, LastReply::Refused),
            When::Number(n) => match self {
                LastReply::Number(m) => m == n,
                _ => false,
            },
        }
    }
}
