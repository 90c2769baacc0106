// The line of the output that a reply stands on.
ghost use Rattle.std.specs.Prelude.{◌≡◌, IfOk};
ghost use Rattle.lab_engine.specs.Reporter.{HasCall, head_of, head_seen, reply_at, who_of};

use ghost_list::GhostList;
use kern_model::{Call, NoMemory, Pid, Reply};
use lab_text::Policy;
use script_text::{Line, reply_text};
use sec_utils::util_text;

/// A call, by where it comes from.
#[derive(Clone, Copy)]
pub enum ReplyLine<'a> {
    /// A call of this line of a script, with its index among those of the line.
    Script(&'a Line, usize),
    /// This call of the program of a process.
    Program(&'a Pid, &'a Call),
}

/// What a reply shows of its call. Only proofs read it, and it takes no memory: it has a line of a script, with the index of
/// the call there, or a call of a program.
#[derive(Drop)]
pub struct CallHead {
    line: GhostList<Line, usize, ()>,
    call: GhostList<Call, (), ()>,
}

impl<'a> ReplyLine<'a> {
    // The process whose call it is.
    #[inline(always)]
    pub(crate) fn who(self) -> &'a Pid
        requires { HasCall self }
        ensures { result.now ≡ who_of self.entry }
    {
        match self {
            ReplyLine::Script(line, _) => match line {
                Line::Blank => unreachable!(),
                Line::One { who, .. } => who,
                Line::Tool(util) => &util.who,
            },
            ReplyLine::Program(who, _) => who,
        }
    }

    // What the reply shows of its call.
    #[inline(always)]
    pub(crate) fn head(self) -> CallHead
        ensures { head_seen result ≡ head_of self.entry }
    {
        match self {
            ReplyLine::Script(line, at) => CallHead {
                line: GhostList::new().with(line, &at, &()),
                call: GhostList::new(),
            },
            ReplyLine::Program(_, call) => CallHead {
                line: GhostList::new(),
                call: GhostList::new().with(call, &(), &()),
            },
        }
    }

    // The line with this reply, in the memory of an earlier text.
    #[inline(always)]
    pub(crate) fn text(
        self,
        buffer: Vec<u8>,
        policy: &Policy,
        reply: &Reply,
    ) -> Result<Vec<u8>, NoMemory>
        requires { HasCall self }
        ensures { IfOk result (λ text. text.items ≡ reply_at policy.now self.entry reply.now) }
    {
        match self {
            ReplyLine::Script(line, at) => match line {
                Line::Blank => unreachable!(),
                Line::One { who, call } => reply_text(
                    buffer,
                    policy,
                    who,
                    call.name().word(),
                    reply,
                ),
                Line::Tool(util) => util_text(buffer, policy, util, at, reply),
            },
            ReplyLine::Program(who, call) => reply_text(
                buffer,
                policy,
                who,
                call.name().word(),
                reply,
            ),
        }
    }
}
