// The lines of replies to calls.
ghost use Rattle.std.specs.Prelude.{◌≡◌, IfOk};
ghost use Rattle.line_text.specs.Reply.{reply_line};

use crate::NoMemory;
use kern_model::{Pid, Reply};
use lab_text::Policy;
use line_text::LineWriter;

/// The reply line of a call, with its line feed. `word` names the call, and `room` is an earlier text, whose memory is used.
#[tactic(auto, using(line_text::proofs::ReplyLemmas::line_written), unfolding(line_text::specs::Reply::reply_line))]
#[inline(always)]
pub fn reply_text(
    room: Vec<u8>,
    policy: &Policy,
    who: &Pid,
    word: &[u8],
    reply: &Reply,
) -> Result<Vec<u8>, NoMemory>
    ensures { IfOk result (λ text. text.items ≡ reply_line policy.now who.now word.now reply.now) }
{
    let mut line = LineWriter::over(room);
    line.numbered(policy, who.n, &who.label)?;
    line.word(word)?;
    line.outcome(policy, reply)?;
    line.line_feed()?;
    Ok(line.into_text())
}
