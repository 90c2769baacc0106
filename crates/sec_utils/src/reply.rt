// The lines of replies to utilities.
ghost use Rattle.std.specs.Prelude.{◌≡◌, ◌<◌, IfOk, length};
ghost use Rattle.line_text.specs.Reply.{reply_line};
ghost use Rattle.sec_utils.specs.Items.{head_at};

use crate::{NoMemory, Util};
use kern_model::Reply;
use lab_text::Policy;
use line_text::LineWriter;

/// The reply line of a utility's call for the path at this index, with its line feed. It shows the path as the script
/// spells it. `room` is an earlier text, whose memory is used.
#[tactic(auto, using(crate::proofs::LineLemmas::line_written), unfolding(line_text::specs::Reply::reply_line))]
pub fn util_text(
    room: Vec<u8>,
    policy: &Policy,
    util: &Util,
    at: usize,
    reply: &Reply,
) -> Result<Vec<u8>, NoMemory>
    requires within { at < length util.now.paths }
    requires texts { length util.now.texts ≡ length util.now.paths }
    ensures { IfOk result (λ text. text.items ≡ reply_line policy.now util.now.who (head_at util.now at) reply.now) }
{
    let mut line = LineWriter::over(room);
    line.numbered(policy, util.who.n, &util.who.label)?;
    line.word(util.tool.word())?;
    line.quoted(util.texts.items()[at].items())?;
    line.outcome(policy, reply)?;
    line.line_feed()?;
    Ok(line.into_text())
}
