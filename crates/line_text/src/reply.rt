// The words of replies.
ghost use Rattle.std.specs.Prelude.{◌≡◌, OnOk, map};
ghost use Rattle.fs_path.specs.Words.{quoted_text};
ghost use Rattle.line_text.specs.Reply.{answer_words, ids_words, outcome_words, stat_words, with_words};

use crate::{LineWriter, NoMemory};
use fs_path::Name;
use kern_model::{Answer, Ids, Reply, StatAnswer};
use lab_text::Policy;

fn put_names(line: &mut LineWriter, names: &[Name]) -> Result<(), NoMemory>
    ensures { OnOk result (line.new ≡ with_words line.old (map quoted_text names.now)) }
{
    for name in names {
        line.quoted(name.bytes())?;
    }
    Ok(())
}

fn put_stat(line: &mut LineWriter, policy: &Policy, stat: &StatAnswer) -> Result<(), NoMemory>
    ensures { OnOk result (line.new ≡ with_words line.old (stat_words policy.now stat.now)) }
{
    line.word(stat.kind.word())?;
    line.mode(stat.mode)?;
    line.number(stat.owner)?;
    line.number(stat.group)?;
    line.size(stat.size)?;
    line.number(stat.names)?;
    line.oid(policy, &stat.id)?;
    line.label(policy, &stat.label)
}

fn put_ids(line: &mut LineWriter, ids: &Ids) -> Result<(), NoMemory>
    ensures { OnOk result (line.new ≡ with_words line.old (ids_words ids.now)) }
{
    line.number(ids.ruid)?;
    line.number(ids.euid)?;
    line.number(ids.suid)?;
    line.number(ids.rgid)?;
    line.number(ids.egid)?;
    line.number(ids.sgid)?;
    line.groups(ids.groups.items())
}

// Appends the words of an answer.
#[tactic(auto, unfolding(crate::specs::Reply::answer_words))]
fn put_answer(line: &mut LineWriter, policy: &Policy, answer: &Answer) -> Result<(), NoMemory>
    ensures { OnOk result (line.new ≡ with_words line.old (answer_words policy.now answer.now)) }
{
    match answer {
        Answer::Nothing => Ok(()),
        Answer::Number(n) => line.number(*n),
        Answer::Two(first, second) => {
            line.number(*first)?;
            line.number(*second)
        }
        Answer::Bytes(bytes) => line.quoted(bytes.items()),
        Answer::Names(names) => put_names(line, names.items()),
        Answer::Stat(stat) => put_stat(line, policy, stat),
        Answer::Bits(mode) => line.mode(*mode),
        Answer::Caps(caps) => line.caps(caps),
        Answer::Mark(label) => line.label(policy, label),
        Answer::Process(who) => line.pid(policy, who),
        Answer::Parent(None) => line.word(b"none"),
        Answer::Parent(Some(who)) => line.pid(policy, who),
        Answer::Ids(ids) => put_ids(line, ids),
        Answer::Ended(who, ending) => {
            line.pid(policy, who)?;
            line.ending(*ending)
        }
    }
}

impl LineWriter {
    /// Appends the words of a reply, each after a space.
    #[tactic(auto, unfolding(crate::specs::Reply::outcome_words))]
    #[inline(always)]
    pub fn outcome(&mut self, policy: &Policy, reply: &Reply) -> Result<(), NoMemory>
        ensures { OnOk result (self.new ≡ with_words self.old (outcome_words policy.now reply.now)) }
    {
        match reply {
            Reply::Done(answer) => {
                self.word(b"ok")?;
                put_answer(self, policy, answer)
            }
            Reply::Denied {
                errno,
                check,
                place,
            } => {
                self.word(errno.word())?;
                self.word(check.word())?;
                self.place(*place)
            }
            Reply::Refused(errno) => self.word(errno.word()),
        }
    }
}
