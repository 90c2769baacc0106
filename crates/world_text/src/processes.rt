// What the lines of processes say.
ghost use Rattle.std.specs.Prelude.{◌≡◌, IfOk};
ghost use Rattle.world_text.specs.Processes.{proc_caps_of, proc_fields_in, parse_proc, parse_proc_line};
ghost use Rattle.world_text.specs.Values.{bytes_in, goes_on_unless};

use crate::NoMemory;
use crate::expecting::PartialWorld;
use crate::values::{WordValue, both, caps_of, label_of};
use cap_bits::CapState;
use fs_path::{LineWord, groups_of, number_of};
use kern_model::{Gid, GroupList, Ids, Uid, WorldProc};
use lab_lattice::Label;
use lab_text::Policy;
use line_text::LineFault;
use std::alloc::Global;

// The state of a capability text, where what is effective is permitted.
fn proc_caps_of(word: &[u8]) -> WordValue<CapState>
    ensures { result ≡ proc_caps_of word.now }
{
    match caps_of(word) {
        WordValue::Known(caps) => {
            if caps.e.within(&caps.p) {
                WordValue::Known(caps)
            } else {
                WordValue::Malformed
            }
        }
        other => other,
    }
}

/// What the words of a process line stand for, up to the groups.
#[derive(Drop)]
pub struct ProcFields {
    label: WordValue<Label>,
    user: Uid,
    group: Gid,
    groups: GroupList,
}

// `LABEL UID GID GROUPS`.
#[tactic(auto, unfolding(crate::specs::Processes::proc_fields_of))]
fn proc_fields_in(
    alloc: Global,
    policy: &Policy,
    words: &[LineWord<'_>],
) -> Result<Option<ProcFields>, NoMemory>
    ensures { IfOk result (λ parsed. parsed ≡ proc_fields_in policy.now (bytes_in words.now)) }
{
    let [label, uid, gid, groups, ..] = words else {
        return Ok(None);
    };
    let Some(user) = number_of(uid.bytes.items()) else {
        return Ok(None);
    };
    let Some(group) = number_of(gid.bytes.items()) else {
        return Ok(None);
    };
    let Some(groups) = groups_of(alloc, groups.bytes.items())? else {
        return Ok(None);
    };
    Ok(Some(ProcFields {
        label: label_of(policy, label.bytes.items()),
        user,
        group,
        groups,
    }))
}

// A process line whose first four words are these, with these capabilities.
fn parse_proc(
    alloc: Global,
    so_far: &mut PartialWorld,
    words: &[LineWord<'_>],
    caps: WordValue<CapState>,
) -> Result<Option<LineFault>, NoMemory>
    ensures { IfOk result (λ fault. goes_on_unless fault so_far.new ≡ parse_proc so_far.old (proc_fields_in so_far.old.policy (bytes_in words.now)) caps) }
{
    let Some(fields) = proc_fields_in(alloc, &so_far.policy, words)? else {
        return Ok(Some(LineFault::Syntax));
    };
    let ProcFields {
        label,
        user,
        group,
        groups,
    } = fields;
    match both(label, caps) {
        WordValue::Malformed => Ok(Some(LineFault::Syntax)),
        WordValue::UnknownName => Ok(Some(LineFault::UnknownName)),
        WordValue::Known((label, caps)) => {
            let ids = Ids {
                ruid: user,
                euid: user,
                suid: user,
                rgid: group,
                egid: group,
                sgid: group,
                groups,
            };
            so_far.parse_process(alloc, WorldProc { label, ids, caps })
        }
    }
}

/// `proc LABEL UID GID GROUPS CAPS`.
pub fn parse_proc_line(
    alloc: Global,
    so_far: &mut PartialWorld,
    words: &[LineWord<'_>],
) -> Result<Option<LineFault>, NoMemory>
    ensures { IfOk result (λ fault. goes_on_unless fault so_far.new ≡ parse_proc_line so_far.old (bytes_in words.now)) }
{
    if words.len() != 5 {
        return Ok(Some(LineFault::Syntax));
    }
    let caps = proc_caps_of(words[4].bytes.items());
    parse_proc(alloc, so_far, words, caps)
}
