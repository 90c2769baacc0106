// The words of each kind of record after the number of the process.
ghost use Rattle.aud_record.specs.Forms.{form_of, parse_form};
ghost use Rattle.aud_record.specs.Results.{AnswersAs};
ghost use Rattle.aud_record.specs.Words.{is_no_memory};
ghost use Rattle.aud_record.specs.declared.event.Event.TheVariants as event;

use crate::event::Event;
use crate::fault::Fault;
use crate::words::Words;
use kern_model::{Ending, Exercise, Pid, Rec};
use lab_text::Policy;
use std::alloc::Global;

fn boot(alloc: Global, policy: &Policy, who: Pid, words: &mut Words) -> Result<Rec, Fault>
    ensures { AnswersAs is_no_memory (λ r. r) result (parse_form policy.now (form_of event.Boot who) words.old.left.now) }
{
    let label = words.label(alloc, policy)?;
    let caps = words.caps(alloc)?;
    words.value_at_end(Rec::Boot { who, label, caps })
}

fn fork(alloc: Global, policy: &Policy, who: Pid, words: &mut Words) -> Result<Rec, Fault>
    ensures { AnswersAs is_no_memory (λ r. r) result (parse_form policy.now (form_of event.Fork who) words.old.left.now) }
{
    let child = words.pid(alloc, policy)?;
    words.value_at_end(Rec::Fork { who, child })
}

fn exec(alloc: Global, policy: &Policy, who: Pid, words: &mut Words) -> Result<Rec, Fault>
    ensures { AnswersAs is_no_memory (λ r. r) result (parse_form policy.now (form_of event.Exec who) words.old.left.now) }
{
    let file = words.oid(alloc, policy)?;
    let file_caps = words.caps(alloc)?;
    let caps = words.caps(alloc)?;
    words.value_at_end(Rec::Exec {
        who,
        file,
        file_caps,
        caps,
    })
}

fn exit(alloc: Global, policy: &Policy, who: Pid, words: &mut Words) -> Result<Rec, Fault>
    ensures { AnswersAs is_no_memory (λ r. r) result (parse_form policy.now (form_of event.Exit who) words.old.left.now) }
{
    let exits = words.choice(b"exit", b"kill")?;
    if exits {
        let code = words.status(alloc)?;
        let ending = Ending::Exit(code);
        return words.value_at_end(Rec::Exit { who, ending });
    }
    let term = words.choice(b"TERM", b"KILL")?;
    let ending = if term { Ending::Term } else { Ending::Kill };
    words.value_at_end(Rec::Exit { who, ending })
}

fn cap_set_proc(alloc: Global, policy: &Policy, who: Pid, words: &mut Words) -> Result<Rec, Fault>
    ensures { AnswersAs is_no_memory (λ r. r) result (parse_form policy.now (form_of event.CapSetProc who) words.old.left.now) }
{
    let caps = words.caps(alloc)?;
    words.value_at_end(Rec::CapSetProc { who, caps })
}

fn cap_set_file(alloc: Global, policy: &Policy, who: Pid, words: &mut Words) -> Result<Rec, Fault>
    ensures { AnswersAs is_no_memory (λ r. r) result (parse_form policy.now (form_of event.CapSetFile who) words.old.left.now) }
{
    let file = words.oid(alloc, policy)?;
    let caps = words.caps(alloc)?;
    words.value_at_end(Rec::CapSetFile { who, file, caps })
}

fn mac_set_proc(alloc: Global, policy: &Policy, who: Pid, words: &mut Words) -> Result<Rec, Fault>
    ensures { AnswersAs is_no_memory (λ r. r) result (parse_form policy.now (form_of event.MacSetProc who) words.old.left.now) }
{
    let old = words.label(alloc, policy)?;
    let new = words.label(alloc, policy)?;
    words.value_at_end(Rec::MacSetProc { who, old, new })
}

fn mac_set_file(alloc: Global, policy: &Policy, who: Pid, words: &mut Words) -> Result<Rec, Fault>
    ensures { AnswersAs is_no_memory (λ r. r) result (parse_form policy.now (form_of event.MacSetFile who) words.old.left.now) }
{
    let object = words.oid(alloc, policy)?;
    let old = words.label(alloc, policy)?;
    let new = words.label(alloc, policy)?;
    words.value_at_end(Rec::MacSetFile {
        who,
        object,
        old,
        new,
    })
}

fn exercise(alloc: Global, policy: &Policy, who: Pid, words: &mut Words) -> Result<Rec, Fault>
    ensures { AnswersAs is_no_memory (λ r. r) result (parse_form policy.now (form_of event.Exercise who) words.old.left.now) }
{
    let label = words.label(alloc, policy)?;
    let cap = words.cap()?;
    let check = words.check()?;
    let thing = words.thing(alloc, policy)?;
    let thing_label = words.label(alloc, policy)?;
    let new_label = words.new_label(alloc, policy)?.label();
    let place = words.place(alloc)?;
    words.value_at_end(Rec::Exercise(Exercise {
        who,
        label,
        cap,
        check,
        thing,
        thing_label,
        new_label,
        place,
    }))
}

fn deny(alloc: Global, policy: &Policy, who: Pid, words: &mut Words) -> Result<Rec, Fault>
    ensures { AnswersAs is_no_memory (λ r. r) result (parse_form policy.now (form_of event.Deny who) words.old.left.now) }
{
    let call = words.call()?;
    let errno = words.errno()?;
    let check = words.check()?;
    let place = words.place(alloc)?;
    words.value_at_end(Rec::Deny {
        who,
        call,
        errno,
        check,
        place,
    })
}

fn switch(policy: &Policy, who: Pid, words: &mut Words) -> Result<Rec, Fault>
    ensures { AnswersAs is_no_memory (λ r. r) result (parse_form policy.now (form_of event.Switch who) words.old.left.now) }
{
    let on = words.choice(b"on", b"off")?;
    words.value_at_end(Rec::Switch { who, on })
}

fn note(alloc: Global, policy: &Policy, who: Pid, words: &mut Words) -> Result<Rec, Fault>
    ensures { AnswersAs is_no_memory (λ r. r) result (parse_form policy.now (form_of event.Note who) words.old.left.now) }
{
    let bytes = words.bytes(alloc)?;
    words.value_at_end(Rec::Note { who, bytes })
}

/// The record of a kind that is about a process.
pub fn record(
    alloc: Global,
    policy: &Policy,
    event: Event,
    who: Pid,
    words: &mut Words,
) -> Result<Rec, Fault>
    ensures { AnswersAs is_no_memory (λ r. r) result (parse_form policy.now (form_of event who) words.old.left.now) }
{
    match event {
        Event::Boot => boot(alloc, policy, who, words),
        Event::Fork => fork(alloc, policy, who, words),
        Event::Exec => exec(alloc, policy, who, words),
        Event::Exit => exit(alloc, policy, who, words),
        Event::CapSetProc => cap_set_proc(alloc, policy, who, words),
        Event::CapSetFile => cap_set_file(alloc, policy, who, words),
        Event::MacSetProc => mac_set_proc(alloc, policy, who, words),
        Event::MacSetFile => mac_set_file(alloc, policy, who, words),
        Event::Exercise => exercise(alloc, policy, who, words),
        Event::Deny => deny(alloc, policy, who, words),
        Event::Switch => switch(policy, who, words),
        Event::Note => note(alloc, policy, who, words),
    }
}
