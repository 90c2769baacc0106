// The members of a record as a value of `serde_json`, and its text.
ghost use Rattle.std.specs.Prelude.{◌≡◌, true, Some, IfOk, OnOk};
ghost use Rattle.serde_json.specs.Read.{read};
ghost use Rattle.serde_json.specs.View.{members_view, view};
ghost use Rattle.serde_json.specs.Written.{compact_text};
ghost use Rattle.aud_record.specs.Written.{switch_word};
ghost use Rattle.aud_red.specs.Json.{ending_kind, label_members, relabel_members, file_members, ending_members};
ghost use Rattle.aud_red.specs.Json.{exec_members, denial_members, exercise_members, rest_members};
ghost use Rattle.aud_red.specs.Json.{in_key_order, rec_members, are_printable, json_line};
ghost use Rattle.aud_red.specs.JsonValue.{members_of, json_of};
ghost use Rattle.aud_red.specs.Objects.{with_members};

use crate::NoMemory;
use crate::object::ObjectWriter;
use aud_record::{Event, ReadRec, who};
use cap_bits::CapState;
use kern_model::{CallName, CheckName, Ending, Errno, Exercise, Oid, Place, Rec};
use lab_lattice::Label;
use lab_text::Policy;
use serde_json::Value;
use std::alloc::Global;

/// The word for how a process ended.
pub fn ending_kind(ending: Ending) -> &'static [u8]
    ensures { result.now ≡ ending_kind ending }
{
    match ending {
        Ending::Exit(_) => b"exit",
        Ending::Term | Ending::Kill => b"kill",
    }
}

/// The word for an audit switch.
pub fn switch_word(on: bool) -> &'static [u8]
    ensures { result.now ≡ switch_word on }
{
    if on { b"on" } else { b"off" }
}

// Puts a label before a change and the one after it.
fn put_labels(
    json: &mut ObjectWriter,
    policy: &Policy,
    old: &Label,
    new: &Label,
) -> Result<(), NoMemory>
    ensures { OnOk result (members_view json.new
        ≡ with_members (members_view json.old) (label_members policy.now old.now new.now)) }
{
    json.label("old", policy, old)?;
    json.label("new", policy, new)
}

// Puts an object, and its labels before and after a change.
fn put_relabel(
    json: &mut ObjectWriter,
    policy: &Policy,
    object: &Oid,
    old: &Label,
    new: &Label,
) -> Result<(), NoMemory>
    ensures { OnOk result (members_view json.new
        ≡ with_members (members_view json.old) (relabel_members policy.now object.now old.now new.now)) }
{
    json.numbered("object", policy, object.n, &object.label)?;
    put_labels(json, policy, old, new)
}

// Puts a file, and its capability sets after a change.
fn put_file(
    json: &mut ObjectWriter,
    policy: &Policy,
    file: &Oid,
    caps: &CapState,
) -> Result<(), NoMemory>
    ensures { OnOk result (members_view json.new
        ≡ with_members (members_view json.old) (file_members policy.now file.now caps.now)) }
{
    json.numbered("object", policy, file.n, &file.label)?;
    json.caps("caps", caps)
}

// Puts how a process ended.
#[tactic(auto, using(crate::proofs::Printable::of_kind))]
fn put_ending(json: &mut ObjectWriter, ending: Ending) -> Result<(), NoMemory>
    ensures { OnOk result (members_view json.new ≡ with_members (members_view json.old) (ending_members ending)) }
{
    json.word("kind", ending_kind(ending))?;
    json.ending_value("value", ending)
}

// Puts the file that a process executes, the capability sets of the file, and those of the process after it.
fn put_exec(
    json: &mut ObjectWriter,
    policy: &Policy,
    file: &Oid,
    file_caps: &CapState,
    caps: &CapState,
) -> Result<(), NoMemory>
    ensures { OnOk result (members_view json.new
        ≡ with_members (members_view json.old) (exec_members policy.now file.now file_caps.now caps.now)) }
{
    json.numbered("object", policy, file.n, &file.label)?;
    json.caps("file", file_caps)?;
    json.caps("caps", caps)
}

// Puts the call that is denied, the error, the check that denies it and its place.
#[tactic(auto, using(crate::proofs::Printable::of_call, crate::proofs::Printable::of_errno, crate::proofs::Printable::of_check))]
fn put_denial(
    json: &mut ObjectWriter,
    call: CallName,
    errno: Errno,
    check: CheckName,
    place: Place,
) -> Result<(), NoMemory>
    ensures { OnOk result (members_view json.new
        ≡ with_members (members_view json.old) (denial_members call errno check place)) }
{
    json.word("name", call.word())?;
    json.word("errno", errno.word())?;
    json.word("check", check.word())?;
    json.place("place", place)
}

// Puts what an exercise says besides its process.
#[tactic(auto, using(crate::proofs::Printable::of_cap, crate::proofs::Printable::of_check))]
fn put_exercise(
    json: &mut ObjectWriter,
    policy: &Policy,
    exercise: &Exercise,
) -> Result<(), NoMemory>
    ensures { OnOk result (members_view json.new
        ≡ with_members (members_view json.old) (exercise_members policy.now exercise.now)) }
{
    json.label("label", policy, &exercise.label)?;
    json.word("cap", exercise.cap.name())?;
    json.word("check", exercise.check.word())?;
    json.thing("thing", policy, &exercise.thing)?;
    json.label("thing_label", policy, &exercise.thing_label)?;
    json.new_label("new", policy, &exercise.new_label)?;
    json.place("place", exercise.place)
}

// Puts what a kind of records says besides its process.
#[tactic(auto, using(crate::proofs::Printable::of_switch))]
fn put_rest(json: &mut ObjectWriter, policy: &Policy, rec: &Rec) -> Result<(), NoMemory>
    ensures { OnOk result (members_view json.new ≡ with_members (members_view json.old) (rest_members policy.now rec.now)) }
{
    match rec {
        Rec::Boot { label, caps, .. } => {
            json.label("label", policy, label)?;
            json.caps("caps", caps)
        }
        Rec::Fork { child, .. } => json.numbered("child", policy, child.n, &child.label),
        Rec::Exec {
            file,
            file_caps,
            caps,
            ..
        } => put_exec(json, policy, file, file_caps, caps),
        Rec::Exit { ending, .. } => put_ending(json, *ending),
        Rec::CapSetProc { caps, .. } => json.caps("caps", caps),
        Rec::CapSetFile { file, caps, .. } => put_file(json, policy, file, caps),
        Rec::MacSetProc { old, new, .. } => put_labels(json, policy, old, new),
        Rec::MacSetFile {
            object,
            old,
            new,
            ..
        } => put_relabel(json, policy, object, old, new),
        Rec::Exercise(exercise) => put_exercise(json, policy, exercise),
        Rec::Deny {
            call,
            errno,
            check,
            place,
            ..
        } => put_denial(json, *call, *errno, *check, *place),
        Rec::Switch { on, .. } => json.word("state", switch_word(*on)),
        Rec::Note { bytes, .. } => json.bytes("bytes", bytes.items()),
    }
}

// The members of a record.
#[tactic(auto, using(crate::proofs::Printable::of_event, crate::proofs::KeyOrder::put_in_order))]
fn object_of(alloc: Global, policy: &Policy, rec: &ReadRec) -> Result<ObjectWriter, NoMemory>
    ensures { IfOk result (λ json. members_view json ≡ members_of (in_key_order (rec_members policy.now rec.now))) }
{
    let who = who(&rec.rec);
    let mut json = ObjectWriter::new(alloc);
    json.number("call", rec.call)?;
    json.word("event", Event::of(&rec.rec).word())?;
    json.numbered("pid", policy, who.n, &who.label)?;
    put_rest(&mut json, policy, &rec.rec)?;
    Ok(json)
}

/// A record as a value of JSON: an object, whose members stand in the order of their keys.
#[tactic(auto, unfolding(crate::specs::JsonValue::json_of))]
pub fn rec_json(alloc: Global, policy: &Policy, rec: &ReadRec) -> Result<Value, NoMemory>
    ensures value { IfOk result (λ value. view value ≡ json_of policy.now rec.now) }
    // The text that `serde_json` has for it.
    ensures text { IfOk result (λ value. compact_text (view value) ≡ json_line policy.now rec.now) }
    // It has no line feed, and no byte that is not ASCII.
    ensures printable { IfOk result (λ value. are_printable (compact_text (view value)) ≡ true) }
{
    Ok(object_of(alloc, policy, rec)?.into_value())
}

/// The JSON text of a record, on one line and without a line feed, as `serde_json` writes it.
pub fn json_text(alloc: Global, policy: &Policy, rec: &ReadRec) -> Result<Vec<u8>, NoMemory>
    ensures text { IfOk result (λ text. text.items ≡ json_line policy.now rec.now) }
    // It has no line feed, and no byte that is not ASCII.
    ensures printable { IfOk result (λ text. are_printable text.items ≡ true) }
    // It is JSON, and says the record.
    ensures reads_back { IfOk result (λ text. read text.items ≡ Some (json_of policy.now rec.now)) }
{
    let value = rec_json(alloc, policy, rec)?;
    value.to_vec(alloc)
}
