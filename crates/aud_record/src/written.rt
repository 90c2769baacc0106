// The writing of a record.
ghost use Rattle.std.specs.Prelude.{◌≡◌, ◌<◌, ◌^◌, true, [], ◌∷◌, IfOk, OnOk};
ghost use Rattle.lab_text.specs.Text.{label_text};
ghost use Rattle.kern_model.specs.Names.{word_of, errno_word, check_word, place_text};
ghost use Rattle.line_text.specs.Ranges.{PlaceInRange};
ghost use Rattle.line_text.specs.Reply.{with_words};
ghost use Rattle.line_text.specs.Words.{caps_word, oid_text};
ghost use Rattle.aud_record.specs.Fits.{has_valid_labels, ExerciseInRange, RestInRange, IsInRange};
ghost use Rattle.aud_record.specs.Parsed.{IsReadAs};
ghost use Rattle.aud_record.specs.Written.{exercise_words, relabel_words, switch_word, rest_words, rec_text};

use crate::NoMemory;
use crate::event::{Event, who};
use cap_bits::CapState;
use kern_model::{CallName, CheckName, Errno, Exercise, Oid, Place, Rec};
use lab_lattice::Label;
use lab_text::Policy;
use line_text::LineWriter;

fn switch_word(on: bool) -> &'static [u8]
    ensures { result.now ≡ switch_word on }
{
    if on { b"on" } else { b"off" }
}

// Appends a file and its capability sets.
fn put_file(
    line: &mut LineWriter,
    policy: &Policy,
    file: &Oid,
    caps: &CapState,
) -> Result<(), NoMemory>
    ensures text { OnOk result (line.new ≡ with_words line.old (oid_text policy.now file.now ∷ caps_word caps.now ∷ [])) }
    ensures in_range { OnOk result (file.now.n < 2 ^ 16) }
{
    line.oid(policy, file)?;
    line.caps(caps)
}

// Appends the label before a change and the one after it.
fn put_labels(
    line: &mut LineWriter,
    policy: &Policy,
    old: &Label,
    new: &Label,
) -> Result<(), NoMemory>
    ensures { OnOk result (line.new ≡ with_words line.old (label_text policy.now old.now ∷ label_text policy.now new.now ∷ [])) }
{
    line.label(policy, old)?;
    line.label(policy, new)
}

// Appends the file that a process executes, the capability sets of the file, and those of the process after it.
fn put_exec(
    line: &mut LineWriter,
    policy: &Policy,
    file: &Oid,
    file_caps: &CapState,
    caps: &CapState,
) -> Result<(), NoMemory>
    ensures text { OnOk result (line.new ≡ with_words line.old (oid_text policy.now file.now ∷ caps_word file_caps.now ∷ caps_word caps.now ∷ [])) }
    ensures in_range { OnOk result (file.now.n < 2 ^ 16) }
{
    put_file(line, policy, file, file_caps)?;
    line.caps(caps)
}

// Appends an object, its label before a change and the one after it.
fn put_object_labels(
    line: &mut LineWriter,
    policy: &Policy,
    object: &Oid,
    old: &Label,
    new: &Label,
) -> Result<(), NoMemory>
    ensures text { OnOk result (line.new ≡ with_words line.old (relabel_words policy.now object.now old.now new.now)) }
    ensures in_range { OnOk result (object.now.n < 2 ^ 16) }
{
    line.oid(policy, object)?;
    put_labels(line, policy, old, new)
}

// Appends the call that is denied, the error, the check that denies it and its place.
fn put_denial(
    line: &mut LineWriter,
    call: CallName,
    errno: Errno,
    check: CheckName,
    place: Place,
) -> Result<(), NoMemory>
    ensures text { OnOk result (line.new ≡ with_words line.old (word_of call ∷ errno_word errno ∷ check_word check ∷ place_text place ∷ [])) }
    ensures in_range { OnOk result (PlaceInRange place) }
{
    line.word(call.word())?;
    line.word(errno.word())?;
    line.word(check.word())?;
    line.place(place)
}

// Appends the words of an exercise after the number of the process.
fn put_exercise(line: &mut LineWriter, policy: &Policy, exercise: &Exercise) -> Result<(), NoMemory>
    ensures text { OnOk result (line.new ≡ with_words line.old (exercise_words policy.now exercise.now)) }
    ensures in_range { OnOk result (ExerciseInRange exercise.now) }
{
    line.label(policy, &exercise.label)?;
    line.word(exercise.cap.name())?;
    line.word(exercise.check.word())?;
    line.thing(policy, &exercise.thing)?;
    line.label(policy, &exercise.thing_label)?;
    line.new_label(policy, &exercise.new_label)?;
    line.place(exercise.place)
}

// Appends the words after the number of the process.
fn put_rest(line: &mut LineWriter, policy: &Policy, rec: &Rec) -> Result<(), NoMemory>
    ensures text { OnOk result (line.new ≡ with_words line.old (rest_words policy.now rec.now)) }
    ensures in_range { OnOk result (RestInRange rec.now) }
{
    match rec {
        Rec::Boot { label, caps, .. } => {
            line.label(policy, label)?;
            line.caps(caps)
        }
        Rec::Fork { child, .. } => line.pid(policy, child),
        Rec::Exec {
            file,
            file_caps,
            caps,
            ..
        } => put_exec(line, policy, file, file_caps, caps),
        Rec::Exit { ending, .. } => line.ending(*ending),
        Rec::CapSetProc { caps, .. } => line.caps(caps),
        Rec::CapSetFile { file, caps, .. } => put_file(line, policy, file, caps),
        Rec::MacSetProc { old, new, .. } => put_labels(line, policy, old, new),
        Rec::MacSetFile {
            object,
            old,
            new,
            ..
        } => put_object_labels(line, policy, object, old, new),
        Rec::Exercise(exercise) => put_exercise(line, policy, exercise),
        Rec::Deny {
            call,
            errno,
            check,
            place,
            ..
        } => put_denial(line, *call, *errno, *check, *place),
        Rec::Switch { on, .. } => line.word(switch_word(*on)),
        Rec::Note { bytes, .. } => line.quoted(bytes.items()),
    }
}

// The line of a record.
#[tactic(auto, using(crate::proofs::LineLemmas::line_written), unfolding(crate::specs::Written::line_of, crate::specs::Written::rec_text))]
fn line_of(room: Vec<u8>, policy: &Policy, call: u64, rec: &Rec) -> Result<Vec<u8>, NoMemory>
    ensures text { IfOk result (λ text. text.items ≡ rec_text policy.now call rec.now) }
    ensures in_range { OnOk result (IsInRange call rec.now) }
{
    let mut line = LineWriter::over(room);
    line.digits(call)?;
    line.word(Event::of(rec).word())?;
    line.pid(policy, &who(rec))?;
    put_rest(&mut line, policy, rec)?;
    line.line_feed()?;
    Ok(line.into_text())
}

/// The line of a record, after the number of its call, which is 0 for the records of the start. Of a label that is not
/// valid in the policy only the names that the policy has are written. `room` is an earlier text, whose memory is used.
#[inline(always)]
pub fn rec_text(room: Vec<u8>, policy: &Policy, call: u64, rec: &Rec) -> Result<Vec<u8>, NoMemory>
    ensures text { IfOk result (λ text. text.items ≡ rec_text policy.now call rec.now) }
    // Where its labels are valid the line is read as this record, whatever follows it.
    ensures round_trip { IfOk result (λ text. has_valid_labels policy.now rec.now ≡ true → IsReadAs policy.now text.items call rec.now) }
{
    // Its names make a policy, which the clause `round_trip` needs.
    let _names = policy.levels();
    line_of(room, policy, call, rec)
}
