// Selections of records.
ghost use Rattle.std.specs.Prelude.{◌≡◌, ◌↔◌, IsTrue, IfSome, true, Some};
ghost use Rattle.cap_bits.specs.Cap.{cap_named};
ghost use Rattle.fs_path.specs.Split.{pieces};
ghost use Rattle.kern_model.specs.Named.{find_named};
ghost use Rattle.kern_model.specs.Records.{who_of};
ghost use Rattle.lab_lattice.specs.Label.{dominates};
ghost use Rattle.lab_text.specs.Text.{parse_label};
ghost use Rattle.aud_record.specs.Events.{event_of, event_word, all_events};
ghost use Rattle.aud_red.specs.declared.term.TermKind.TheVariants as kind;
ghost use Rattle.aud_red.specs.Select.{parse_process, value_in, value_if_known, select_of, parse_select, exercised_cap, picks, Picks};

use crate::term::{TermKind, are_terms, process_number};
use aud_record::{Event, who};
use cap_bits::Cap;
use fs_path::split_once;
use kern_model::{Pid, Rec};
use lab_lattice::{Label, Lattice};
use lab_text::{Policy, mac_from_text};

/// Which records are picked: those of which each term that is there holds.
#[derive(Clone, Copy, Debug, PartialEq, Eq)]
pub struct Select {
    /// The process that a record is about.
    pub pid: Option<Pid>,
    /// A label that dominates the one at which the number of that process was drawn.
    pub label: Option<Label>,
    /// The kind of a record.
    pub event: Option<Event>,
    /// The capability of an exercise.
    pub cap: Option<Cap>,
}

/// Why a text denotes no selection.
#[derive(Clone, Copy, Debug, PartialEq, Eq)]
pub enum SelectError {
    /// The text is neither `all` nor terms with `;` between them, each kind of them once at most.
    Syntax,
    /// A label, the kind of a record or a capability is unknown.
    UnknownName,
}

// The process that a text denotes.
fn process_of(policy: &Policy, text: &[u8]) -> Option<Pid>
    ensures { result ≡ parse_process policy.now text.now }
{
    let (number, label) = split_once(text, b'@')?;
    let n = process_number(number)?;
    let label = mac_from_text(policy, label).ok()?;
    Some(Pid { label, n })
}

// The process in terms.
fn pid_in(policy: &Policy, text: &[u8]) -> Result<Option<Pid>, SelectError>
    ensures { result ≡ value_if_known (parse_process policy.now) (value_in kind.Pid (pieces 59 text.now)) }
{
    let Some(value) = TermKind::Pid.value_in(text) else {
        return Ok(None);
    };
    let pid = process_of(policy, value).ok_or(SelectError::UnknownName)?;
    Ok(Some(pid))
}

// The label in terms.
fn label_in(policy: &Policy, text: &[u8]) -> Result<Option<Label>, SelectError>
    ensures { result ≡ value_if_known (parse_label policy.now) (value_in kind.Label (pieces 59 text.now)) }
{
    let Some(value) = TermKind::Label.value_in(text) else {
        return Ok(None);
    };
    let label = mac_from_text(policy, value).map_err(|_| SelectError::UnknownName)?;
    Ok(Some(label))
}

// The kind of records in terms.
fn event_in(text: &[u8]) -> Result<Option<Event>, SelectError>
    ensures { result ≡ value_if_known (find_named event_word all_events) (value_in kind.Event (pieces 59 text.now)) }
{
    let Some(value) = TermKind::Event.value_in(text) else {
        return Ok(None);
    };
    let event = Event::from_word(value).ok_or(SelectError::UnknownName)?;
    Ok(Some(event))
}

// The capability in terms.
fn cap_in(text: &[u8]) -> Result<Option<Cap>, SelectError>
    ensures { result ≡ value_if_known cap_named (value_in kind.Cap (pieces 59 text.now)) }
{
    let Some(value) = TermKind::Cap.value_in(text) else {
        return Ok(None);
    };
    let cap = Cap::from_name(value).ok_or(SelectError::UnknownName)?;
    Ok(Some(cap))
}

// The selection of terms.
#[tactic(auto, unfolding(crate::specs::Select::select_of))]
fn select_of(policy: &Policy, text: &[u8]) -> Result<Select, SelectError>
    ensures { result ≡ select_of policy.now (pieces 59 text.now) }
{
    let pid = pid_in(policy, text)?;
    let label = label_in(policy, text)?;
    let event = event_in(text)?;
    let cap = cap_in(text)?;
    Ok(Select {
        pid,
        label,
        event,
        cap,
    })
}

// Whether two numbers of processes are one.
#[tactic(auto, using(crate::proofs::PickLemmas::same_pid, crate::proofs::PickLemmas::same_label))]
fn is_same(a: Pid, b: Pid) -> bool
    ensures { IsTrue result ↔ (a ≡ b) }
{
    a.n == b.n && a.label.equal(&b.label)
}

// The capability of an exercise.
fn exercised_cap(rec: &Rec) -> Option<Cap>
    ensures { result ≡ exercised_cap rec.now }
{
    match rec {
        Rec::Exercise(exercise) => Some(exercise.cap),
        _ => None,
    }
}

impl Select {
    /// The selection that a text denotes: `all`, or terms with `;` between them. A fault of its form comes before an unknown
    /// name.
    #[tactic(auto, unfolding(crate::specs::Select::parse_select))]
    pub fn read(policy: &Policy, text: &[u8]) -> Result<Select, SelectError>
        ensures { result ≡ parse_select policy.now text.now }
    {
        if text == b"all".as_slice() {
            return Ok(Select {
                pid: None,
                label: None,
                event: None,
                cap: None,
            });
        }
        if !are_terms(policy, text) {
            return Err(SelectError::Syntax);
        }
        select_of(policy, text)
    }

    // Whether a record is about the process, if one is given.
    fn is_about(&self, rec: &Rec) -> bool
        ensures { IsTrue result ↔ IfSome self.now.pid (λ pid. who_of rec.now ≡ pid) }
    {
        self.pid.is_none_or(|pid| is_same(who(rec), pid))
    }

    // Whether the label, if one is given, dominates that of the number of a record's process.
    fn is_above(&self, rec: &Rec) -> bool
        ensures { IsTrue result ↔ IfSome self.now.label (λ label. dominates label (who_of rec.now).label ≡ true) }
    {
        self.label
            .is_none_or(|label| label.dominates(&who(rec).label))
    }

    // Whether a record is of the kind, if one is given.
    fn is_of_kind(&self, rec: &Rec) -> bool
        ensures { IsTrue result ↔ IfSome self.now.event (λ event. event_of rec.now ≡ event) }
    {
        self.event.is_none_or(|event| Event::of(rec) == event)
    }

    // Whether a record is an exercise of the capability, if one is given.
    fn is_exercise(&self, rec: &Rec) -> bool
        ensures { IsTrue result ↔ IfSome self.now.cap (λ cap. exercised_cap rec.now ≡ Some cap) }
    {
        self.cap.is_none_or(|cap| exercised_cap(rec) == Some(cap))
    }

    // Whether each term that is given holds of a record.
    fn holds_of(&self, rec: &Rec) -> bool
        ensures { IsTrue result ↔ Picks self.now rec.now }
    {
        self.is_about(rec) && self.is_above(rec) && self.is_of_kind(rec) && self.is_exercise(rec)
    }

    /// Whether it picks a record: each term that is given holds of it.
    pub fn picks(&self, rec: &Rec) -> bool
        ensures tests { result ≡ picks self.now rec.now }
        ensures means { IsTrue result ↔ Picks self.now rec.now }
    {
        self.holds_of(rec)
    }
}
