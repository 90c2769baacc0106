// Whether the records of a trail can follow one another.
ghost use Rattle.std.specs.Prelude.{◌≡◌, ◌↔◌, IfOk, OnOk};
ghost use Rattle.kern_model.specs.Exec.{exec_caps};
ghost use Rattle.kern_model.specs.Rules.{may_become};
ghost use Rattle.iso_laws.specs.Follows.{AllFollow};
ghost use Rattle.aud_red.specs.declared.lineage.Lineage.TheVariants as lineage;
ghost use Rattle.aud_red.specs.Lineage.{recs_in, recs_of, why_word, process_fault, sets_fault, why_not};
ghost use Rattle.aud_red.specs.Lineage.{lineage_of, FailsAt, IfNo, is_in, caps_in, entry_of, Adds};

use crate::{NoMemory, Trail};
use aud_record::{ReadRec, who};
use cap_bits::{CapSet, CapState};
use kern_model::{Pid, Rec};
use std::alloc::Global;
use std::collections::BTreeMap;

/// Why a record cannot follow the ones before it.
#[derive(Clone, Copy, Debug, PartialEq, Eq)]
pub enum Why {
    /// The process that it is about is not known: no record started or made it.
    Unknown,
    /// The process that it starts or makes is known already.
    Number,
    /// The sets that the program gives are not those of the exec formula.
    Exec,
    /// The sets that the process gives itself cannot be had from those before.
    Grow,
    /// The capability that it exercises is not effective.
    Exercise,
}

impl Why {
    /// Its word.
    pub fn word(self) -> &'static [u8]
        ensures { result.now ≡ why_word self }
    {
        match self {
            Why::Unknown => b"unknown",
            Why::Number => b"number",
            Why::Exec => b"exec",
            Why::Grow => b"grow",
            Why::Exercise => b"exercise",
        }
    }
}

/// Whether the records of a trail can follow one another.
#[derive(Clone, Copy, Debug, PartialEq, Eq)]
pub enum Lineage {
    /// Each record follows the ones before it.
    Yes,
    /// The record with this place, counted from 0, is the first that does not.
    No { at: u64, why: Why },
}

/// The capability sets of each process that is known.
type Known = BTreeMap<Pid, CapState>;

#[tactic(auto, unfolding(kern_model::specs::Keys::pid_cmp))]
fn is_in(known: &Known, process: &Pid) -> bool
    ensures { result ≡ is_in known.now process.now }
{
    known.contains_key(process)
}

#[tactic(auto, unfolding(kern_model::specs::Keys::pid_cmp))]
fn caps_in(known: &Known, process: &Pid) -> CapState
    ensures { result ≡ caps_in known.now process.now }
{
    known.get(process).copied().unwrap_or(CapState::none())
}

// Whether a process with the old sets may give itself the new ones.
fn may_become(old: &CapState, new: &CapState) -> bool
    ensures { result ≡ may_become old.now new.now }
{
    new.p.within(&old.p) && new.e.within(&new.p) && new.i.within(&old.i.union(old.p))
}

// The sets of a process after exec of a file with these.
fn exec_caps(old: &CapState, file: &CapState, bound: &CapSet) -> CapState
    ensures { result ≡ exec_caps old.now file.now bound.now }
{
    let p = file.p.meet(*bound).union(file.i.meet(old.i));
    let e = if file.e == CapSet::none() {
        CapSet::none()
    } else {
        p
    };
    CapState { e, i: old.i, p }
}

// Why a record may not come, by the processes that are known.
fn process_fault(known: &Known, rec: &Rec) -> Option<Why>
    ensures { result ≡ process_fault (is_in known.now) rec.now }
{
    match rec {
        Rec::Boot { who, .. } if is_in(known, who) => Some(Why::Number),
        Rec::Boot { .. } => None,
        _ if !is_in(known, &who(rec)) => Some(Why::Unknown),
        Rec::Fork { child, .. } if is_in(known, child) => Some(Why::Number),
        _ => None,
    }
}

// Why a record may not come, by the capability sets of the processes.
fn sets_fault(bound: &CapSet, known: &Known, rec: &Rec) -> Option<Why>
    ensures { result ≡ sets_fault bound.now (caps_in known.now) rec.now }
{
    let before = caps_in(known, &who(rec));
    match rec {
        Rec::Exec {
            file_caps,
            caps,
            ..
        } if *caps != exec_caps(&before, file_caps, bound) => Some(Why::Exec),
        Rec::CapSetProc { caps, .. } if !may_become(&before, caps) => Some(Why::Grow),
        Rec::Exercise(exercise) if !before.e.has(exercise.cap) => Some(Why::Exercise),
        _ => None,
    }
}

// Why a record may not come.
fn why_not(bound: &CapSet, known: &Known, rec: &Rec) -> Option<Why>
    ensures { result ≡ why_not bound.now (is_in known.now) (caps_in known.now) rec.now }
{
    process_fault(known, rec).or(sets_fault(bound, known, rec))
}

// The process that a record starts, makes or gives sets, and its sets after the record.
fn entry_of(known: &Known, rec: &Rec) -> Option<(Pid, CapState)>
    ensures { result ≡ entry_of (caps_in known.now) rec.now }
{
    match rec {
        Rec::Boot { who, caps, .. } => Some((*who, *caps)),
        Rec::Fork { who, child } => Some((*child, caps_in(known, who))),
        Rec::Exec { who, caps, .. } => Some((*who, *caps)),
        Rec::CapSetProc { who, caps } => Some((*who, *caps)),
        _ => None,
    }
}

// Adds what a record gives.
#[tactic(auto, unfolding(kern_model::specs::Keys::pid_cmp))]
fn add(known: &mut Known, rec: &Rec) -> Result<(), NoMemory>
    ensures { OnOk result (Adds known.old rec.now known.new) }
{
    if let Some((process, caps)) = entry_of(known, rec) {
        known.insert(process, caps)?;
    }
    Ok(())
}

// The answer of records.
fn lineage_of(alloc: Global, bound: &CapSet, recs: &[ReadRec]) -> Result<Lineage, NoMemory>
    ensures { IfOk result (λ l. l ≡ lineage_of bound.now (recs_in recs.now)) }
{
    let mut known = Known::new(alloc);
    for (place, read) in recs.iter().enumerate() {
        if let Some(why) = why_not(bound, &known, &read.rec) {
            return Ok(Lineage::No {
                at: place as u64,
                why,
            });
        }
        add(&mut known, &read.rec)?;
    }
    Ok(Lineage::Yes)
}

/// Whether each record of a trail follows the ones before it, or the first that does not.
#[tactic(auto, using(crate::proofs::LineageLemmas::yes_found, crate::proofs::LineageLemmas::no_found))]
pub fn check_lineage(alloc: Global, trail: &Trail) -> Result<Lineage, NoMemory>
    ensures lineage { IfOk result (λ l. l ≡ lineage_of trail.now.bound (recs_of trail.now)) }
    ensures yes { IfOk result (λ l. (l ≡ lineage.Yes) ↔ AllFollow trail.now.bound (recs_of trail.now)) }
    ensures no { IfOk result (λ l. IfNo l (FailsAt trail.now.bound (recs_of trail.now))) }
{
    lineage_of(alloc, &trail.bound, trail.recs.items())
}
