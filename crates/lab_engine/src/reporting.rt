// What a run reports of its calls.
ghost use Rattle.std.specs.Prelude.{◌≡◌, ◌^◌, ◌∷◌, [], ℕ, List, cond, IfOk, OnOk};
ghost use Rattle.kern_model.specs.declared.numbers.Pid.{Pid};
ghost use Rattle.kern_model.specs.Isolation.{crosses, any_crosses, differ, is_mac as is_mac_cap, low};
ghost use Rattle.lab_engine.specs.declared.reporting.Report.TheVariants as a_report;
ghost use Rattle.lab_engine.specs.Report.{CountsAtMost, call_record, caps_in, empty_tally, exercises as exercises_among, is_exercise, report_after_call, shown_of, tally_in, tally_of};

use cap_bits::{Cap, CapSet};
use kern_model::{NoMemory, Outcome, Pid, Rec, Reply};
use lab_lattice::{Label, Lattice};
use least_caps::named;

/// How many calls were answered, and how many exercises of capabilities were recorded.
#[derive(Clone, Copy, Debug, PartialEq, Eq)]
pub struct Tally {
    /// The calls that were done.
    pub ok: u64,
    /// The calls that a check denied.
    pub denied: u64,
    /// The calls that another cause stopped.
    pub refused: u64,
    pub exercised: u64,
}

/// What of a run is written, and what is kept of its replies.
#[derive(Clone, Copy, Debug)]
pub enum Report {
    /// The records of each call go to the trail, and then its reply to the output.
    All,
    /// The replies to processes whose number's label this one dominates go to the output, up to the first call that
    /// crosses it. So many were written.
    Below(Label, u64),
    /// A call has crossed the label, and nothing more is written.
    Crossed,
    /// Nothing is written, and what was answered is counted.
    Counted(Tally),
    /// Nothing is written, and the capabilities are kept that exercises name.
    Named(CapSet),
}

/// What is written of one call.
#[derive(Clone, Copy)]
pub enum Shown {
    /// Its records, and its reply.
    Call,
    /// Its reply.
    Reply,
    /// That it has crossed the label.
    Crossing,
    Nothing,
}

// Whether a capability overrides the rules on labels.
fn is_mac(cap: Cap) -> bool
    ensures { result ≡ is_mac_cap cap }
{
    matches!(
        cap,
        Cap::MacDowngrade | Cap::MacRead | Cap::MacRelabelSubj | Cap::MacUpgrade | Cap::MacWrite
    )
}

// Whether a label dominates one of two labels, and not the other.
fn parts(label: &Label, one: &Label, other: &Label) -> bool
    ensures { result ≡ differ (low label.now one.now) (low label.now other.now) }
{
    label.dominates(one) != label.dominates(other)
}

// Whether a record crosses a label.
fn crosses_label(label: &Label, rec: &Rec) -> bool
    ensures { result ≡ crosses label.now rec.now }
{
    match rec {
        Rec::Exercise(exercise) => {
            is_mac(exercise.cap)
                && (parts(label, &exercise.label, &exercise.thing_label)
                    || exercise
                        .new_label
                        .as_ref()
                        .is_some_and(|new| parts(label, &exercise.label, new)))
        }
        _ => false,
    }
}

// Whether a record among these crosses a label.
fn any_crosses(label: &Label, recs: &[Rec]) -> bool
    ensures { result ≡ any_crosses label.now recs.now }
{
    recs.iter().any(|rec| crosses_label(label, rec))
}

// How many exercises of a capability a record is: one or none.
#[tactic(auto, unfolding(crate::specs::Report::is_exercise))]
fn exercises_in(rec: &Rec) -> usize
    ensures { result ≡ cond (is_exercise rec.now) 1 0 }
{
    match rec {
        Rec::Exercise(_) => 1,
        _ => 0,
    }
}

// How many exercises of capabilities are among these records.
fn exercises(recs: &[Rec]) -> usize
    ensures { result ≡ exercises_among recs.now }
{
    let mut count = 0;
    for rec in recs {
        count += exercises_in(rec);
    }
    count
}

impl Tally {
    /// A tally of no call.
    pub fn new() -> Self
        ensures { result ≡ empty_tally }
    {
        Tally {
            ok: 0,
            denied: 0,
            refused: 0,
            exercised: 0,
        }
    }

    // Counts a call. Where a `u64` cannot hold the number of exercises, it returns out of memory.
    fn count(&mut self, outcome: &Outcome) -> Result<(), NoMemory>
        requires { CountsAtMost (2 ^ 60) (a_report.Counted self.old) }
        ensures { (who : Pid) (head : List ℕ) → OnOk result (self.new ≡ tally_of self.old (call_record who head outcome.now ∷ [])) }
    {
        let more = exercises(outcome.recs.items()) as u64;
        self.exercised = self.exercised.checked_add(more).ok_or(NoMemory)?;
        match outcome.reply {
            Reply::Done(_) => self.ok += 1,
            Reply::Denied { .. } => self.denied += 1,
            Reply::Refused(_) => self.refused += 1,
        }
        Ok(())
    }
}

impl Report {
    // Has the report go on after a call, and returns what is written of the call.
    pub(crate) fn advance(&mut self, who: &Pid, outcome: &Outcome) -> Result<Shown, NoMemory>
        requires { CountsAtMost (2 ^ 60) self.old }
        ensures shown { IfOk result (λ shown. shown ≡ shown_of self.old who.now outcome.now.recs) }
        ensures report { (head : List ℕ) → OnOk result (self.new ≡ report_after_call self.old (call_record who.now head outcome.now)) }
    {
        match self {
            Report::All => Ok(Shown::Call),
            Report::Below(label, written) => {
                if any_crosses(label, outcome.recs.items()) {
                    *self = Report::Crossed;
                    return Ok(Shown::Crossing);
                }
                if !label.dominates(&who.label) {
                    return Ok(Shown::Nothing);
                }
                *written += 1;
                Ok(Shown::Reply)
            }
            Report::Crossed => Ok(Shown::Nothing),
            Report::Counted(tally) => {
                tally.count(outcome)?;
                Ok(Shown::Nothing)
            }
            Report::Named(caps) => {
                *caps = caps.union(named(&outcome.recs));
                Ok(Shown::Nothing)
            }
        }
    }

    /// What was counted of calls, or the tally of no call where nothing was counted.
    pub fn tally(self) -> Tally
        ensures { result ≡ tally_in self }
    {
        match self {
            Report::Counted(tally) => tally,
            Report::All | Report::Below(..) | Report::Crossed | Report::Named(_) => Tally::new(),
        }
    }

    /// The capabilities that exercises named, or none where they were not kept.
    pub fn caps(self) -> CapSet
        ensures { result ≡ caps_in self }
    {
        match self {
            Report::Named(caps) => caps,
            Report::All | Report::Below(..) | Report::Crossed | Report::Counted(_) =>
                CapSet::none(),
        }
    }
}
