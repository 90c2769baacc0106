// The checks of a call: their verdicts, and the exercises that they leave.
ghost use Rattle.std.specs.Prelude.{◌≡◌, ◌++◌, IfOk, OnErr, OnOk, Some, false, true};
ghost use Rattle.kern_model.specs.Row.{exercise_with, verdict_of, Need, Refuse, Soft};
ghost use Rattle.chk_rules.specs.CheckLog.{CheckLog, check_log, log_after};
ghost use Rattle.chk_rules.specs.RowSteps.{GoesOn};

use crate::Stop;
use cap_bits::{Cap, CapSet};
use kern_model::{Check, Errno, Exercise, NoMemory, Pid, Rec, RecList, Verdict};
use lab_lattice::Label;
use std::alloc::Global;
use std::marker::Model;

/// The checks of one call: whose call it is, with which effective capabilities, and the exercises so far.
pub struct Checks {
    who: Pid,
    label: Label,
    effective: CapSet,
    used: RecList,
}

impl Drop for Checks {
    fn drop(self) {
        let Checks {
            who: _,
            label: _,
            effective: _,
            used: _,
        } = self;
    }
}

impl Model for Checks {
    ghost use Rattle.std.specs.FinSet as set;
    ghost use Rattle.std.specs.Coded.{codes};
    ghost use Rattle.cap_bits.specs.Cap.{cap_cmp, cap_code};
    ghost use Rattle.lab_lattice.specs.Label.{label_code};
    ghost use Rattle.chk_rules.specs.CheckLog.{CheckLog};

    ghost Value = { CheckLog };

    ghost coded = { Prim.hlevel (codes, set.code {R = cap_cmp} cap_code, label_code) };

    ghost view = { λ c. record { subject = record { who = c.who; label = c.label; effective = c.effective }; used = c.used } };
}

impl Checks {
    /// The checks of a call of this process, before the first one. No memory is taken.
    pub fn new(alloc: Global, who: Pid, label: Label, effective: CapSet) -> Checks
        ensures { result ≡ check_log who label effective }
    {
        Checks {
            who,
            label,
            effective,
            used: RecList::new(alloc),
        }
    }

    /// The verdict of a check. Where its capability is exercised, a record of that is added.
    #[tactic(auto, unfolding(kern_model::specs::Row::verdict_of))]
    #[inline(always)]
    pub fn need(&mut self, check: &Check) -> Result<Verdict, NoMemory>
        ensures verdict { IfOk result (λ verdict. verdict ≡ verdict_of self.old.subject check.now) }
        ensures used { IfOk result (λ verdict. self.new ≡ log_after self.old check.now verdict) }
        ensures subject { self.new.subject ≡ self.old.subject }
        ensures err { OnErr result (self.new ≡ self.old) }
    {
        if check.holds {
            return Ok(Verdict::Passed);
        }
        match check.name.cap() {
            Some(cap) if self.effective.has(cap) => {
                self.exercise(cap, check)?;
                Ok(Verdict::Exercised)
            }
            _ => Ok(Verdict::Denied),
        }
    }

    // Adds the record of a check that passes by a capability.
    #[inline(never)]
    fn exercise(&mut self, cap: Cap, check: &Check) -> Result<(), NoMemory>
        ensures ok { OnOk result (self.new ≡ record self.old { used = self.old.used ++ exercise_with self.old.subject check.now (Some cap) }) }
        ensures err { OnErr result (self.new ≡ self.old) }
    {
        self.used.push(Rec::Exercise(Exercise {
            who: self.who,
            label: self.label,
            cap,
            check: check.name,
            thing: check.thing,
            thing_label: check.thing_label,
            new_label: check.new_label,
            place: check.place,
        }))
    }

    /// The exercises so far, in order.
    pub fn exercises(&self) -> &[Rec]
        ensures { result.now ≡ self.now.used }
    {
        self.used.items()
    }

    /// The exercises, in order.
    pub fn into_exercises(self) -> RecList
        ensures { result ≡ self.used }
    {
        let Checks {
            who: _,
            label: _,
            effective: _,
            used,
        } = self;
        used
    }
}

/// Makes a check that has to let the call go on: where it is denied, the call stops.
#[tactic(auto, unfolding(kern_model::specs::Row::judge, crate::specs::RowSteps::EndsBy))]
#[inline(always)]
pub fn must(checks: &mut Checks, check: &Check) -> Result<(), Stop>
    ensures { GoesOn checks.old (λ rest. Need check.now (rest tt)) result checks.new }
{
    match checks.need(check)? {
        Verdict::Passed | Verdict::Exercised => Ok(()),
        Verdict::Denied => Err(Stop::Denied(check.name, check.place)),
    }
}

/// Makes a check that stops nothing, and returns whether it lets the call go on in full.
#[tactic(auto, unfolding(kern_model::specs::Row::judge, crate::specs::RowSteps::EndsBy))]
#[inline(always)]
pub fn prefer(checks: &mut Checks, check: &Check) -> Result<bool, Stop>
    ensures { GoesOn checks.old (λ rest. Soft check.now (rest true) (rest false)) result checks.new }
{
    match checks.need(check)? {
        Verdict::Passed | Verdict::Exercised => Ok(true),
        Verdict::Denied => Ok(false),
    }
}

/// Refuses the call where the condition holds.
#[tactic(auto, unfolding(kern_model::specs::Row::judge, crate::specs::RowSteps::EndsBy))]
pub fn refuse_if(holds: bool, errno: Errno) -> Result<(), Stop>
    ensures { (log : CheckLog) → GoesOn log (λ rest. Refuse errno holds (rest tt)) result log }
{
    if holds {
        Err(Stop::Refused(errno))
    } else {
        Ok(())
    }
}
