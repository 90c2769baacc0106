// The caller of a call, and the checks that are made of it.
ghost use Rattle.std.specs.Prelude.{◌≡◌, IsSome, MatchOption, None, false, true};
ghost use Rattle.std.specs.FinMap as map;
ghost use Rattle.kern_model.specs.declared.numbers.Oid.{Oid};
ghost use Rattle.kern_model.specs.Row.{need_if, Need, Soft};
ghost use Rattle.kern_model.specs.Rules.{created_order, dac_read, dac_search, dac_write, fsetid, held_order, link_dir, mac_read, mac_write, mode_allows as mode_lets, unlink_dir};
ghost use Rattle.chk_rules.specs.RowSteps.{GoesOn};
ghost use Rattle.sys_lookup.specs.Callers.{IsLiving, caller_in};
ghost use Rattle.sys_lookup.specs.StepOn.{StepOn};
ghost use Rattle.sys_lookup.specs.Shared.{check_on};

use crate::shared::{Metadata, Shared};
use chk_rules::{Checks, Stop, Want, mac_read_ok, mac_write_ok, mode_allows, must, prefer};
use kern_model::{Check, CheckName, Oid, Pid, Place, Thing};
use lab_lattice::Lattice;
use proc_table::Proc;
use std::marker::Model;

/// A living process that makes a call, and the state in which its call looks things up.
#[derive(Drop)]
pub struct Caller<'a> {
    pub(crate) shared: &'a Shared,
    pub(crate) who: Pid,
    pub(crate) process: &'a Proc,
}

impl<'a> Model for Caller<'a> {
    ghost use Rattle.kern_model.proofs.StateCode.{pid_code, process_code, state_code};
    ghost use Rattle.sys_lookup.specs.Callers.{CallerView, IsLiving, caller_code};

    ghost Value = { CallerView };

    ghost coded = { caller_code state_code pid_code process_code };

    ghost use Rattle.sys_lookup.specs.Calling.{caller_of};

    ghost view = { caller_of };

    ghost invariant = { λ c. IsLiving (caller_of c) };
}

impl<'a> Caller<'a> {
    /// The process with a number, as the caller in a state, if it is living.
    pub fn find(shared: &'a Shared, who: &Pid) -> Option<Caller<'a>>
        ensures { MatchOption result (map.get shared.now.procs who.now ≡ None) (λ k. (k ≡ caller_in shared.now who.now) × IsLiving k) }
    {
        let process = shared.procs.find(who)?;
        Some(Caller {
            shared,
            who: *who,
            process,
        })
    }

    /// The living process with a number, as the caller in a state.
    pub fn new(shared: &'a Shared, who: &Pid) -> Caller<'a>
        requires { IsSome (map.get shared.now.procs who.now) }
        ensures caller { result ≡ caller_in shared.now who.now }
        ensures living { IsLiving result }
    {
        let Some(caller) = Caller::find(shared, who) else {
            unreachable!();
        };
        caller
    }
}

impl Caller<'_> {
    /// Checks, where it is asked for, that the caller's label dominates that of an object, which is what labels ask of a read.
    #[inline(always)]
    pub fn mac_read_if(
        &self,
        asked: bool,
        checks: &mut Checks,
        object: &Metadata,
        place: Place,
    ) -> Result<(), Stop>
        ensures { StepOn checks.old object.now (λ s id rest. need_if asked (mac_read s self.now.process id place) (rest tt)) result checks.new }
    {
        let holds = mac_read_ok(&self.label(), &object.label);
        must_hold_if(asked, checks, CheckName::MacRead, holds, object, place)
    }

    /// Checks that the caller's label dominates that of an object, which is what labels ask of a read.
    #[tactic(auto, unfolding(kern_model::specs::Row::need_if))]
    #[inline(always)]
    pub fn mac_read(&self, checks: &mut Checks, object: &Metadata, place: Place) -> Result<(), Stop>
        ensures { StepOn checks.old object.now (λ s id rest. Need (mac_read s self.now.process id place) (rest tt)) result checks.new }
    {
        self.mac_read_if(true, checks, object, place)
    }

    /// Checks, where it is asked for, that the labels of the caller and of an object are equal, which is what labels ask of a write.
    #[inline(always)]
    pub fn mac_write_if(
        &self,
        asked: bool,
        checks: &mut Checks,
        object: &Metadata,
        place: Place,
    ) -> Result<(), Stop>
        ensures { StepOn checks.old object.now (λ s id rest. need_if asked (mac_write s self.now.process id place) (rest tt)) result checks.new }
    {
        let holds = mac_write_ok(&self.label(), &object.label);
        must_hold_if(asked, checks, CheckName::MacWrite, holds, object, place)
    }

    /// Checks that the labels of the caller and of an object are equal, which is what labels ask of a write.
    #[tactic(auto, unfolding(kern_model::specs::Row::need_if))]
    #[inline(always)]
    pub fn mac_write(
        &self,
        checks: &mut Checks,
        object: &Metadata,
        place: Place,
    ) -> Result<(), Stop>
        ensures { StepOn checks.old object.now (λ s id rest. Need (mac_write s self.now.process id place) (rest tt)) result checks.new }
    {
        self.mac_write_if(true, checks, object, place)
    }

    /// Checks, where it is asked for, that the mode of an object lets the caller read it.
    #[inline(always)]
    pub fn dac_read_if(
        &self,
        asked: bool,
        checks: &mut Checks,
        object: &Metadata,
        place: Place,
    ) -> Result<(), Stop>
        ensures { StepOn checks.old object.now (λ s id rest. need_if asked (dac_read s self.now.process id place) (rest tt)) result checks.new }
    {
        let holds = self.mode_lets(object, Want::Read);
        must_hold_if(asked, checks, CheckName::DacRead, holds, object, place)
    }

    /// Checks that the mode of an object lets the caller read it.
    #[tactic(auto, unfolding(kern_model::specs::Row::need_if))]
    #[inline(always)]
    pub fn dac_read(&self, checks: &mut Checks, object: &Metadata, place: Place) -> Result<(), Stop>
        ensures { StepOn checks.old object.now (λ s id rest. Need (dac_read s self.now.process id place) (rest tt)) result checks.new }
    {
        self.dac_read_if(true, checks, object, place)
    }

    /// Checks, where it is asked for, that the mode of an object lets the caller write it.
    #[inline(always)]
    pub fn dac_write_if(
        &self,
        asked: bool,
        checks: &mut Checks,
        object: &Metadata,
        place: Place,
    ) -> Result<(), Stop>
        ensures { StepOn checks.old object.now (λ s id rest. need_if asked (dac_write s self.now.process id place) (rest tt)) result checks.new }
    {
        let holds = self.mode_lets(object, Want::Write);
        must_hold_if(asked, checks, CheckName::DacWrite, holds, object, place)
    }

    /// Checks that the mode of an object lets the caller write it.
    #[tactic(auto, unfolding(kern_model::specs::Row::need_if))]
    #[inline(always)]
    pub fn dac_write(
        &self,
        checks: &mut Checks,
        object: &Metadata,
        place: Place,
    ) -> Result<(), Stop>
        ensures { StepOn checks.old object.now (λ s id rest. Need (dac_write s self.now.process id place) (rest tt)) result checks.new }
    {
        self.dac_write_if(true, checks, object, place)
    }

    /// Checks that the caller may search a directory.
    #[inline(always)]
    pub fn dac_search(&self, checks: &mut Checks, dir: &Metadata, place: Place) -> Result<(), Stop>
        ensures { StepOn checks.old dir.now (λ s id rest. Need (dac_search s self.now.process id place) (rest tt)) result checks.new }
    {
        let holds = self.mode_lets(dir, Want::Execute);
        must_hold(checks, CheckName::DacSearch, holds, dir, place)
    }

    /// Checks that an object may get one more name: it is no directory.
    pub fn link_dir(&self, checks: &mut Checks, object: &Metadata, place: Place) -> Result<(), Stop>
        ensures { StepOn checks.old object.now (λ s id rest. Need (link_dir s id place) (rest tt)) result checks.new }
    {
        let holds = !object.is_directory();
        must_hold(checks, CheckName::LinkDir, holds, object, place)
    }

    /// Checks that a name of an object may be unlinked: it is no directory.
    pub fn unlink_dir(
        &self,
        checks: &mut Checks,
        object: &Metadata,
        place: Place,
    ) -> Result<(), Stop>
        ensures { StepOn checks.old object.now (λ s id rest. Need (unlink_dir s id place) (rest tt)) result checks.new }
    {
        let holds = !object.is_directory();
        must_hold(checks, CheckName::UnlinkDir, holds, object, place)
    }

    /// Asks whether the set-id bits and capabilities of an object, if it has some, may stay: they may where `plain` holds.
    pub fn fsetid(
        &self,
        checks: &mut Checks,
        object: &Metadata,
        plain: bool,
        place: Place,
    ) -> Result<bool, Stop>
        ensures { StepOn checks.old object.now (λ s id rest. Soft (fsetid s plain id place) (rest true) (rest false)) result checks.new }
    {
        prefer(checks, &check_of(CheckName::Fsetid, plain, object, place))
    }

    /// Checks the order of labels where the caller makes an object in a directory.
    pub(crate) fn created_order(
        &self,
        checks: &mut Checks,
        dir: &Metadata,
        place: Place,
    ) -> Result<(), Stop>
        ensures { StepOn checks.old dir.now (λ s id rest. Need (created_order s self.now.process id place) (rest tt)) result checks.new }
    {
        let holds = self.label().dominates(&dir.label);
        must_hold(checks, CheckName::LabelOrder, holds, dir, place)
    }

    /// The check of a directory that gets an entry for an object: the order of labels holds.
    pub fn held_order(&self, id: &Oid, dir: &Oid, place: Place) -> Check
        ensures { result ≡ held_order self.now.state id.now dir.now place }
    {
        let object = self.metadata(id);
        let dir = self.metadata(dir);
        let holds = object.label.dominates(&dir.label);
        check_of(CheckName::LabelOrder, holds, &dir, place)
    }

    /// Whether the mode of an object lets the caller do what is wanted.
    #[inline(always)]
    pub(crate) fn mode_lets(&self, object: &Metadata, want: Want) -> bool
        ensures { result ≡ mode_lets object.now.attr self.now.process.ids want }
    {
        let creds = self.creds();
        mode_allows(&object.attr, &creds.ids, want)
    }
}

// Makes a check of an object where it is asked for.
#[inline(always)]
fn must_hold_if(
    asked: bool,
    checks: &mut Checks,
    name: CheckName,
    holds: bool,
    object: &Metadata,
    place: Place,
) -> Result<(), Stop>
    ensures { GoesOn checks.old (λ rest. need_if asked (check_on name holds None object.now place) (rest tt)) result checks.new }
{
    if asked {
        must_hold(checks, name, holds, object, place)
    } else {
        Ok(())
    }
}

/// Makes a check of an object that has to let the call go on. Only where its rule does not hold is the check built.
#[tactic(auto, unfolding(kern_model::specs::Row::judge, kern_model::specs::Row::verdict_of))]
#[inline(always)]
pub fn must_hold(
    checks: &mut Checks,
    name: CheckName,
    holds: bool,
    object: &Metadata,
    place: Place,
) -> Result<(), Stop>
    ensures { GoesOn checks.old (λ rest. Need (check_on name holds None object.now place) (rest tt)) result checks.new }
{
    if holds {
        return Ok(());
    }
    must_be_capable(checks, name, object, place)
}

// Makes a check whose rule does not hold: the call goes on by a capability, or stops.
#[inline(never)]
fn must_be_capable(
    checks: &mut Checks,
    name: CheckName,
    object: &Metadata,
    place: Place,
) -> Result<(), Stop>
    ensures { GoesOn checks.old (λ rest. Need (check_on name false None object.now place) (rest tt)) result checks.new }
{
    must(checks, &check_of(name, false, object, place))
}

/// A check of an object, given whether its rule holds.
#[inline(always)]
pub fn check_of(name: CheckName, holds: bool, object: &Metadata, place: Place) -> Check
    ensures { result ≡ check_on name holds None object.now place }
{
    Check {
        name,
        holds,
        thing: Thing::Object(object.id),
        thing_label: object.label,
        new_label: None,
        place,
    }
}
