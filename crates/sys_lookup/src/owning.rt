// What rows ask of the owner of an object, and of its attributes.
ghost use Rattle.std.specs.Prelude.{◌≡◌};
ghost use Rattle.kern_model.specs.declared.numbers.Oid.{Oid};
ghost use Rattle.kern_model.specs.Kinds.{has_set_id as mode_has_set_id, is_file, sets_group as mode_sets_group, sets_user as mode_sets_user};
ghost use Rattle.kern_model.specs.Row.{Need};
ghost use Rattle.kern_model.specs.Rules.{cap_within, chown_rule, is_owner, owner, setfcap};
ghost use Rattle.kern_model.specs.State.{State};
ghost use Rattle.chk_rules.specs.RowSteps.{GoesOn};
ghost use Rattle.sys_lookup.specs.StepOn.{StepOn};
ghost use Rattle.sys_lookup.specs.Shared.{metadata_of};

use crate::caller::{Caller, check_of, must_hold};
use crate::shared::Metadata;
use cap_bits::CapState;
use chk_rules::{Checks, Stop, has_group, must};
use kern_model::{Check, CheckName, Gid, Kind, Mode, Place, Thing, Uid};

// The places of the set-id bits in a mode.
const SET_USER: u16 = 11;

const SET_GROUP: u16 = 10;

/// Whether a mode has the set-user-ID bit.
#[tactic(auto, using(std::proofs::lemmas::Nat::Bits::shr_and_one))]
pub fn sets_user(mode: Mode) -> bool
    ensures { result ≡ mode_sets_user mode }
{
    (mode >> SET_USER) & 1 == 1
}

/// Whether a mode has the set-group-ID bit.
#[tactic(auto, using(std::proofs::lemmas::Nat::Bits::shr_and_one))]
pub fn sets_group(mode: Mode) -> bool
    ensures { result ≡ mode_sets_group mode }
{
    (mode >> SET_GROUP) & 1 == 1
}

/// Whether a mode has a set-id bit.
pub fn has_set_id(mode: Mode) -> bool
    ensures { result ≡ mode_has_set_id mode }
{
    sets_user(mode) || sets_group(mode)
}

/// The owner and the group that an object is to get.
#[derive(Clone, Copy, Debug, PartialEq, Eq)]
pub struct Ownership {
    pub owner: Uid,
    pub group: Gid,
}

impl Metadata {
    /// Whether the object is a regular file.
    pub fn is_file(&self) -> bool
        ensures { result ≡ is_file self.now.kind }
    {
        match self.kind {
            Kind::File => true,
            Kind::Dir | Kind::Fifo | Kind::Pipe => false,
        }
    }
}

impl Caller<'_> {
    /// Whether the caller's effective user is the owner of an object.
    pub fn is_owner(&self, object: &Metadata) -> bool
        ensures { (s : State) (id : Oid) → object.now ≡ metadata_of s id → result ≡ is_owner s self.now.process id }
    {
        let creds = self.creds();
        creds.ids.euid == object.attr.owner
    }

    /// Checks that the caller owns an object.
    pub fn owner(&self, checks: &mut Checks, object: &Metadata, place: Place) -> Result<(), Stop>
        ensures { StepOn checks.old object.now (λ s id rest. Need (owner s self.now.process id place) (rest tt)) result checks.new }
    {
        let holds = self.is_owner(object);
        must_hold(checks, CheckName::Owner, holds, object, place)
    }

    /// Checks that the caller may give an object an owner and a group: it owns the object, the owner stays, and the group is one
    /// of the caller's.
    pub fn chown(
        &self,
        checks: &mut Checks,
        object: &Metadata,
        to: Ownership,
        place: Place,
    ) -> Result<(), Stop>
        ensures { StepOn checks.old object.now (λ s id rest. Need (chown_rule s self.now.process id to.owner to.group place) (rest tt)) result checks.new }
    {
        let creds = self.creds();
        let stays = to.owner == object.attr.owner;
        let holds = stays && self.is_owner(object) && has_group(&creds.ids, to.group);
        must_hold(checks, CheckName::Chown, holds, object, place)
    }

    /// Checks that the caller may set the capability sets of a file: never without the capability.
    pub fn setfcap(&self, checks: &mut Checks, object: &Metadata, place: Place) -> Result<(), Stop>
        ensures { StepOn checks.old object.now (λ s id rest. Need (setfcap s id place) (rest tt)) result checks.new }
    {
        must(checks, &check_of(CheckName::Setfcap, false, object, place))
    }

    /// Checks that each capability in these sets is a permitted one of the caller.
    pub fn cap_within(&self, checks: &mut Checks, caps: &CapState) -> Result<(), Stop>
        ensures { GoesOn checks.old (λ rest. Need (cap_within self.now.who self.now.process caps.now) (rest tt)) result checks.new }
    {
        let creds = self.creds();
        let permitted = creds.caps.p;
        let holds = caps.e.within(&permitted)
            && caps.i.within(&permitted)
            && caps.p.within(&permitted);
        must(
            checks,
            &Check {
                name: CheckName::CapWithin,
                holds,
                thing: Thing::Process(self.who),
                thing_label: creds.label,
                new_label: None,
                place: Place::Caller,
            },
        )
    }
}
