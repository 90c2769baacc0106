// The kinds of ids that a process has three of: a real, an effective and a saved one.
ghost use Rattle.std.specs.Prelude.{◌≡◌, OnErr, OnOk, false, true};
ghost use Rattle.sys_proc.specs.IdKind.{all_check_name, are_all, effective_check_name, held_ids, may_be_effective, may_set, with_id};

use kern_model::{CheckName, Ids};
use proc_creds::{Creds, NotAllowed};

/// A kind of ids.
#[derive(Clone, Copy)]
pub enum IdKind {
    User,
    Group,
}

/// The ids of one kind that a process has.
#[derive(Clone, Copy)]
pub struct HeldIds {
    pub real: u32,
    pub effective: u32,
    pub saved: u32,
}

impl IdKind {
    /// The ids of this kind among those of a process.
    pub fn held(self, ids: &Ids) -> HeldIds
        ensures { result ≡ held_ids self ids.now }
    {
        match self {
            IdKind::User => HeldIds {
                real: ids.ruid,
                effective: ids.euid,
                saved: ids.suid,
            },
            IdKind::Group => HeldIds {
                real: ids.rgid,
                effective: ids.egid,
                saved: ids.sgid,
            },
        }
    }

    /// The soft check of a call that sets all three.
    pub fn all_check_name(self) -> CheckName
        ensures { result ≡ all_check_name self }
    {
        match self {
            IdKind::User => CheckName::SetuidAll,
            IdKind::Group => CheckName::SetgidAll,
        }
    }

    /// The check of a call that sets the effective one alone.
    pub fn effective_check_name(self) -> CheckName
        ensures { result ≡ effective_check_name self }
    {
        match self {
            IdKind::User => CheckName::Setuid,
            IdKind::Group => CheckName::Setgid,
        }
    }

    /// Sets all three where `all` holds. Else it sets the effective one, which has to become the real or the saved one.
    pub fn set(self, creds: &mut Creds, id: u32, all: bool) -> Result<(), NotAllowed>
        ensures set { OnOk result ((may_set self creds.old.ids id all ≡ true) × (creds.new ≡ record creds.old { ids = with_id self creds.old.ids id all })) }
        ensures refused { OnErr result ((may_set self creds.old.ids id all ≡ false) × (creds.new ≡ creds.old)) }
    {
        match self {
            IdKind::User => creds.setuid(id, all),
            IdKind::Group => creds.setgid(id, all),
        }
    }
}

impl HeldIds {
    /// Whether all three are this id.
    pub fn are_all(self, id: u32) -> bool
        ensures { result ≡ are_all self id }
    {
        self.real == id && self.effective == id && self.saved == id
    }

    /// Whether a process may have an id as its effective one: it is the real or the saved one.
    pub fn may_be_effective(self, id: u32) -> bool
        ensures { result ≡ may_be_effective self id }
    {
        id == self.real || id == self.saved
    }
}
