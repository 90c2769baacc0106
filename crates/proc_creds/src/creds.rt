// Credentials.
ghost use Rattle.std.specs.Prelude.{◌≡◌, ◌||◌, true, false, cond, IfOk, OnOk, OnErr};
ghost use Rattle.cap_bits.specs.CapSet.{is_within, no_caps};
ghost use Rattle.cap_bits.specs.FileCaps.{shown};
ghost use Rattle.kern_model.specs.Exec.{exec_caps};
ghost use Rattle.kern_model.specs.ProcessRows.{with_group, with_user};
ghost use Rattle.kern_model.specs.Rules.{may_be_group, may_be_user, may_become};
ghost use Rattle.proc_creds.specs.Credentials.{taken_on};

use cap_bits::{CapSet, CapState, FileCaps};
use kern_model::{Gid, Ids, Mode, NoMemory, Uid};
use lab_lattice::Label;
use std::marker::Model;

/// What a process is and may do. What is effective is permitted.
#[derive(Debug)]
pub struct Creds {
    pub ids: Ids,
    /// The present label.
    pub label: Label,
    pub caps: CapState,
    /// The permission bits that a new object does not get, within octal 0777.
    pub umask: Mode,
}

impl Drop for Creds {
    fn drop(self) {
        let Creds {
            ids: _,
            label: _,
            caps: _,
            umask: _,
        } = self;
    }
}

impl Model for Creds {
    ghost use Rattle.std.specs.Prelude.{◌≡◌, true};
    ghost use Rattle.std.specs.FinSet as set;
    ghost use Rattle.std.specs.Coded.{codes};
    ghost use Rattle.cap_bits.specs.Cap.{cap_cmp, cap_code};
    ghost use Rattle.cap_bits.specs.CapSet.{is_within};
    ghost use Rattle.lab_lattice.specs.Label.{label_code};
    ghost use Rattle.proc_creds.specs.Credentials.{Credentials};

    ghost Value = { Credentials };

    ghost coded = { Prim.hlevel (codes, set.code {R = cap_cmp} cap_code, label_code) };

    ghost view = { λ c. record { ids = c.ids; label = c.label; caps = c.caps; umask = c.umask } };

    ghost invariant = { λ c. is_within c.caps.e c.caps.p ≡ true };
}

/// The rule of the change does not allow it.
#[derive(Clone, Copy, Debug, PartialEq, Eq)]
pub struct NotAllowed;

// Whether a process with the old sets may get the new ones: what is permitted was permitted, what is effective is permitted,
// and what is inheritable was inheritable or permitted.
fn may_become(old: &CapState, new: &CapState) -> bool
    ensures { result ≡ may_become old.now new.now }
{
    new.p.within(&old.p) && new.e.within(&new.p) && new.i.within(&old.i.union(old.p))
}

// What is effective after exec of a file, by what is permitted.
fn effective_by(file: &FileCaps, permitted: CapSet) -> CapSet
    ensures { result ≡ cond file.now.eff permitted no_caps }
{
    if file.eff { permitted } else { CapSet::none() }
}

// The sets of a process after exec, by those before, those of the file and the bound.
#[tactic(auto, using(crate::proofs::Within::effective_shown, crate::proofs::Within::effective_within))]
fn exec_caps(old: &CapState, file: &FileCaps, bound: &CapSet) -> CapState
    ensures formula { result ≡ exec_caps old.now (shown file.now) bound.now }
    ensures within { is_within result.e result.p ≡ true }
{
    let permitted = file.p.meet(*bound).union(file.i.meet(old.i));
    CapState {
        e: effective_by(file, permitted),
        i: old.i,
        p: permitted,
    }
}

impl Creds {
    /// Whether the check `cap_grow` allows these capability sets.
    pub fn may_set(&self, state: &CapState) -> bool
        ensures { result ≡ may_become self.now.caps state.now }
    {
        may_become(&self.caps, state)
    }

    /// Sets the capability sets, where the check `cap_grow` allows them.
    pub fn cap_set(&mut self, state: CapState) -> Result<(), NotAllowed>
        ensures set { OnOk result ((may_become self.old.caps state ≡ true) × (self.new ≡ record self.old { caps = state })) }
        ensures refused { OnErr result ((may_become self.old.caps state ≡ false) × (self.new ≡ self.old)) }
    {
        if !self.may_set(&state) {
            return Err(NotAllowed);
        }
        self.caps = state;
        Ok(())
    }

    /// Sets the real, effective and saved user with `all`, and else the effective one, which has to be the real or the saved
    /// one.
    pub fn setuid(&mut self, uid: Uid, all: bool) -> Result<(), NotAllowed>
        ensures set { OnOk result ((all || may_be_user self.old.ids uid ≡ true) × (self.new ≡ record self.old { ids = with_user self.old.ids uid all })) }
        ensures refused { OnErr result ((all || may_be_user self.old.ids uid ≡ false) × (self.new ≡ self.old)) }
    {
        if !all && uid != self.ids.ruid && uid != self.ids.suid {
            return Err(NotAllowed);
        }
        self.ids.euid = uid;
        if all {
            self.ids.ruid = uid;
            self.ids.suid = uid;
        }
        Ok(())
    }

    /// Sets the real, effective and saved group with `all`, and else the effective one, which has to be the real or the saved
    /// one.
    pub fn setgid(&mut self, gid: Gid, all: bool) -> Result<(), NotAllowed>
        ensures set { OnOk result ((all || may_be_group self.old.ids gid ≡ true) × (self.new ≡ record self.old { ids = with_group self.old.ids gid all })) }
        ensures refused { OnErr result ((all || may_be_group self.old.ids gid ≡ false) × (self.new ≡ self.old)) }
    {
        if !all && gid != self.ids.rgid && gid != self.ids.sgid {
            return Err(NotAllowed);
        }
        self.ids.egid = gid;
        if all {
            self.ids.rgid = gid;
            self.ids.sgid = gid;
        }
        Ok(())
    }

    /// Sets the present label.
    pub fn mac_set(&mut self, label: Label)
        ensures { self.new ≡ record self.old { label = label } }
    {
        self.label = label;
    }

    /// Takes on the credentials that a program gives: the sets by its sets and the bound, and the effective and saved user and
    /// group that its set-id bits give.
    pub fn exec_transform(
        &mut self,
        file: &FileCaps,
        bound: &CapSet,
        new_user: Option<Uid>,
        new_group: Option<Gid>,
    )
        ensures { self.new ≡ record self.old { ids = taken_on self.old.ids new_user new_group; caps = exec_caps self.old.caps (shown file.now) bound.now } }
    {
        self.caps = exec_caps(&self.caps, file, bound);
        if let Some(user) = new_user {
            self.ids.euid = user;
            self.ids.suid = user;
        }
        if let Some(group) = new_group {
            self.ids.egid = group;
            self.ids.sgid = group;
        }
    }

    /// A copy of the credentials.
    pub fn copy(&self) -> Result<Creds, NoMemory>
        ensures { IfOk result (λ copy. copy ≡ self.now) }
    {
        Ok(Creds {
            ids: self.ids.copy()?,
            label: self.label,
            caps: self.caps,
            umask: self.umask,
        })
    }
}
