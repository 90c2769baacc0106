// Numbers of processes, objects and open descriptions, of users and groups.
ghost use Rattle.std.specs.Prelude.{◌≡◌, IfOk};
ghost use Rattle.kern_model.specs.Keys.{same_oid};

use fs_path::{List, NoMemory};
use lab_lattice::{Label, Lattice, bottom};

/// The number of a process: the label that it was drawn at, and the count of its draw from 1 on.
#[derive(Clone, Copy, Debug, PartialEq, Eq, PartialOrd, Ord)]
pub struct Pid {
    pub label: Label,
    pub n: u16,
}

// No process has this number. A `SmallVec` fills its unused places with it.
impl Default for Pid {
    ghost use Rattle.std.specs.Prelude.{◌≡◌};
    ghost use Rattle.lab_lattice.specs.Label.{bottom};

    ghost is_default = { λ pid. pid ≡ record { label = bottom; n = 0 } };

    fn default() -> Pid {
        Pid {
            label: bottom(),
            n: 0,
        }
    }
}

/// The number of an object: the label that it was drawn at, and the count of its draw from 1 on.
#[derive(Clone, Copy, Debug, PartialEq, Eq, PartialOrd, Ord)]
pub struct Oid {
    pub label: Label,
    pub n: u16,
}

// No object has this number. A `SmallVec` fills its unused places with it.
impl Default for Oid {
    ghost use Rattle.std.specs.Prelude.{◌≡◌};
    ghost use Rattle.lab_lattice.specs.Label.{bottom};

    ghost is_default = { λ oid. oid ≡ record { label = bottom; n = 0 } };

    fn default() -> Oid {
        Oid {
            label: bottom(),
            n: 0,
        }
    }
}

impl Oid {
    /// Whether two numbers are one.
    pub fn is_same(&self, other: &Oid) -> bool
        ensures { result ≡ same_oid self.now other.now }
    {
        self.n == other.n && self.label.equal(&other.label)
    }
}

/// The number of an open description: the label that it was drawn at, and the count of its draw from 1 on.
#[derive(Clone, Copy, Debug, PartialEq, Eq, PartialOrd, Ord)]
pub struct Did {
    pub label: Label,
    pub n: u16,
}

/// The number of a user. User 0 has no privilege of its own.
pub type Uid = u32;

/// The number of a group.
pub type Gid = u32;

/// The number of a descriptor in its process, from 0 to 31.
pub type Fd = u32;

/// Supplementary groups.
pub type GroupList = List<Gid>;

/// Permission and set-id bits, within octal 6777.
pub type Mode = u16;

/// Real, effective and saved user and group, and the supplementary groups.
#[derive(Debug)]
pub struct Ids {
    pub ruid: Uid,
    pub euid: Uid,
    pub suid: Uid,
    pub rgid: Gid,
    pub egid: Gid,
    pub sgid: Gid,
    pub groups: GroupList,
}

impl Drop for Ids {
    fn drop(self) {
        let Ids {
            ruid: _,
            euid: _,
            suid: _,
            rgid: _,
            egid: _,
            sgid: _,
            groups: _,
        } = self;
    }
}

impl Ids {
    /// A copy of the users and groups.
    pub fn copy(&self) -> Result<Ids, NoMemory>
        ensures { IfOk result (λ ids. ids ≡ self.now) }
    {
        Ok(Ids {
            ruid: self.ruid,
            euid: self.euid,
            suid: self.suid,
            rgid: self.rgid,
            egid: self.egid,
            sgid: self.sgid,
            groups: self.groups.copy()?,
        })
    }
}
