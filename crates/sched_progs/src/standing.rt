// Where processes are in their programs.
ghost use Rattle.std.specs.Prelude.{◌≡◌, OnOk, option_copied};
ghost use Rattle.std.specs.FinMap as map;
ghost use Rattle.std.specs.Option.{option_or};
ghost use Rattle.kern_model.specs.ByNumber.{pid_at};
ghost use Rattle.sched_progs.specs.Standings.{first_standing};
ghost use Rattle.sched_progs.specs.Turns.{is_above, is_of};

use crate::last_reply::LastReply;
use kern_model::{NoMemory, Pid};
use lab_lattice::Label;
use std::alloc::Global;
use std::collections::BTreeMap;
use std::marker::Model;
use std::ops::Bound;

/// Where a process is: its program by the place in the table, the number of the next step, and the last reply.
#[derive(Clone, Copy, Debug)]
pub struct Standing {
    pub program: usize,
    pub place: usize,
    pub last: LastReply,
}

/// Where processes are, by their numbers.
#[derive(Drop)]
pub struct Standings {
    by_number: BTreeMap<Pid, Standing>,
}

impl Model for Standings {
    ghost use Rattle.std.specs.FinMap as map;
    ghost use Rattle.std.specs.Coded.{codes};
    ghost use Rattle.kern_model.specs.Keys.{pid_cmp};
    ghost use Rattle.kern_model.proofs.StateCode.{pid_code};
    ghost use Rattle.sched_progs.specs.Standings.{AreSmall};
    ghost use Rattle.sched_progs.specs.declared.standing.Standing.{Standing};

    ghost Value = { map.FinMap pid_cmp Standing };

    ghost coded = { map.code pid_code (Prim.hlevel codes) };

    ghost view = { λ a. map.from_entries a.by_number.entries };

    ghost invariant = { λ a. AreSmall (map.from_entries a.by_number.entries) };
}

impl Standings {
    /// No process.
    pub fn new(alloc: Global) -> Self
        ensures { result ≡ map.empty }
    {
        Standings {
            by_number: BTreeMap::new(alloc),
        }
    }

    /// Where a process is, if it is there.
    pub fn get(&self, who: &Pid) -> Option<Standing>
        ensures { result ≡ map.get self.now who.now }
    {
        self.by_number.get(who).copied()
    }

    /// Puts a process at a place.
    pub fn set(&mut self, who: &Pid, standing: Standing) -> Result<(), NoMemory>
        ensures { OnOk result (self.new ≡ map.insert self.old who.now standing) }
    {
        self.set_number(who.label, who.n, standing)
    }

    // The same, by the label and the count of the process.
    fn set_number(&mut self, label: Label, n: u16, standing: Standing) -> Result<(), NoMemory>
        ensures { OnOk result (self.new ≡ map.insert self.old (pid_at (label, n)) standing) }
    {
        self.by_number.insert(Pid { label, n }, standing)?;
        Ok(())
    }

    /// Removes a process, if it is there.
    pub fn remove(&mut self, who: &Pid)
        ensures { self.new ≡ map.remove self.old who.now }
    {
        self.by_number.remove(who);
    }

    // The process with the least number of a label that is above another number.
    fn above(&self, label: &Label, n: u16) -> Option<(Pid, Standing)>
        ensures { result ≡ first_standing (is_above label.now n) self.now }
    {
        let start = Pid { label: *label, n };
        let end = Pid {
            label: *label,
            n: u16::MAX,
        };
        let mut range = self
            .by_number
            .range((Bound::Excluded(start), Bound::Included(end)));
        match range.next() {
            Some((who, standing)) => Some((*who, *standing)),
            None => None,
        }
    }

    // The process with the least number of a label.
    fn least(&self, label: &Label) -> Option<(Pid, Standing)>
        ensures { result ≡ first_standing (is_of label.now) self.now }
    {
        let start = Pid {
            label: *label,
            n: 0,
        };
        let end = Pid {
            label: *label,
            n: u16::MAX,
        };
        let mut range = self
            .by_number
            .range((Bound::Included(start), Bound::Included(end)));
        match range.next() {
            Some((who, standing)) => Some((*who, *standing)),
            None => None,
        }
    }

    /// The process with the least number of a label that is above another number, or where there is none above with the least one.
    pub fn next(&self, label: &Label, n: u16) -> Option<(Pid, Standing)>
        ensures { result ≡ option_or (first_standing (is_above label.now n) self.now) (first_standing (is_of label.now) self.now) }
    {
        match self.above(label, n) {
            Some(found) => Some(found),
            None => self.least(label),
        }
    }
}
