// The descriptors of each process.
ghost use Rattle.std.specs.Prelude.{◌≡◌, ◌<◌, ◌≤◌, ℕ, None, Some, OnErr, OnOk, is_some, option_copied};
ghost use Rattle.std.specs.FinMap as map;
ghost use Rattle.kern_model.specs.Descriptors.{lowest_free};
ghost use Rattle.kern_model.specs.Valid.{IsThere};
ghost use Rattle.kern_model.specs.declared.limits.TheConstants.{MAX_DESCRIPTORS};
ghost use Rattle.kern_model.specs.declared.numbers.Did.{Did as Number};
ghost use Rattle.fd_table.specs.Fds.{HasFree, fd_count, fds_of};
ghost use Rattle.fd_table.specs.declared.process_fds.TheConstants.{MAX_PROCESSES};

use crate::fd_slots::FdSlots;
use kern_model::limits::MAX_DESCRIPTORS;
use kern_model::{Did, Fd, NoMemory, Pid};
use num_table::Table;
use std::alloc::Global;
use std::marker::Model;

/// Processes, so that all their descriptors can be counted.
pub const MAX_PROCESSES: usize = usize::MAX / MAX_DESCRIPTORS;

/// Processes, and the descriptors of each.
#[derive(Drop)]
pub struct ProcessFds {
    by_process: Table<FdSlots>,
    /// How many processes there are.
    count: usize,
}

impl Model for ProcessFds {
    ghost use Rattle.std.specs.Prelude.{◌≡◌};
    ghost use Rattle.std.specs.FinMap as map;
    ghost use Rattle.std.specs.Coded.{coded_ℕ};
    ghost use Rattle.std.specs.Ordering.{nat_cmp};
    ghost use Rattle.kern_model.specs.ByNumber.{by_pid};
    ghost use Rattle.fd_table.specs.Fds.{AllFds};
    ghost use Rattle.kern_model.proofs.StateCode.{did_code, pid_code};

    ghost Value = { AllFds };

    ghost coded = { map.code pid_code (map.code {R = nat_cmp} coded_ℕ did_code) };

    ghost view = { λ a. by_pid a.by_process };

    ghost invariant = { λ a. a.count ≡ map.len (by_pid a.by_process) };
}

impl ProcessFds {
    ghost use Rattle.std.specs.Borrow.{sem};
    ghost use Rattle.std.specs.Option.{option_copied_mut};
    ghost use Rattle.fd_table.specs.Lending.{LendsFds};

    /// No process.
    pub fn new(alloc: Global) -> Self
        ensures { result ≡ map.empty }
    {
        ProcessFds {
            by_process: Table::new(alloc),
            count: 0,
        }
    }

    /// Adds a process that is not there, with its descriptors.
    pub fn add(&mut self, who: &Pid, slots: FdSlots) -> Result<(), NoMemory>
        requires { map.get self.old who.now ≡ None }
        ensures ok { OnOk result (self.new ≡ map.insert self.old who.now slots) }
        ensures few { OnOk result (map.len self.old < MAX_PROCESSES) }
        ensures err { OnErr result (self.new ≡ self.old) }
    {
        if self.count >= MAX_PROCESSES {
            return Err(NoMemory);
        }
        self.by_process.set_at(who, slots)?;
        self.count += 1;
        Ok(())
    }

    /// Whether a process is there.
    pub fn has(&self, who: &Pid) -> bool
        ensures { result ≡ is_some (map.get self.now who.now) }
    {
        self.slots(who).is_some()
    }

    /// The descriptors of a process.
    pub fn copy(&self, who: &Pid) -> FdSlots
        ensures { result ≡ fds_of self.now who.now }
    {
        match self.slots(who) {
            Some(slots) => slots.copy(),
            None => FdSlots::new(),
        }
    }

    // The descriptors of a process, if it is there.
    #[inline(always)]
    fn slots(&self, who: &Pid) -> Option<&FdSlots>
        ensures { option_copied result ≡ map.get self.now who.now }
    {
        self.by_process.get_at(who)
    }

    // The same, for changes to it. It takes no memory.
    fn slots_mut(&mut self, who: &Pid) -> Option<&mut FdSlots>
        ensures* writes_back { sem 𝓛 (LendsFds self.entry who.now result) }
        ensures value { option_copied_mut result ≡ map.get self.old who.now }
    {
        match self.by_process.get_mut_at(who) {
            Some(slots) => Some(slots),
            None => None,
        }
    }

    /// Removes a process, if it is there, and returns its descriptors. It takes no memory.
    pub fn remove(&mut self, who: &Pid) -> Option<FdSlots>
        ensures removed { result ≡ map.get self.old who.now }
        ensures left { self.new ≡ map.remove self.old who.now }
    {
        let slots = self.by_process.remove_at(who)?;
        self.count -= 1;
        Some(slots)
    }

    /// The description to which a descriptor refers, if it is open.
    pub fn did(&self, who: &Pid, fd: Fd) -> Option<Did>
        ensures did { result ≡ map.get (fds_of self.now who.now) fd }
        ensures below { (did : Number) → result ≡ Some did → fd < MAX_DESCRIPTORS }
    {
        match self.slots(who) {
            Some(slots) => slots.get(fd),
            None => None,
        }
    }

    /// How many descriptors a process has.
    pub fn count(&self, who: &Pid) -> usize
        ensures count { result ≡ fd_count (fds_of self.now who.now) }
        ensures few { result ≤ MAX_DESCRIPTORS }
    {
        match self.slots(who) {
            Some(slots) => slots.len(),
            None => 0,
        }
    }

    /// The lowest descriptor of a process that is free.
    pub fn lowest(&self, who: &Pid) -> Fd
        requires { HasFree (fds_of self.now who.now) }
        ensures lowest { result ≡ lowest_free (fds_of self.now who.now) }
        ensures below { result < MAX_DESCRIPTORS }
        ensures free { map.get (fds_of self.now who.now) result ≡ None }
    {
        match self.slots(who) {
            Some(slots) => slots.lowest(),
            None => 0,
        }
    }

    /// Has a descriptor of a process refer to a description. It takes no memory.
    pub fn set(&mut self, who: &Pid, fd: Fd, did: Did)
        requires process { IsThere self.old who.now }
        requires below { fd < MAX_DESCRIPTORS }
        ensures { self.new ≡ map.insert self.old who.now (map.insert (fds_of self.old who.now) fd did) }
    {
        let Some(slots) = self.slots_mut(who) else {
            unreachable!();
        };
        slots.set(fd, did);
    }

    /// Frees a descriptor of a process. It takes no memory.
    pub fn free(&mut self, who: &Pid, fd: Fd)
        requires process { IsThere self.old who.now }
        requires below { fd < MAX_DESCRIPTORS }
        ensures { self.new ≡ map.insert self.old who.now (map.remove (fds_of self.old who.now) fd) }
    {
        let Some(slots) = self.slots_mut(who) else {
            unreachable!();
        };
        slots.remove(fd);
    }
}
