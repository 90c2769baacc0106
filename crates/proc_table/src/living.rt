// Living processes by their numbers.
ghost use Rattle.std.specs.Prelude.{◌≡◌, ◌+◌, ◌<◌, ◌^◌, length, IfOk, OnErr, OnOk, option_copied, option_map};
ghost use Rattle.std.specs.FinMap as map;
ghost use Rattle.kern_model.specs.ProcessRows.{child_of};
ghost use Rattle.kern_model.specs.Valid.{IsThere};
ghost use Rattle.kern_model.specs.Maps.{IfPresent};
ghost use Rattle.proc_table.specs.Procs.{TakesEnded, change_process, with_ended, without_parent};

use crate::ended::Place;
use crate::process::Proc;
use kern_model::{Ending, NoMemory, Pid, PidList};
use lab_lattice::Label;
use num_table::Table;
use proc_creds::Creds;
use std::alloc::Global;
use std::marker::Model;

/// Living processes by their numbers.
#[derive(Drop)]
pub struct Living {
    by_number: Table<Proc>,
}

impl Model for Living {
    ghost use Rattle.std.specs.FinMap as map;
    ghost use Rattle.kern_model.specs.Keys.{pid_cmp};
    ghost use Rattle.kern_model.specs.State.{Process};
    ghost use Rattle.kern_model.specs.ByNumber.{by_pid};
    ghost use Rattle.kern_model.proofs.StateCode.{pid_code, process_code};

    ghost Value = { map.FinMap pid_cmp Process };

    ghost coded = { map.code pid_code process_code };

    ghost view = { λ a. by_pid a.by_number };
}

impl Living {
    ghost use Rattle.std.specs.Borrow.{sem};
    ghost use Rattle.std.specs.Option.{option_copied_mut};
    ghost use Rattle.proc_table.specs.Procs.{creds_of};
    ghost use Rattle.proc_table.specs.Lending.{LendsCreds, LendsProcess};

    /// The empty table.
    pub fn new(alloc: Global) -> Self
        ensures { result ≡ map.empty }
    {
        Living {
            by_number: Table::new(alloc),
        }
    }

    /// The process with a number, if there is one.
    pub fn get(&self, who: &Pid) -> Option<&Proc>
        ensures { option_copied result ≡ map.get self.now who.now }
    {
        self.by_number.get_at(who)
    }

    /// The process with a number, for changes to it, if there is one.
    pub fn get_mut(&mut self, who: &Pid) -> Option<&mut Proc>
        ensures* writes_back { sem 𝓛 (LendsProcess self.entry who.now result) }
        ensures value { option_copied_mut result ≡ map.get self.old who.now }
    {
        self.by_number.get_mut_at(who)
    }

    /// The credentials of the process with a number, for changes to them, if there is one.
    pub fn creds_mut(&mut self, who: &Pid) -> Option<&mut Creds>
        ensures* writes_back { sem 𝓛 (LendsCreds self.entry who.now result) }
        ensures value { option_copied_mut result ≡ option_map creds_of (map.get self.old who.now) }
    {
        match self.get_mut(who) {
            Some(process) => Some(&mut process.creds),
            None => None,
        }
    }

    /// The present label of a living process.
    pub fn label(&self, who: &Pid) -> Label
        requires { IsThere self.now who.now }
        ensures { IfPresent self.now who.now (λ p. result ≡ p.label) }
    {
        let Some(process) = self.get(who) else {
            unreachable!();
        };
        process.creds.label
    }

    /// A child of a living process, with the numbers of both.
    pub fn child(&self, alloc: Global, parent: &Pid, who: &Pid) -> Result<Proc, NoMemory>
        requires { IsThere self.now parent.now }
        ensures { IfPresent self.now parent.now (λ p. IfOk result (λ child. child ≡ child_of parent.now p)) }
    {
        let Some(process) = self.get(parent) else {
            unreachable!();
        };
        process.child(alloc, parent, who)
    }

    /// Takes the child that ended first off the list of a living process, if there is one. It takes no memory.
    pub fn take_ended(&mut self, who: &Pid) -> Option<(Pid, Ending)>
        requires { IsThere self.old who.now }
        ensures { IfPresent self.old who.now (λ p. TakesEnded self.old self.new who.now p result) }
    {
        let Some(process) = self.get_mut(who) else {
            unreachable!();
        };
        process.ended.take_first()
    }

    /// Appends a child that ended to the list of a process, if there is one with the number. It takes no memory.
    pub fn add_ended(&mut self, who: &Pid, place: Place, child: &Pid, ending: Ending)
        requires { IfPresent self.old who.now (λ p. length p.ended + 1 < 2 ^ 63) }
        ensures { self.new ≡ change_process self.old who.now (with_ended child.now ending) }
    {
        if let Some(process) = self.get_mut(who) {
            process.ended.add(place, *child, ending);
        }
    }

    /// Leaves a process, if there is one with the number, without a parent. It takes no memory.
    pub fn orphan(&mut self, who: &Pid)
        ensures { self.new ≡ change_process self.old who.now without_parent }
    {
        if let Some(process) = self.get_mut(who) {
            process.parent = None;
        }
    }

    /// Puts a process in place of what was there.
    pub fn set(&mut self, who: Pid, process: Proc) -> Result<(), NoMemory>
        ensures ok { OnOk result (self.new ≡ map.insert self.old who process) }
        ensures err { OnErr result (self.new ≡ self.old) }
    {
        self.by_number.set_at(&who, process)
    }

    /// Removes the process with a number, if there is one, and returns it. It takes no memory.
    pub fn remove(&mut self, who: &Pid) -> Option<Proc>
        ensures removed { result ≡ map.get self.old who.now }
        ensures left { self.new ≡ map.remove self.old who.now }
    {
        self.by_number.remove_at(who)
    }

    /// The numbers of the processes, in order.
    pub fn numbers(&self, alloc: Global) -> Result<PidList, NoMemory>
        ensures { IfOk result (λ numbers. numbers ≡ map.keys self.now) }
    {
        let mut numbers = PidList::new(alloc);
        for (label, n) in self.by_number.numbers(alloc)? {
            numbers.push(Pid { label, n })?;
        }
        Ok(numbers)
    }
}
