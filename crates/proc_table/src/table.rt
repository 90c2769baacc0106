// The living processes, and which numbers are drawn.
ghost use Rattle.std.specs.Prelude.{◌≡◌, [], None, OnErr, OnOk};
ghost use Rattle.std.specs.FinMap as map;
ghost use Rattle.kern_model.specs.Valid.{IsThere};
ghost use Rattle.proc_table.specs.Children.{IsKept};
ghost use Rattle.kern_model.specs.Maps.{IfPresent};
ghost use Rattle.proc_table.specs.Procs.{IsNextIn, all_without_parent, ended_by, without_ended};

use crate::children::Children;
use crate::living::Living;
use crate::process::Proc;
use kern_model::limits::MAX_PROCS;
use kern_model::{Ending, NoMemory, Numbers, Pid};
use lab_lattice::Label;
use std::alloc::Global;

/// Processes that are made, so that each list of ended children can be counted.
pub const MAX_MADE: usize = isize::MAX as usize;

/// The living processes, and the last number drawn of each label.
pub struct Table {
    pub living: Living,
    pub numbers: Numbers,
    pub children: Children,
    /// How many processes were made.
    pub made: usize,
}

impl Drop for Table {
    fn drop(self) {
        let Table {
            living: _,
            numbers: _,
            children: _,
            made: _,
        } = self;
    }
}

impl Table {
    /// The table of no process.
    pub fn new(alloc: Global) -> Self
        ensures living { result.living ≡ map.empty }
        ensures numbers { result.numbers ≡ map.empty }
        ensures kept { IsKept result.living result.children result.made }
    {
        Table {
            living: Living::new(alloc),
            numbers: Numbers::new(alloc),
            children: Children::new(alloc),
            made: 0,
        }
    }

    /// The number of the next process at a label, or `None` where all are drawn.
    pub fn next(&self, label: &Label) -> Option<Pid>
        ensures { IsNextIn self.now.numbers label.now result }
    {
        let last = self.numbers.last(label);
        if last as usize >= MAX_PROCS {
            return None;
        }
        let n = last + 1;
        Some(Pid { label: *label, n })
    }

    /// Enters a new process, whose number is the last one drawn from then on.
    pub fn enter(&mut self, who: &Pid, process: Proc) -> Result<(), NoMemory>
        requires absent { map.get self.old.living who.now ≡ None }
        requires childless { process.ended ≡ [] }
        requires kept { IsKept self.old.living self.old.children self.old.made }
        ensures living { OnOk result (self.new.living ≡ map.insert self.old.living who.now process) }
        ensures numbers { OnOk result (self.new.numbers ≡ map.insert self.old.numbers who.now.label who.now.n) }
        ensures err { OnErr result ((self.new.living ≡ self.old.living) × (self.new.numbers ≡ self.old.numbers)) }
        ensures kept { IsKept self.new.living self.new.children self.new.made }
    {
        if self.made >= MAX_MADE {
            return Err(NoMemory);
        }
        let parent = process.parent();
        self.children.add(&parent, who)?;
        if let Err(e) = self.draw(who, process) {
            self.children.remove(who);
            return Err(e);
        }
        self.made += 1;
        Ok(())
    }

    /// Ends a living process: it goes, its living children lose their parent, and its parent, if it is living, learns how it
    /// ended. It takes no memory.
    pub fn finish(&mut self, who: &Pid, ending: Ending)
        requires there { IsThere self.old.living who.now }
        requires kept { IsKept self.old.living self.old.children self.old.made }
        ensures living { IfPresent self.old.living who.now (λ p. self.new.living ≡ ended_by self.old.living who.now p ending) }
        ensures numbers { self.new.numbers ≡ self.old.numbers }
        ensures kept { IsKept self.new.living self.new.children self.new.made }
    {
        self.end(who, ending);
        self.leave_children(who);
    }

    // Takes a living process out, and tells its parent, if it is living, how it ended.
    fn end(&mut self, who: &Pid, ending: Ending)
        requires there { IsThere self.old.living who.now }
        requires kept { IsKept self.old.living self.old.children self.old.made }
        ensures living { IfPresent self.old.living who.now (λ p. self.new.living ≡ without_ended self.old.living who.now p ending) }
        ensures numbers { self.new.numbers ≡ self.old.numbers }
        ensures kept { IsKept self.new.living self.new.children self.new.made }
    {
        let Some(process) = self.living.remove(who) else {
            unreachable!();
        };
        let Proc { parent, place, .. } = process;
        self.children.remove(who);
        if let Some(parent) = parent {
            self.living.add_ended(&parent, place, who, ending);
        }
    }

    // Leaves the living children of a process without a parent.
    fn leave_children(&mut self, who: &Pid)
        requires { IsKept self.old.living self.old.children self.old.made }
        ensures living { self.new.living ≡ all_without_parent who.now self.old.living }
        ensures numbers { self.new.numbers ≡ self.old.numbers }
        ensures kept { IsKept self.new.living self.new.children self.new.made }
    {
        while let Some(child) = self.children.first(who) {
            self.children.remove(&child);
            self.living.orphan(&child);
        }
    }

    // Adds a process under a number that it draws.
    fn draw(&mut self, who: &Pid, process: Proc) -> Result<(), NoMemory>
        requires { map.get self.old.living who.now ≡ None }
        ensures living { OnOk result (self.new.living ≡ map.insert self.old.living who.now process) }
        ensures numbers { OnOk result (self.new.numbers ≡ map.insert self.old.numbers who.now.label who.now.n) }
        ensures children { self.new.children ≡ self.old.children }
        ensures made { self.new.made ≡ self.old.made }
        ensures err { OnErr result ((self.new.living ≡ self.old.living) × (self.new.numbers ≡ self.old.numbers)) }
    {
        self.living.set(*who, process)?;
        if let Err(e) = self.numbers.set(who.label, who.n) {
            self.living.remove(who);
            return Err(e);
        }
        Ok(())
    }
}
