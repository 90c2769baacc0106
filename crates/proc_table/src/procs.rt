// The processes.
ghost use Rattle.std.specs.Prelude.{◌≡◌, ◌↔◌, ◌≤◌, None, Err, IfOk, OnErr, OnOk, drop, option_copied, option_map};
ghost use Rattle.std.specs.FinMap as map;
ghost use Rattle.kern_model.specs.ProcessRows.{child_of};
ghost use Rattle.kern_model.specs.State.{last_drawn};
ghost use Rattle.kern_model.specs.Valid.{IsThere};
ghost use Rattle.kern_model.specs.declared.limits.TheConstants.{MAX_PROCS};
ghost use Rattle.kern_model.specs.Maps.{IfPresent};
ghost use Rattle.proc_table.specs.Procs.{creds_of, ended_by, has_living_child, next_in, no_procs, wait_result, new_process, with_new, with_process};

use crate::process::Proc;
use crate::table::Table;
use kern_model::{Ending, NoMemory, Oid, Pid, PidList};
use proc_creds::Creds;
use std::alloc::Global;
use std::marker::Model;

/// Why no process is made.
#[derive(Clone, Copy, Debug, PartialEq, Eq)]
pub enum ProcError {
    /// All numbers of the label are drawn.
    Full,
    NoMemory(NoMemory),
}

/// Why no child is reaped.
#[derive(Clone, Copy, Debug, PartialEq, Eq)]
pub enum ReapError {
    /// The process has no child, living or ended.
    NoChild,
    /// No child has ended.
    NoneEnded,
}

impl From<NoMemory> for ProcError {
    ghost use Rattle.std.specs.Prelude.{◌≡◌};
    ghost use Rattle.proc_table.specs.declared.procs.ProcError.TheVariants as error;

    ghost from_gives = { λ e n. n ≡ error.NoMemory e };

    fn from(e: NoMemory) -> Self {
        ProcError::NoMemory(e)
    }
}

/// The living processes by their numbers, and the last number drawn of each label.
#[derive(Drop)]
pub struct Procs {
    alloc: Global,
    table: Table,
}

impl Model for Procs {
    ghost use Rattle.lab_lattice.specs.Label.{label_code};
    ghost use Rattle.proc_table.specs.Children.{IsKept};
    ghost use Rattle.proc_table.specs.Procs.{AreDrawn, ProcTable, table_code};
    ghost use Rattle.kern_model.proofs.StateCode.{pid_code, process_code};

    ghost Value = { ProcTable };

    ghost coded = { table_code pid_code process_code label_code };

    ghost view = { λ p. record { procs = p.table.living; numbers = p.table.numbers } };

    ghost invariant = { λ p. AreDrawn p.table.living p.table.numbers × IsKept p.table.living p.table.children p.table.made };
}

impl Procs {
    ghost use Rattle.std.specs.Borrow.{sem};
    ghost use Rattle.std.specs.Option.{option_copied_mut};
    ghost use Rattle.proc_table.specs.Lending.{LendsCredsOf};

    /// No process, and no number drawn.
    pub fn new(alloc: Global) -> Self
        ensures { result ≡ no_procs }
    {
        Procs {
            alloc,
            table: Table::new(alloc),
        }
    }

    /// Starts a process in a directory, under the next number of its label, and returns the number. Its switch is on, and it
    /// has no parent.
    pub fn boot(&mut self, creds: Creds, cwd: Oid) -> Result<Pid, ProcError>
        ensures who { IfOk result (λ who. who ≡ next_in self.old creds.label) }
        ensures fresh { map.get self.old.procs (next_in self.old creds.label) ≡ None }
        ensures made { OnOk result (self.new ≡ with_new self.old (new_process creds cwd)) }
        ensures full { (result ≡ Err ProcError.Full) ↔ (MAX_PROCS ≤ last_drawn self.old.numbers creds.label) }
        ensures err { OnErr result (self.new ≡ self.old) }
    {
        let who = self.table.next(&creds.label).ok_or(ProcError::Full)?;
        let process = Proc::start(self.alloc, &who, creds, cwd)?;
        self.table.enter(&who, process)?;
        Ok(who)
    }

    /// Makes a child of a living process, under the next number of its present label, and returns the number. The child is
    /// like the process, but has it as its parent and no child of its own.
    pub fn fork(&mut self, parent: &Pid) -> Result<Pid, ProcError>
        requires { IsThere self.old.procs parent.now }
        ensures who { IfPresent self.old.procs parent.now (λ p. IfOk result (λ who. who ≡ next_in self.old p.label)) }
        ensures made { IfPresent self.old.procs parent.now (λ p. OnOk result (self.new ≡ with_new self.old (child_of parent.now p))) }
        ensures full { IfPresent self.old.procs parent.now (λ p. (result ≡ Err ProcError.Full) ↔ (MAX_PROCS ≤ last_drawn self.old.numbers p.label)) }
        ensures err { OnErr result (self.new ≡ self.old) }
    {
        let label = self.table.living.label(parent);
        let who = self.table.next(&label).ok_or(ProcError::Full)?;
        let child = self.table.living.child(self.alloc, parent, &who)?;
        self.table.enter(&who, child)?;
        Ok(who)
    }

    /// Takes the child of a living process that ended first off its list, and returns it with its ending. It takes no memory.
    pub fn reap(&mut self, who: &Pid) -> Result<(Pid, Ending), ReapError>
        requires { IsThere self.old.procs who.now }
        ensures answer { IfPresent self.old.procs who.now (λ p. result ≡ wait_result p.ended (has_living_child self.old.procs who.now)) }
        ensures taken { IfPresent self.old.procs who.now (λ p. OnOk result (self.new ≡ with_process self.old who.now (record p { ended = drop 1 p.ended }))) }
        ensures err { OnErr result (self.new ≡ self.old) }
    {
        if let Some(first) = self.table.living.take_ended(who) {
            return Ok(first);
        }
        match self.table.children.first(who) {
            Some(_) => Err(ReapError::NoneEnded),
            None => Err(ReapError::NoChild),
        }
    }

    /// Ends a living process: it goes, its living children lose their parent, and its parent, if it is living, learns how it
    /// ended. It takes no memory.
    pub fn finish(&mut self, who: &Pid, ending: Ending)
        requires { IsThere self.old.procs who.now }
        ensures { IfPresent self.old.procs who.now (λ p. self.new ≡ record self.old { procs = ended_by self.old.procs who.now p ending }) }
    {
        self.table.finish(who, ending);
    }

    /// The living process with a number, if there is one.
    pub fn find(&self, who: &Pid) -> Option<&Proc>
        ensures { option_copied result ≡ map.get self.now.procs who.now }
    {
        self.table.living.get(who)
    }

    /// The credentials of the living process with a number, for changes to them, if there is one. It takes no memory.
    pub fn creds_mut(&mut self, who: &Pid) -> Option<&mut Creds>
        ensures* writes_back { sem 𝓛 (LendsCredsOf self.entry who.now result) }
        ensures value { option_copied_mut result ≡ option_map creds_of (map.get self.old.procs who.now) }
    {
        self.table.living.creds_mut(who)
    }

    /// Sets the current directory of a living process. It takes no memory.
    pub fn set_cwd(&mut self, who: &Pid, cwd: Oid)
        requires { IsThere self.old.procs who.now }
        ensures { IfPresent self.old.procs who.now (λ p. self.new ≡ with_process self.old who.now (record p { cwd = cwd })) }
    {
        let Some(process) = self.table.living.get_mut(who) else {
            unreachable!();
        };
        process.cwd = cwd;
    }

    /// Sets the audit switch of a living process. It takes no memory.
    pub fn set_audited(&mut self, who: &Pid, on: bool)
        requires { IsThere self.old.procs who.now }
        ensures { IfPresent self.old.procs who.now (λ p. self.new ≡ with_process self.old who.now (record p { audited = on })) }
    {
        let Some(process) = self.table.living.get_mut(who) else {
            unreachable!();
        };
        process.audited = on;
    }

    /// The numbers of the living processes, by label and then by number.
    pub fn live(&self) -> Result<PidList, NoMemory>
        ensures { IfOk result (λ numbers. numbers ≡ map.keys self.now.procs) }
    {
        self.table.living.numbers(self.alloc)
    }
}
