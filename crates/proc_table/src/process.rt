// One living process.
ghost use Rattle.std.specs.Prelude.{◌≡◌, IfOk};
ghost use Rattle.kern_model.specs.ProcessRows.{child_of};
ghost use Rattle.proc_table.specs.Procs.{new_process};

use crate::ended::{EndedList, Place};
use kern_model::{NoMemory, Oid, Pid};
use proc_creds::Creds;
use std::alloc::Global;
use std::marker::Model;

/// A living process. It has no open descriptor.
#[derive(Debug, Drop)]
pub struct Proc {
    pub creds: Creds,
    /// The current directory.
    pub cwd: Oid,
    pub parent: Option<Pid>,
    /// The audit switch: whether a denial leaves a record.
    pub audited: bool,
    /// The children that ended and were not awaited.
    pub(crate) ended: EndedList,
    /// The place that the process takes in its parent's list when it ends.
    pub(crate) place: Place,
}

impl Model for Proc {
    ghost use Rattle.std.specs.FinMap as map;
    ghost use Rattle.kern_model.specs.State.{Process};
    ghost use Rattle.kern_model.proofs.StateCode.{process_code};

    ghost Value = { Process };

    ghost coded = { process_code };

    ghost view = { λ p. record { ids = p.creds.ids; label = p.creds.label; caps = p.creds.caps; umask = p.creds.umask; cwd = p.cwd; audited = p.audited; parent = p.parent; ended = p.ended; fds = map.empty } };
}

impl Proc {
    /// A process that starts, with its number.
    pub(crate) fn start(alloc: Global, who: &Pid, creds: Creds, cwd: Oid) -> Result<Proc, NoMemory>
        ensures { IfOk result (λ process. process ≡ new_process creds cwd) }
    {
        Ok(Proc {
            creds,
            cwd,
            parent: None,
            audited: true,
            ended: EndedList::new(alloc),
            place: Place::new(alloc, *who)?,
        })
    }

    /// The parent, if there is one.
    pub(crate) fn parent(&self) -> Option<Pid>
        ensures { result ≡ self.now.parent }
    {
        self.parent
    }

    /// A child of this process, with the numbers of both.
    pub(crate) fn child(&self, alloc: Global, parent: &Pid, who: &Pid) -> Result<Proc, NoMemory>
        ensures { IfOk result (λ child. child ≡ child_of parent.now self.now) }
    {
        Ok(Proc {
            creds: self.creds.copy()?,
            cwd: self.cwd,
            parent: Some(*parent),
            audited: self.audited,
            ended: EndedList::new(alloc),
            place: Place::new(alloc, *who)?,
        })
    }
}
