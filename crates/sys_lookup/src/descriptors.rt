// What the descriptors of the caller refer to, and whether it may open more.
ghost use Rattle.std.specs.Prelude.{◌≡◌, Some, IfErr, IfOk, OnOk, true};
ghost use Rattle.kern_model.specs.Descriptors.{open_description};
ghost use Rattle.kern_model.specs.FileRows.{has_descriptions, has_free_descriptors, may_describe, on_descriptor};
ghost use Rattle.kern_model.specs.declared.calls.Errno.TheVariants as errno;
ghost use Rattle.chk_rules.specs.CheckLog.{CheckLog};
ghost use Rattle.chk_rules.specs.declared.stop.Stop.TheVariants as stop;
ghost use Rattle.chk_rules.specs.RowSteps.{GoesOn};

use crate::caller::Caller;
use chk_rules::Stop;
use fd_table::{FdError, Opened};
use kern_model::{Errno, Fd};

impl Caller<'_> {
    /// What a descriptor of the caller refers to, or a refusal where it is not open.
    #[tactic(auto, unfolding(kern_model::specs::Row::judge, chk_rules::specs::RowSteps::EndsBy, kern_model::specs::Descriptors::open_description))]
    pub fn opened(&self, fd: Fd) -> Result<Opened, Stop>
        ensures step { (log : CheckLog) → GoesOn log (on_descriptor self.now.state self.now.process fd) result log }
        ensures found { IfOk result (λ f. open_description self.now.state self.now.process fd ≡ Some f) }
        ensures refused { IfErr result (λ how. how ≡ stop.Refused errno.EBADF) }
    {
        let shared = self.shared;
        match shared.fds.opened(&self.who, fd) {
            Some(opened) => Ok(opened),
            None => Err(Stop::Refused(Errno::EBADF)),
        }
    }

    /// Refuses where fewer than `n` descriptors of the caller are free, or fewer than `n` numbers of descriptions are left at its
    /// label.
    #[tactic(auto, unfolding(kern_model::specs::Row::judge, chk_rules::specs::RowSteps::EndsBy))]
    pub fn may_open(&self, n: u32) -> Result<(), Stop>
        ensures step { (log : CheckLog) → GoesOn log (λ rest. may_describe self.now.state self.now.process n (rest tt)) result log }
        ensures free { OnOk result (has_free_descriptors self.now.process n ≡ true) }
        ensures left { OnOk result (has_descriptions self.now.state self.now.process n ≡ true) }
    {
        let shared = self.shared;
        match shared.fds.open_refusal(&self.who, &self.label(), n) {
            None => Ok(()),
            Some(FdError::TooMany) => Err(Stop::Refused(Errno::EMFILE)),
            Some(FdError::Full) => Err(Stop::Refused(Errno::ENFILE)),
            Some(FdError::NotOpen | FdError::PastEnd | FdError::NoMemory(_)) => unreachable!(),
        }
    }
}
