// What rows ask of a program that is executed.
ghost use Rattle.kern_model.specs.Row.{Need};
ghost use Rattle.kern_model.specs.Rules.{dac_execute, exec_kind};
ghost use Rattle.kern_model.specs.State.{object_at};
ghost use Rattle.sys_lookup.specs.StepOn.{StepOn};

use crate::caller::{Caller, must_hold};
use crate::shared::Metadata;
use chk_rules::{Checks, Stop, Want};
use kern_model::{CheckName, Place};

impl Caller<'_> {
    /// Checks that an object is a regular file.
    pub fn exec_kind(
        &self,
        checks: &mut Checks,
        object: &Metadata,
        place: Place,
    ) -> Result<(), Stop>
        ensures { StepOn checks.old object.now (λ s id rest. Need (exec_kind id (object_at s id) place) (rest tt)) result checks.new }
    {
        let holds = object.is_file();
        must_hold(checks, CheckName::ExecKind, holds, object, place)
    }

    /// Checks that the mode of a file lets the caller execute it.
    pub fn dac_execute(
        &self,
        checks: &mut Checks,
        object: &Metadata,
        place: Place,
    ) -> Result<(), Stop>
        ensures { StepOn checks.old object.now (λ s id rest. Need (dac_execute self.now.process id (object_at s id) place) (rest tt)) result checks.new }
    {
        let holds = self.mode_lets(object, Want::Execute);
        must_hold(checks, CheckName::DacExecute, holds, object, place)
    }
}
