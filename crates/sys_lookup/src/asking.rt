// Checks that a call makes only where they are asked for.
ghost use Rattle.kern_model.specs.Row.{need_if};
ghost use Rattle.chk_rules.specs.RowSteps.{GoesOn};

use chk_rules::{Checks, Stop, must};
use kern_model::Check;

/// Makes a check that has to let the call go on, where it is asked for.
pub fn must_if(asked: bool, checks: &mut Checks, check: &Check) -> Result<(), Stop>
    ensures { GoesOn checks.old (λ rest. need_if asked check.now (rest tt)) result checks.new }
{
    if asked { must(checks, check) } else { Ok(()) }
}
