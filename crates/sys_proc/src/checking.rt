// The checks of a caller itself.
ghost use Rattle.std.specs.Prelude.{◌≡◌};
ghost use Rattle.kern_model.specs.Rules.{on_caller};

use kern_model::{Check, CheckName, Pid, Place, Thing};
use lab_lattice::Label;
use sys_lookup::Caller;

/// A check of a caller with a number, given whether its rule holds, and the label that the caller is to get, if any.
pub fn check_of_caller(
    name: CheckName,
    holds: bool,
    new_label: Option<Label>,
    caller: &Caller<'_>,
    who: &Pid,
) -> Check
    ensures { result ≡ on_caller name holds new_label who.now caller.now.process }
{
    Check {
        name,
        holds,
        thing: Thing::Process(*who),
        thing_label: caller.label(),
        new_label,
        place: Place::Caller,
    }
}
