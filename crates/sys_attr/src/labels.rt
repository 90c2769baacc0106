// What is asked of the calls that set the label of an object.
ghost use Rattle.sys_lookup.specs.StepOn.{StepIn};
ghost use Rattle.sys_attr.specs.Objects.{asks_label_at};

use chk_rules::{Checks, Stop, refuse_if};
use kern_model::{Errno, Place};
use lab_lattice::{Label, Lattice};
use sys_lookup::{Caller, Metadata};

/// Asks for a label of an object that the caller owns.
pub fn ask_label(
    caller: &Caller<'_>,
    checks: &mut Checks,
    object: &Metadata,
    label: &Label,
    place: Place,
) -> Result<(), Stop>
    ensures { StepIn caller.now.state checks.old object.now (λ id rest. asks_label_at caller.now label.now id place (rest tt)) result checks.new }
{
    caller.owner(checks, object, place)?;
    if label.equal(&object.label) {
        return Ok(());
    }
    caller.mac_change(checks, object, label, place)?;
    caller.relabelled_order(checks, object, label, place)?;
    refuse_if(caller.has_entries(object), Errno::ENOTEMPTY)
}
