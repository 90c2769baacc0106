// What rows ask of an object that gets another label.
ghost use Rattle.std.specs.Prelude.{◌≡◌, ◌&&◌, Some, false, not};
ghost use Rattle.kern_model.specs.declared.numbers.Oid.{Oid};
ghost use Rattle.kern_model.specs.Entries.{has_entries};
ghost use Rattle.kern_model.specs.Rules.{is_above_holders, mac_change_of, relabelled_order};
ghost use Rattle.kern_model.specs.State.{object_at, root};
ghost use Rattle.kern_model.specs.Keys.{same_oid};
ghost use Rattle.sys_lookup.specs.StepOn.{IsCheckOn, StepIn, StepOn, one_check};
ghost use Rattle.sys_lookup.specs.Shared.{check_on, metadata_of};

use crate::caller::{Caller, check_of, must_hold};
use crate::shared::Metadata;
use chk_rules::{Checks, Stop, must};
use fs_dirs::root_directory;
use kern_model::{Check, CheckName, Place};
use lab_lattice::{Label, Lattice};

// The check that an object gets this label: never without the capability.
fn change_to(name: CheckName, label: &Label, object: &Metadata, place: Place) -> Check
    ensures { result ≡ check_on name false (Some label.now) object.now place }
{
    Check {
        new_label: Some(*label),
        ..check_of(name, false, object, place)
    }
}

// The check that an object gets this label: one for the way up, and one for all others.
fn change_of(label: &Label, object: &Metadata, place: Place) -> Check
    ensures { IsCheckOn object.now (λ s id. mac_change_of label.now id (object_at s id) place) result }
{
    if label.dominates(&object.label) {
        change_to(CheckName::MacUpgrade, label, object, place)
    } else {
        change_to(CheckName::MacDowngrade, label, object, place)
    }
}

impl Caller<'_> {
    /// Checks that the caller may give an object a label that is another one: never without the capability, which is one for a
    /// label that dominates the object's, and another one for all others.
    pub fn mac_change(
        &self,
        checks: &mut Checks,
        object: &Metadata,
        label: &Label,
        place: Place,
    ) -> Result<(), Stop>
        ensures { StepOn checks.old object.now (λ s id. one_check (mac_change_of label.now id (object_at s id) place)) result checks.new }
    {
        must(checks, &change_of(label, object, place))
    }

    /// Checks that the order of labels holds where an object gets this label: it dominates those of all directories that hold the
    /// object, which is not the root.
    pub fn relabelled_order(
        &self,
        checks: &mut Checks,
        object: &Metadata,
        label: &Label,
        place: Place,
    ) -> Result<(), Stop>
        ensures { StepIn self.now.state checks.old object.now (λ id. one_check (relabelled_order self.now.state id label.now place)) result checks.new }
    {
        let holds = self.may_bear(object, label);
        must_hold(checks, CheckName::LabelOrder, holds, object, place)
    }

    /// Whether an object is a directory that contains entries.
    pub fn has_entries(&self, object: &Metadata) -> bool
        ensures { (id : Oid) → object.now ≡ metadata_of self.now.state id → result ≡ has_entries self.now.state id }
    {
        object.is_directory() && !self.is_empty(&object.id)
    }

    // Whether a label dominates those of all directories that hold an object, which is not the root.
    fn may_bear(&self, object: &Metadata, label: &Label) -> bool
        ensures { result ≡ (is_above_holders self.now.state object.now.id label.now && not (same_oid object.now.id root)) }
    {
        self.is_above_holders(&object.id, label) && !object.id.is_same(&root_directory())
    }
}
