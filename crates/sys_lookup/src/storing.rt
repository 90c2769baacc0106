// How the objects and entries of the state change.
ghost use Rattle.std.specs.Prelude.{◌≡◌, None, IfOk, OnOk, true, false};
ghost use Rattle.kern_model.specs.Create.{object_addition, has_object_number};
ghost use Rattle.kern_model.specs.Entries.{is_removed};
ghost use Rattle.kern_model.specs.Kinds.{object_with};
ghost use Rattle.kern_model.specs.State.{SetEntry, apply_change, apply_changes, look, next_object};
ghost use Rattle.kern_model.specs.Valid.{IsDir};
ghost use Rattle.fs_dirs.specs.Tree.{MayBeAdded};

use crate::last_name::LastName;
use crate::shared::Shared;
use kern_model::{Attr, Body, NoMemory, Oid};
use lab_lattice::Label;

impl Shared {
    /// Whether a number of an object is left at a label.
    pub fn can_create(&self, label: &Label) -> bool
        ensures { result ≡ has_object_number self.now label.now }
    {
        self.tree.nodes().can_create(label)
    }

    /// Makes an object that has no name yet, under the next number of a label, and returns the number.
    pub fn create(&mut self, label: Label, attr: Attr, body: Body) -> Result<Oid, NoMemory>
        requires { has_object_number self.old label ≡ true }
        ensures id { IfOk result (λ id. id ≡ next_object self.old label) }
        ensures drawn { OnOk result (self.new ≡ apply_changes self.old (object_addition self.old label (object_with label attr body))) }
    {
        self.tree.create_next(label, attr, body)
    }

    /// Has a new name in a directory that is not removed lead to an object.
    pub fn add_entry(&mut self, dir: &Oid, name: &LastName<'_>, id: &Oid) -> Result<(), NoMemory>
        requires dir { IsDir self.old.objects dir.now }
        requires stands { is_removed self.old dir.now ≡ false }
        requires absent { look self.old dir.now name.now ≡ None }
        requires may { MayBeAdded self.old id.now }
        ensures { OnOk result (self.new ≡ apply_change self.old (SetEntry (dir.now, name.now) id.now)) }
    {
        self.tree.add_absent(dir, name.name(), id)
    }
}
