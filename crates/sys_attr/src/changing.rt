// What the calls change.
ghost use Rattle.std.specs.Prelude.{◌≡◌, IsSome};
ghost use Rattle.std.specs.FinMap as map;
ghost use Rattle.kern_model.specs.AttrRows.{with_attr, with_label};
ghost use Rattle.kern_model.specs.State.{SetProcess, apply_change, object_at, process_at};
ghost use Rattle.kern_model.specs.Valid.{IsThere};

use kern_model::{Attr, Mode, Oid, Pid};
use lab_lattice::Label;
use sys_lookup::Shared;

/// Gives an object that is there other attributes.
pub fn give_attr(shared: &mut Shared, id: &Oid, attr: Attr)
    requires { IsThere shared.old.objects id.now }
    ensures { shared.new ≡ apply_change shared.old (with_attr id.now (object_at shared.old id.now) attr) }
{
    shared.tree.set_attr(id, attr);
}

/// Gives an object that is there another label.
pub fn give_label(shared: &mut Shared, id: &Oid, label: Label)
    requires { IsThere shared.old.objects id.now }
    ensures { shared.new ≡ apply_change shared.old (with_label id.now (object_at shared.old id.now) label) }
{
    shared.tree.set_label(id, label);
}

/// Gives a living process other bits that its new objects do not get, and returns the old ones. No memory is taken.
pub fn give_umask(shared: &mut Shared, who: &Pid, mode: Mode) -> Mode
    requires { IsSome (map.get shared.old.procs who.now) }
    ensures bits { result ≡ (process_at shared.old who.now).umask }
    ensures changed { shared.new ≡ apply_change shared.old (SetProcess who.now (record (process_at shared.old who.now) { umask = mode })) }
{
    let Some(creds) = shared.procs.creds_mut(who) else {
        unreachable!();
    };
    let old = creds.umask;
    creds.umask = mode;
    old
}
