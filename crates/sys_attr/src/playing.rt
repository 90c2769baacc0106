// The calls on modes, owners, the umask, capability sets of files, and labels of objects, as one.
ghost use Rattle.std.specs.Prelude.{◌≡◌, IsSome, true};
ghost use Rattle.std.specs.FinMap as map;
ghost use Rattle.kern_model.specs.Arguments.{has_names};
ghost use Rattle.kern_model.specs.Valid.{IsValid};
ghost use Rattle.kern_model.specs.Table.{row};
ghost use Rattle.sys_lookup.specs.PlaysRow.{LeavesNothingOf, PlaysCall};
ghost use Rattle.sys_attr.specs.Playing.{is_attr_call};

use crate::fields::{Field, Setting, get_field, set_field};
use crate::modes::{chmod, umask};
use crate::objects::ObjectArgument::{Descriptor, Path};
use crate::owners::chown;
use chk_rules::Checks;
use kern_model::{Call, Pid};
use sys_lookup::{CallResult, Ownership, Shared};

/// Plays a call of a living process on modes, owners, the umask, capability sets of files, or labels of objects.
#[inline(never)]
#[tactic(auto, unfolding(kern_model::specs::Arguments::has_names))]
pub fn play(shared: &mut Shared, checks: &mut Checks, who: &Pid, call: &Call) -> CallResult
    requires call { is_attr_call call.now ≡ true }
    requires valid { ∥ IsValid shared.old ∥₁ }
    requires living { IsSome (map.get shared.old.procs who.now) }
    ensures played { PlaysCall shared.old who.now checks.old (λ s who p. row s who p call.now) result shared.new checks.new }
    ensures names { has_names call.now ≡ true }
    ensures nothing { LeavesNothingOf call.now result }
{
    match call {
        Call::Chmod(path, mode) => chmod(shared, checks, who, path, *mode),
        Call::Chown(path, owner, group) => {
            let (owner, group) = (*owner, *group);
            chown(shared, checks, who, path, Ownership { owner, group })
        }
        Call::Umask(mode) => umask(shared, checks, who, *mode),
        Call::CapGetFile(path) => get_field(shared, checks, who, Path(path), Field::Caps),
        Call::CapGetFd(fd) => get_field(shared, checks, who, Descriptor(*fd), Field::Caps),
        Call::MacGetFile(path) => get_field(shared, checks, who, Path(path), Field::Label),
        Call::MacGetFd(fd) => get_field(shared, checks, who, Descriptor(*fd), Field::Label),
        Call::CapSetFile(path, caps) => {
            set_field(shared, checks, who, Path(path), Setting::Caps(*caps))
        }
        Call::CapSetFd(fd, caps) => {
            set_field(shared, checks, who, Descriptor(*fd), Setting::Caps(*caps))
        }
        Call::MacSetFile(path, label) => {
            set_field(shared, checks, who, Path(path), Setting::Label(*label))
        }
        Call::MacSetFd(fd, label) => {
            set_field(shared, checks, who, Descriptor(*fd), Setting::Label(*label))
        }
        _ => unreachable!(),
    }
}
