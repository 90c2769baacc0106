// The calls on directories and names, as one.
ghost use Rattle.std.specs.Prelude.{◌≡◌, IsSome, true};
ghost use Rattle.std.specs.FinMap as map;
ghost use Rattle.kern_model.specs.Arguments.{has_names};
ghost use Rattle.kern_model.specs.Valid.{IsValid};
ghost use Rattle.kern_model.specs.Table.{row};
ghost use Rattle.sys_lookup.specs.PlaysRow.{PlaysCall};
ghost use Rattle.sys_tree.specs.Playing.{is_tree_call};

use crate::linking::link;
use crate::making::mkdir;
use crate::reading::{readdir, stat};
use crate::removing::{rmdir, unlink};
use crate::renaming::rename;
use crate::standing::chdir;
use chk_rules::Checks;
use kern_model::{Call, Pid};
use sys_lookup::{CallResult, Caller, Shared};

/// Plays a call of a living process on directories and names.
#[inline(never)]
#[tactic(auto, unfolding(kern_model::specs::Arguments::has_names))]
pub fn play(shared: &mut Shared, checks: &mut Checks, who: &Pid, call: &Call) -> CallResult
    requires call { is_tree_call call.now ≡ true }
    requires valid { ∥ IsValid shared.old ∥₁ }
    requires living { IsSome (map.get shared.old.procs who.now) }
    ensures played { PlaysCall shared.old who.now checks.old (λ s who p. row s who p call.now) result shared.new checks.new }
    ensures names { has_names call.now ≡ true }
{
    match call {
        Call::Mkdir(path, mode) => mkdir(shared, checks, who, path, *mode),
        Call::Rmdir(path) => rmdir(shared, checks, who, path),
        Call::Link(path, to) => link(shared, checks, who, path, to),
        Call::Unlink(path) => unlink(shared, checks, who, path),
        Call::Rename(path, to) => rename(shared, checks, who, path, to),
        Call::Chdir(path) => chdir(shared, checks, who, path),
        Call::Readdir(path) => readdir(&Caller::new(shared, who), checks, path),
        Call::Stat(path) => stat(&Caller::new(shared, who), checks, path),
        _ => unreachable!(),
    }
}
