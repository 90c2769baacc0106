// The call `mkdir`.
ghost use Rattle.std.specs.Prelude.{◌≡◌, IsSome, true};
ghost use Rattle.std.specs.FinMap as map;
ghost use Rattle.kern_model.specs.Arguments.{are_names};
ghost use Rattle.kern_model.specs.TreeRows.{mkdir_row};
ghost use Rattle.kern_model.specs.Valid.{IsValid};
ghost use Rattle.sys_lookup.specs.PlaysRow.{PlaysCall};

use chk_rules::Checks;
use kern_model::{Body, Mode, Path, Pid};
use sys_lookup::{CallResult, NewObject, Shared, make};

/// `mkdir`: a directory is made where nothing has the name.
pub fn mkdir(
    shared: &mut Shared,
    checks: &mut Checks,
    who: &Pid,
    path: &Path,
    mode: Mode,
) -> CallResult
    requires valid { ∥ IsValid shared.old ∥₁ }
    requires living { IsSome (map.get shared.old.procs who.now) }
    ensures played { PlaysCall shared.old who.now checks.old (λ s who p. mkdir_row s who p path.now mode) result shared.new checks.new }
    ensures names { are_names path.now ≡ true }
{
    let body = Body::Dir;
    make(shared, checks, who, path, NewObject { mode, body })
}
