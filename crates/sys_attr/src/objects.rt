// The objects that calls name.
ghost use Rattle.std.specs.Prelude.{◌≡◌, IfOk};
ghost use Rattle.kern_model.specs.Valid.{IsThere, IsValid};
ghost use Rattle.chk_rules.specs.RowSteps.{GoesOn};
ghost use Rattle.sys_lookup.specs.Callers.{IsLiving};
ghost use Rattle.sys_lookup.specs.Shared.{metadata_of};
ghost use Rattle.sys_attr.specs.Objects.{find_argument, read_argument, write_argument};

use chk_rules::{Checks, Stop};
use kern_model::{Fd, Oid, Path, Place};
use sys_lookup::{Caller, Metadata, PathArgument};

/// How a call names its object.
#[derive(Clone, Copy)]
pub enum ObjectArgument<'a> {
    /// By a path that leads to it.
    Path(&'a Path),
    /// By an open descriptor of the caller.
    Descriptor(Fd),
}

/// Reads, by label, the object that a call names, and returns its metadata.
pub fn read_named(
    caller: &Caller<'_>,
    checks: &mut Checks,
    object: ObjectArgument<'_>,
) -> Result<Metadata, Stop>
    ensures step { GoesOn checks.old (read_argument caller.now.state caller.now.process object.entry) result checks.new }
    ensures object { IfOk result (λ object. object ≡ metadata_of caller.now.state object.id) }
{
    let (id, place) = find(caller, checks, object)?;
    caller.read_object(checks, &id, place)
}

/// Writes, by label, the object that a call names, and returns its metadata and its place.
pub fn write_named(
    caller: &Caller<'_>,
    checks: &mut Checks,
    object: ObjectArgument<'_>,
) -> Result<(Metadata, Place), Stop>
    requires valid { ∥ IsValid caller.now.state ∥₁ }
    requires living { IsLiving caller.now }
    ensures step { GoesOn checks.old (write_argument caller.now.state caller.now.process object.entry) result checks.new }
    ensures object { IfOk result (λ r. r.0 ≡ metadata_of caller.now.state r.0.id) }
    ensures there { IfOk result (λ r. IsThere caller.now.state.objects r.0.id) }
{
    let (id, place) = find(caller, checks, object)?;
    let metadata = caller.write_object(checks, &id, place)?;
    Ok((metadata, place))
}

// The object that a call names, and its place.
fn find(
    caller: &Caller<'_>,
    checks: &mut Checks,
    object: ObjectArgument<'_>,
) -> Result<(Oid, Place), Stop>
    ensures step { GoesOn checks.old (find_argument caller.now.state caller.now.process object.entry) result checks.new }
    ensures there { ∥ IsValid caller.now.state ∥₁ → IsLiving caller.now → IfOk result (λ r. IsThere caller.now.state.objects r.0) }
{
    match object {
        ObjectArgument::Path(path) => caller.reach(checks, PathArgument::First, path),
        ObjectArgument::Descriptor(fd) => {
            let opened = caller.opened(fd)?;
            Ok((opened.object, Place::Handle))
        }
    }
}
