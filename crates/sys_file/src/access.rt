// The descriptors that `read` and `write` take.
ghost use Rattle.std.specs.Prelude.{◌≡◌, Some, IfOk};
ghost use Rattle.kern_model.specs.Descriptors.{open_description};
ghost use Rattle.chk_rules.specs.RowSteps.{GoesOn};
ghost use Rattle.sys_lookup.specs.Shared.{metadata_of};
ghost use Rattle.sys_file.specs.Access.{access_object, is_open_for, opened_for};

use chk_rules::{Checks, Stop, refuse_if};
use fd_table::Opened;
use kern_model::{Errno, Fd, Oid, Place};
use sys_lookup::{Caller, Metadata};

/// For what a descriptor is to be open.
#[derive(Clone, Copy, Debug, PartialEq, Eq)]
pub enum Access {
    Read,
    Write,
}

/// What a descriptor refers to that is open for reading or for writing, and the metadata of its object, which the caller may
/// access so by label.
pub fn opened_for(
    caller: &Caller<'_>,
    checks: &mut Checks,
    fd: Fd,
    access: Access,
) -> Result<(Opened, Metadata), Stop>
    ensures step { GoesOn checks.old (opened_for access caller.now.state caller.now.process fd) result checks.new }
    ensures found { IfOk result (λ r. open_description caller.now.state caller.now.process fd ≡ Some r.0) }
    ensures object { IfOk result (λ r. r.1 ≡ metadata_of caller.now.state r.0.description.object) }
{
    let opened = caller.opened(fd)?;
    refuse_if(!is_open_for(&opened, access), Errno::EBADF)?;
    let object = access_object(caller, checks, &opened.object, access)?;
    Ok((opened, object))
}

// Whether a description is open for this.
fn is_open_for(opened: &Opened, access: Access) -> bool
    ensures { result ≡ is_open_for access opened.now.description }
{
    match access {
        Access::Read => opened.how.reads,
        Access::Write => opened.how.writes,
    }
}

// Reads or writes an object of a descriptor, by label, and returns its metadata.
fn access_object(
    caller: &Caller<'_>,
    checks: &mut Checks,
    id: &Oid,
    access: Access,
) -> Result<Metadata, Stop>
    ensures step { GoesOn checks.old (access_object access caller.now.state caller.now.process id.now) result checks.new }
    ensures object { IfOk result (λ object. object ≡ metadata_of caller.now.state id.now) }
{
    match access {
        Access::Read => caller.read_object(checks, id, Place::Handle),
        Access::Write => caller.write_object(checks, id, Place::Handle),
    }
}
