// How objects are made.
ghost use Rattle.std.specs.Prelude.{◌≡◌, None, IfErr, IfOk, IsSome, OnOk, false, true};
ghost use Rattle.std.specs.FinMap as map;
ghost use Rattle.kern_model.specs.Arguments.{are_names};
ghost use Rattle.kern_model.specs.Create.{attr_of, creation, to_number};
ghost use Rattle.kern_model.specs.Entries.{is_removed};
ghost use Rattle.kern_model.specs.Kinds.{kind_of, masked_permissions, object_with};
ghost use Rattle.kern_model.specs.State.{apply_changes, look, process_at};
ghost use Rattle.kern_model.specs.TreeRows.{make_row, make_spot};
ghost use Rattle.kern_model.specs.Valid.{IsDir, IsValid};
ghost use Rattle.kern_model.specs.declared.objects.Kind.TheVariants as kind;
ghost use Rattle.chk_rules.specs.CheckLog.{CheckLog};
ghost use Rattle.chk_rules.specs.RowSteps.{GoesOn};
ghost use Rattle.sys_lookup.specs.PlaysRow.{Keeps, PlaysCall};
ghost use Rattle.sys_lookup.specs.Walks.{IsEntry};

use crate::argument::PathArgument;
use crate::caller::Caller;
use crate::effect::Effect;
use crate::last_name::LastName;
use crate::shared::Shared;
use cap_bits::FileCaps;
use chk_rules::{Checks, Stop, refuse_if};
use kern_model::limits::MAX_PERMISSIONS;
use kern_model::{Attr, Body, Errno, Mode, Oid, Path, Pid};
use lab_lattice::Label;

/// The spot of an entry that is to be made: a directory, and a name that nothing has in it.
pub type Spot<'a> = (Oid, LastName<'a>);

/// What is to be made: its mode, before the caller's umask, and its body.
#[derive(Drop)]
pub struct NewObject {
    pub mode: Mode,
    pub body: Body,
}

/// Makes an object of the caller where nothing has the name at the end of a path. The bits of the caller's umask are taken
/// from the mode.
pub fn make(
    shared: &mut Shared,
    checks: &mut Checks,
    who: &Pid,
    path: &Path,
    object: NewObject,
) -> Result<Effect, Stop>
    requires valid { ∥ IsValid shared.old ∥₁ }
    requires living { IsSome (map.get shared.old.procs who.now) }
    requires no_pipe { kind_of object.body ≡ kind.Pipe → ⊥ }
    ensures played { PlaysCall shared.old who.now checks.old (λ s who p. make_row s who p path.now object.mode object.body) result shared.new checks.new }
    ensures names { are_names path.now ≡ true }
{
    let _names = path.components();
    let caller = Caller::new(shared, who);
    let spot = new_spot(&caller, checks, path)?;
    let label = caller.label();
    let attr = caller.new_attr(object.mode);
    create(shared, &spot, label, attr, object.body)?;
    Ok(Effect::done())
}

/// Makes an object under the next number of a label, has a new name lead to it, and returns the number.
#[tactic(auto, unfolding(chk_rules::specs::RowSteps::EndsBy, crate::specs::PlaysRow::Keeps))]
pub fn create(
    shared: &mut Shared,
    spot: &Spot<'_>,
    label: Label,
    attr: Attr,
    body: Body,
) -> Result<Oid, Stop>
    requires valid { ∥ IsValid shared.old ∥₁ }
    requires dir { IsDir shared.old.objects spot.now.0 }
    requires stands { is_removed shared.old spot.now.0 ≡ false }
    requires absent { look shared.old spot.now.0 spot.now.1 ≡ None }
    requires no_pipe { kind_of body ≡ kind.Pipe → ⊥ }
    ensures step { (log : CheckLog) → GoesOn log (to_number shared.old label) result log }
    ensures made { OnOk result (shared.new ≡ apply_changes shared.old (creation shared.old label spot.now.0 spot.now.1 (object_with label attr body))) }
    ensures kept { IfErr result (λ how. Keeps how shared.old shared.new) }
{
    refuse_if(!shared.can_create(&label), Errno::ENOSPC)?;
    let id = shared.create(label, attr, body)?;
    shared.add_entry(&spot.0, &spot.1, &id)?;
    Ok(id)
}

// The directory and the name of what is to be made.
fn new_spot<'a>(caller: &Caller<'_>, checks: &mut Checks, path: &'a Path) -> Result<Spot<'a>, Stop>
    ensures step { GoesOn checks.old (make_spot caller.now.state caller.now.process path.now) result checks.new }
    ensures entry { IfOk result (λ e. IsEntry caller.now.state e.0 e.1 None) }
    ensures stands { IfOk result (λ e. is_removed caller.now.state e.0 ≡ false) }
{
    let (dir, name) = caller
        .walk(checks, PathArgument::First, path)?
        .into_new_name()?;
    caller.make_in(checks, &dir, PathArgument::First.dir_place(path))?;
    Ok((dir, name))
}

impl Caller<'_> {
    /// The attributes of what the caller makes with a mode: it is its effective user's and group's, without the bits of its
    /// umask and without capabilities.
    pub fn new_attr(&self, mode: Mode) -> Attr
        ensures { result ≡ attr_of self.now.process (masked_permissions mode self.now.process.umask) }
    {
        let creds = self.creds();
        Attr {
            owner: creds.ids.euid,
            group: creds.ids.egid,
            mode: mode & MAX_PERMISSIONS & !creds.umask,
            caps: FileCaps::none(),
        }
    }
}
