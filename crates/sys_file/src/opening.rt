// The call `open`.
ghost use Rattle.std.specs.Prelude.{◌≡◌, ◌&&◌, [], None, Some, IfOk, IsSome, OnOk, false, true};
ghost use Rattle.std.specs.FinMap as map;
ghost use Rattle.kern_model.specs.Arguments.{are_names};
ghost use Rattle.kern_model.specs.Descriptors.{lowest_free};
ghost use Rattle.kern_model.specs.Entries.{is_removed};
ghost use Rattle.kern_model.specs.FileRows.{has_descriptions, has_free_descriptors, description_creation, content_change};
ghost use Rattle.kern_model.specs.Kinds.{is_fifo, is_file};
ghost use Rattle.kern_model.specs.OpenRows.{allowed_by_kind, truncation_if, to_absent, to_emptied, to_present};
ghost use Rattle.kern_model.specs.State.{State, apply_change, apply_changes, look, object_at, process_at};
ghost use Rattle.kern_model.specs.Valid.{IsDir, IsValid};
ghost use Rattle.kern_model.specs.declared.numbers.Oid.{Oid as Number};
ghost use Rattle.kern_model.specs.declared.objects.Object.{Object};
ghost use Rattle.chk_rules.specs.CheckLog.{CheckLog};
ghost use Rattle.chk_rules.specs.RowSteps.{GoesOn};
ghost use Rattle.fs_nodes.specs.Nodes.{IsFile};
ghost use Rattle.sys_lookup.specs.PlaysRow.{PlaysRow};
ghost use Rattle.sys_lookup.specs.Shared.{metadata_of};
ghost use Rattle.sys_lookup.specs.StepOn.{StepOn};
ghost use Rattle.sys_file.specs.Opening.{CanBeEmptied, EmptiesFiles, IsTarget, opens_file, opens_object, request_row};

use chk_rules::{Checks, Stop, refuse_if};
use fd_table::How;
use kern_model::{
    Answer, Attr, Body, ByteList, Errno, Fd, Kind, Mode, NoMemory, Oid, OpenFlags, Path, Pid, Place,
};
use std::alloc::Global;
use sys_lookup::{CallResult, Caller, Effect, Found, Metadata, PathArgument, Shared, Spot, create};

/// What `open` is asked for: a path, flags, and the mode of a file that is made, before the caller's umask.
#[derive(Clone, Copy)]
pub struct OpenRequest<'a> {
    pub path: &'a Path,
    pub flags: OpenFlags,
    pub mode: Option<Mode>,
}

/// `open`: an object is opened at the caller's lowest free descriptor. With `c` a file is made where nothing has the name.
pub fn open(
    alloc: Global,
    shared: &mut Shared,
    checks: &mut Checks,
    who: &Pid,
    opening: &OpenRequest<'_>,
) -> CallResult
    requires valid { ∥ IsValid shared.old ∥₁ }
    requires living { IsSome (map.get shared.old.procs who.now) }
    ensures played { PlaysRow shared.old checks.old (request_row shared.old who.now opening.now) result shared.new checks.new }
    ensures names { are_names opening.now.path.now ≡ true }
{
    let (path, flags) = (opening.path, opening.flags);
    let _names = path.components();
    let caller = Caller::new(shared, who);
    caller.may_open(1)?;
    let found = caller.walk(checks, PathArgument::First, path)?;
    match Target::from(found) {
        Target::Present(id) => {
            let place = PathArgument::First.last_place(path);
            let emptied = may_open(&caller, checks, flags, &id, place)?;
            open_present(shared, who, &id, flags, emptied)
        }
        Target::Absent(spot) => {
            let place = PathArgument::First.dir_place(path);
            may_make(&caller, checks, flags, &spot.0, place)?;
            open_new(alloc, shared, who, &spot, opening)
        }
    }
}

// What `open` is to open: an object that is there, or a file that is to be made, by its directory and a name that leads to none.
#[derive(Drop)]
enum Target<'a> {
    Present(Oid),
    Absent(Spot<'a>),
}

impl<'a> From<Found<'a>> for Target<'a> {
    fn from(found: Found<'a>) -> Self
        ensures { IsTarget found.entry result }
    {
        match found {
            Found::Start(id) | Found::Entry(_, _, Some(id)) => Target::Present(id),
            Found::Entry(dir, name, None) => Target::Absent((dir, name)),
        }
    }
}

// Refuses that a file is made in a directory, unless it is asked for and the caller may.
fn may_make(
    caller: &Caller<'_>,
    checks: &mut Checks,
    flags: OpenFlags,
    dir: &Oid,
    place: Place,
) -> Result<(), Stop>
    ensures step { GoesOn checks.old (λ rest. to_absent caller.now.state caller.now.process flags dir.now place (rest tt)) result checks.new }
    ensures stands { OnOk result (is_removed caller.now.state dir.now ≡ false) }
{
    refuse_if(!flags.c, Errno::ENOENT)?;
    caller.make_in(checks, dir, place)
}

// The attributes with which an object that is there is emptied, if it is, where the caller may open it.
fn may_open(
    caller: &Caller<'_>,
    checks: &mut Checks,
    flags: OpenFlags,
    id: &Oid,
    place: Place,
) -> Result<Option<Attr>, Stop>
    ensures step { GoesOn checks.old (to_present caller.now.process flags id.now place (object_at caller.now.state id.now)) result checks.new }
    ensures files { IfOk result (EmptiesFiles caller.now.state id.now) }
{
    let object = caller.metadata(id);
    refuse_if(both(flags.c, flags.x), Errno::EEXIST)?;
    caller.mac_read_if(flags.r, checks, &object, place)?;
    caller.mac_write_if(flags.w, checks, &object, place)?;
    kind_allows(caller, checks, flags, &object, place)?;
    caller.dac_read_if(flags.r, checks, &object, place)?;
    caller.dac_write_if(flags.w, checks, &object, place)?;
    emptied_attr(caller, checks, flags, &object, place)
}

// Checks that an object is of a kind that the caller may open so.
fn kind_allows(
    caller: &Caller<'_>,
    checks: &mut Checks,
    flags: OpenFlags,
    object: &Metadata,
    place: Place,
) -> Result<(), Stop>
    ensures { StepOn checks.old object.now (λ s id rest. allowed_by_kind caller.now.process flags id place (object_at s id) (rest tt)) result checks.new }
{
    refuse_if(object.is_directory(), Errno::EISDIR)?;
    let drains = both(is_fifo(object.kind), flags.r);
    refuse_if(both(drains, flags.w), Errno::EINVAL)?;
    caller.mac_write_if(drains, checks, object, place)
}

// The attributes with which a file is emptied, if it is.
fn emptied_attr(
    caller: &Caller<'_>,
    checks: &mut Checks,
    flags: OpenFlags,
    object: &Metadata,
    place: Place,
) -> Result<Option<Attr>, Stop>
    ensures step { StepOn checks.old object.now (λ s id. to_emptied flags id place (object_at s id)) result checks.new }
    ensures files { (s : State) (id : Number) → object.now ≡ metadata_of s id → IfOk result (EmptiesFiles s id) }
{
    if both(flags.t, is_file(object.kind)) {
        let attr = caller.kept_attr(checks, object, place)?;
        Ok(Some(attr))
    } else {
        Ok(None)
    }
}

// Whether both hold.
fn both(a: bool, b: bool) -> bool
    ensures { result ≡ (a && b) }
{
    a && b
}

// Whether it is the kind of a FIFO.
fn is_fifo(kind: Kind) -> bool
    ensures { result ≡ is_fifo kind }
{
    matches!(kind, Kind::Fifo)
}

// Whether it is the kind of a file.
fn is_file(kind: Kind) -> bool
    ensures { result ≡ is_file kind }
{
    matches!(kind, Kind::File)
}

// Opens an object that is there.
fn open_present(
    shared: &mut Shared,
    who: &Pid,
    id: &Oid,
    flags: OpenFlags,
    emptied: Option<Attr>,
) -> CallResult
    requires living { IsSome (map.get shared.old.procs who.now) }
    requires free { has_free_descriptors (process_at shared.old who.now) 1 ≡ true }
    requires left { has_descriptions shared.old (process_at shared.old who.now) 1 ≡ true }
    requires file { CanBeEmptied shared.old id.now emptied }
    ensures { (log : CheckLog) → PlaysRow shared.old log (opens_object shared.old who.now flags id.now emptied) result shared.new log }
{
    let fd = describe(shared, who, id, flags)?;
    set_content(shared, id, emptied);
    Ok(Effect::answers(Answer::Number(fd)))
}

// Makes an empty file of the caller under a new name, and opens it.
fn open_new(
    alloc: Global,
    shared: &mut Shared,
    who: &Pid,
    spot: &Spot<'_>,
    opening: &OpenRequest<'_>,
) -> CallResult
    requires valid { ∥ IsValid shared.old ∥₁ }
    requires living { IsSome (map.get shared.old.procs who.now) }
    requires free { has_free_descriptors (process_at shared.old who.now) 1 ≡ true }
    requires left { has_descriptions shared.old (process_at shared.old who.now) 1 ≡ true }
    requires dir { IsDir shared.old.objects spot.now.0 }
    requires stands { is_removed shared.old spot.now.0 ≡ false }
    requires absent { look shared.old spot.now.0 spot.now.1 ≡ None }
    ensures { (log : CheckLog) → PlaysRow shared.old log (opens_file shared.old who.now opening.now spot.now) result shared.new log }
{
    let caller = Caller::new(shared, who);
    let mode = opening.mode.unwrap_or(0);
    let attr = caller.new_attr(mode);
    let label = caller.label();
    let empty = ByteList::new(alloc);
    let id = create(shared, spot, label, attr, Body::File(empty))?;
    let fd = describe(shared, who, &id, opening.flags)?;
    Ok(Effect::answers(Answer::Number(fd)))
}

/// Makes a description of an object, with the lowest free descriptor of a process, which it returns.
pub fn describe(shared: &mut Shared, who: &Pid, id: &Oid, flags: OpenFlags) -> Result<Fd, NoMemory>
    requires living { IsSome (map.get shared.old.procs who.now) }
    requires free { has_free_descriptors (process_at shared.old who.now) 1 ≡ true }
    requires left { has_descriptions shared.old (process_at shared.old who.now) 1 ≡ true }
    ensures fd { IfOk result (λ fd. fd ≡ lowest_free (process_at shared.old who.now).fds) }
    ensures objects { shared.new.objects ≡ shared.old.objects }
    ensures described { OnOk result (shared.new ≡ apply_changes shared.old (description_creation shared.old who.now (process_at shared.old who.now) id.now flags)) }
{
    let label = Caller::new(shared, who).label();
    shared.fds.reserve(who)?;
    shared.fds.open_next(who, &label, *id, how(flags))
}

// What a description is open for.
fn how(flags: OpenFlags) -> How
    ensures { result ≡ record { reads = flags.r; writes = flags.w; appends = flags.a } }
{
    How {
        reads: flags.r,
        writes: flags.w,
        appends: flags.a,
    }
}

// Empties an object with these attributes, if it is to be emptied. It takes no memory.
fn set_content(shared: &mut Shared, id: &Oid, emptied: Option<Attr>)
    requires { CanBeEmptied shared.old id.now emptied }
    ensures { shared.new ≡ apply_changes shared.old (truncation_if id.now (object_at shared.old id.now) emptied) }
{
    match emptied {
        None => (),
        Some(attr) => empty(shared, id, attr),
    }
}

// Empties a file, and gives it other attributes. It takes no memory.
fn empty(shared: &mut Shared, id: &Oid, attr: Attr)
    requires { IsFile shared.old.objects id.now }
    ensures { (o : Object) → map.get shared.old.objects id.now ≡ Some o → shared.new ≡ apply_change shared.old (content_change id.now o [] attr) }
{
    shared.tree.truncate(id);
    shared.tree.set_attr(id, attr);
}
