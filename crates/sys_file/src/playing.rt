// The calls on descriptors, and those that open or make what descriptors refer to, as one.
ghost use Rattle.std.specs.Prelude.{◌≡◌, IsSome, true};
ghost use Rattle.std.specs.FinMap as map;
ghost use Rattle.kern_model.specs.Arguments.{has_names};
ghost use Rattle.kern_model.specs.Valid.{IsValid};
ghost use Rattle.kern_model.specs.Table.{row};
ghost use Rattle.sys_lookup.specs.PlaysRow.{LeavesNothingOf, PlaysCall};
ghost use Rattle.sys_file.specs.Playing.{is_file_call};

use crate::descriptors::{Seek, close, dup, fstat, lseek};
use crate::opening::{OpenRequest, open};
use crate::pipes::{mkfifo, pipe};
use crate::reading::read;
use crate::writing::write;
use chk_rules::Checks;
use kern_model::{Call, Pid};
use std::alloc::Global;
use sys_lookup::{CallResult, Caller, Shared};

/// Plays a call of a living process on descriptors, or one that opens or makes what descriptors refer to.
#[inline(never)]
#[tactic(auto, unfolding(kern_model::specs::Arguments::has_names))]
pub fn play(
    alloc: Global,
    shared: &mut Shared,
    checks: &mut Checks,
    who: &Pid,
    call: &Call,
) -> CallResult
    requires call { is_file_call call.now ≡ true }
    requires valid { ∥ IsValid shared.old ∥₁ }
    requires living { IsSome (map.get shared.old.procs who.now) }
    ensures played { PlaysCall shared.old who.now checks.old (λ s who p. row s who p call.now) result shared.new checks.new }
    ensures names { has_names call.now ≡ true }
    ensures nothing { LeavesNothingOf call.now result }
{
    match call {
        Call::OpenPath(path, flags, mode) => {
            let (flags, mode) = (*flags, *mode);
            open(
                alloc,
                shared,
                checks,
                who,
                &OpenRequest { path, flags, mode },
            )
        }
        Call::Close(fd) => close(shared, who, *fd),
        Call::Read(fd, n) => read(shared, checks, who, *fd, *n),
        Call::Write(fd, bytes) => write(shared, checks, who, *fd, bytes.items()),
        Call::Lseek(fd, from, offset) => {
            let (from, offset) = (*from, *offset);
            lseek(shared, checks, who, *fd, Seek { from, offset })
        }
        Call::Dup(fd) => dup(shared, who, *fd),
        Call::Pipe => pipe(shared, who),
        Call::Mkfifo(path, mode) => mkfifo(shared, checks, who, path, *mode),
        Call::Fstat(fd) => fstat(&Caller::new(shared, who), checks, *fd),
        _ => unreachable!(),
    }
}
