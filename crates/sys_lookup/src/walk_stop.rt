// The walk of a path of a process, and how it stops.
ghost use Rattle.std.specs.Prelude.{◌≡◌, IfOk, IsSome};
ghost use Rattle.std.specs.FinMap as map;
ghost use Rattle.kern_model.specs.State.{process_at};
ghost use Rattle.kern_model.specs.Walk.{start_of};
ghost use Rattle.chk_rules.specs.RowSteps.{GoesOn};
ghost use Rattle.sys_lookup.specs.Walks.{IsFound, found_by};
ghost use Rattle.sys_lookup.specs.WalkStops.{IsWalkStop, argument_of, stop_of, stopped_by, walk_argument};

use crate::argument::PathArgument;
use crate::caller::Caller;
use crate::found::Found;
use crate::shared::Shared;
use chk_rules::{Checks, Stop};
use kern_model::{CheckName, Errno, NoMemory, Path, Pid, Place};

/// How a walk stops.
#[derive(Debug, Drop)]
pub enum WalkStop {
    /// A check denied it.
    Denied(CheckName, Place),
    /// What a name is looked up in may be read, and is no directory.
    NotDir,
    /// A name that is not the last is absent.
    Missing,
    /// Memory ran out.
    NoMemory(NoMemory),
}

impl From<WalkStop> for Stop {
    ghost use Rattle.std.specs.Prelude.{◌≡◌};
    ghost use Rattle.sys_lookup.specs.WalkStops.{stop_of};

    ghost from_gives = { λ w s. s ≡ stop_of w };

    fn from(stop: WalkStop) -> Self {
        match stop {
            WalkStop::Denied(check, place) => Stop::Denied(check, place),
            WalkStop::NotDir => Stop::Refused(Errno::ENOTDIR),
            WalkStop::Missing => Stop::Refused(Errno::ENOENT),
            WalkStop::NoMemory(e) => Stop::NoMemory(e),
        }
    }
}

// How a walk stopped that stopped its call so.
fn walk_stop(stop: Stop) -> WalkStop
    requires { IsWalkStop stop }
    ensures { stop_of result ≡ stop }
{
    match stop {
        Stop::Denied(check, place) => WalkStop::Denied(check, place),
        Stop::Refused(Errno::ENOTDIR) => WalkStop::NotDir,
        Stop::Refused(_) => WalkStop::Missing,
        Stop::NoMemory(e) => WalkStop::NoMemory(e),
    }
}

// The first or the second path of a call.
fn argument(second: bool) -> PathArgument
    ensures { result ≡ argument_of second }
{
    if second {
        PathArgument::Second
    } else {
        PathArgument::First
    }
}

/// Walks a path of a call of a living process from where it starts. The program calls [`Caller::walk`]. The last name of the path
/// may be absent.
pub fn walk<'a>(
    shared: &Shared,
    checks: &mut Checks,
    who: &Pid,
    path: &'a Path,
    second: bool,
) -> Result<Found<'a>, WalkStop>
    requires living { IsSome (map.get shared.now.procs who.now) }
    ensures step { GoesOn checks.old (walk_argument shared.now who.now second path.now) (found_by (stopped_by result)) checks.new }
    ensures found { IfOk result (IsFound shared.now (start_of (process_at shared.now who.now) path.now)) }
{
    let caller = Caller::new(shared, who);
    match caller.walk(checks, argument(second), path) {
        Ok(found) => Ok(found),
        Err(stop) => Err(walk_stop(stop)),
    }
}
