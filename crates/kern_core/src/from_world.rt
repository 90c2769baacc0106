// The credentials of processes that a world describes.
ghost use Rattle.std.specs.Prelude.{◌≡◌, IfOk, true};
ghost use Rattle.cap_bits.specs.CapSet.{is_within};
ghost use Rattle.kern_model.specs.Boot.{process_of};
ghost use Rattle.proc_table.specs.Procs.{creds_of};

use kern_model::{Mode, NoMemory, WorldProc};
use proc_creds::Creds;

// The umask of the processes that start with a world.
const START_UMASK: Mode = 0o022;

/// The credentials of a process that a world describes.
pub fn creds_from(process: &WorldProc) -> Result<Creds, NoMemory>
    requires { is_within process.now.caps.e process.now.caps.p ≡ true }
    ensures { IfOk result (λ creds. creds ≡ creds_of (process_of process.now)) }
{
    Ok(Creds {
        ids: process.ids.copy()?,
        label: process.label,
        caps: process.caps,
        umask: START_UMASK,
    })
}
