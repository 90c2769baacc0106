// Where descriptions stand in files.
ghost use Rattle.std.specs.Prelude.{◌≡◌};
ghost use Rattle.kern_model.specs.Descriptors.{Opened};
ghost use Rattle.kern_model.specs.FileRows.{offset_change};
ghost use Rattle.kern_model.specs.State.{apply_change};
ghost use Rattle.sys_file.specs.Descriptors.{IsOpen, RefersTo};

use kern_model::{Fd, Pid};
use sys_lookup::Shared;

/// Sets the offset of a descriptor that is open, in bytes. It takes no memory.
pub fn set_offset(shared: &mut Shared, who: &Pid, fd: Fd, to: u32)
    requires { IsOpen shared.old who.now fd }
    ensures { (f : Opened) → RefersTo shared.old who.now fd f → shared.new ≡ apply_change shared.old (offset_change f to) }
{
    // The file may have fewer bytes, since a truncation leaves offsets.
    if shared.fds.seek(who, fd, i64::from(to), to).is_err() {
        unreachable!();
    }
}
