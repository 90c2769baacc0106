// How a call stops.
use kern_model::{CheckName, Errno, NoMemory, Place};

/// How a call stops before it is done.
#[derive(Debug, Drop)]
pub enum Stop {
    /// A check denied it.
    Denied(CheckName, Place),
    /// Another cause refused it.
    Refused(Errno),
    /// Memory ran out.
    NoMemory(NoMemory),
}

impl From<NoMemory> for Stop {
    ghost use Rattle.std.specs.Prelude.{◌≡◌};
    ghost use Rattle.chk_rules.specs.declared.stop.Stop.TheVariants as stop;

    ghost from_gives = { λ e s. s ≡ stop.NoMemory e };

    fn from(value: NoMemory) -> Self {
        Stop::NoMemory(value)
    }
}
