// The three sets of a process or a file.
ghost use Rattle.std.specs.Prelude.{◌≡◌};
ghost use Rattle.cap_bits.specs.State.{no_flags, has_flag, with_flag, set_to as cap_set_to};

use crate::{Cap, CapSet};

/// One of the three sets in which a capability can be.
#[derive(Clone, Copy, Debug, PartialEq, Eq)]
pub enum Flag {
    /// What the process may use now.
    Effective,
    /// What it keeps when it executes a file.
    Inheritable,
    /// What it may make effective.
    Permitted,
}

/// The effective, the inheritable and the permitted capabilities, under no condition on one another.
#[derive(Clone, Copy, Debug, PartialEq, Eq)]
pub struct CapState {
    /// The effective capabilities.
    pub e: CapSet,
    /// The inheritable capabilities.
    pub i: CapSet,
    /// The permitted capabilities.
    pub p: CapSet,
}

// The set with or without the capability.
fn set_to(set: CapSet, cap: Cap, there: bool) -> CapSet
    ensures { result ≡ cap_set_to set cap there }
{
    if there {
        set.with(cap)
    } else {
        set.without(cap)
    }
}

impl CapState {
    /// The state with no capability in any set.
    pub fn none() -> CapState
        ensures { result ≡ no_flags }
    {
        CapState {
            e: CapSet::none(),
            i: CapSet::none(),
            p: CapSet::none(),
        }
    }

    /// Whether the capability is in the flag's set.
    pub fn get_flag(&self, cap: Cap, flag: Flag) -> bool
        ensures { result ≡ has_flag self.now cap flag }
    {
        match flag {
            Flag::Effective => self.e.has(cap),
            Flag::Inheritable => self.i.has(cap),
            Flag::Permitted => self.p.has(cap),
        }
    }

    /// Puts the capability in the flag's set, or takes it out, and changes nothing else. The program does not call it.
    pub fn set_flag(&mut self, cap: Cap, flag: Flag, raised: bool)
        ensures { self.new ≡ with_flag self.old cap flag raised }
    {
        match flag {
            Flag::Effective => self.e = set_to(self.e, cap, raised),
            Flag::Inheritable => self.i = set_to(self.i, cap, raised),
            Flag::Permitted => self.p = set_to(self.p, cap, raised),
        }
    }
}
