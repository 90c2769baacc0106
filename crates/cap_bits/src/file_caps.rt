// The capabilities of a file.
ghost use Rattle.std.specs.Prelude.{◌≡◌, true, false};
ghost use Rattle.cap_bits.specs.CapSet.{is_empty, union_of};

use crate::{CapSet, CapState};

/// The capabilities of a file. Its effective set is one bit, since a file makes effective all that it gives, or nothing. The bit
/// is off where both sets are empty, so that no two values show one state.
#[derive(Clone, Copy, Debug, PartialEq, Eq)]
pub struct FileCaps {
    /// The permitted capabilities.
    pub p: CapSet,
    /// The inheritable capabilities.
    pub i: CapSet,
    /// Whether all of these are effective too.
    pub eff: bool,
    pub ghost flag_off: { is_empty (union_of p i) ≡ true → eff ≡ false },
}

impl FileCaps {
    ghost use Rattle.std.specs.Prelude.{◌↔◌, not, IfSome, IsSome, IsTrue, Some};
    ghost use Rattle.cap_bits.specs.FileCaps.{file_caps_of, is_uniform, no_file_caps, shown};

    /// The capabilities of a file that has none.
    pub fn none() -> FileCaps
        ensures { result ≡ no_file_caps }
    {
        FileCaps {
            p: CapSet::none(),
            i: CapSet::none(),
            eff: false,
        }
    }

    /// The capabilities that a file has by this state, where a file can have it.
    #[tactic(auto, unfolding(crate::specs::FileCaps::file_caps_of))]
    pub fn from_state(state: &CapState) -> Option<FileCaps>
        ensures value { result ≡ file_caps_of state.now }
        ensures uniform { IsSome result ↔ IsTrue (is_uniform state.now) }
        ensures flag { IfSome result (λ caps. caps.eff ≡ not (is_empty state.now.e)) }
        ensures back { IfSome result (λ caps. shown caps ≡ state.now) }
    {
        if !FileCaps::can_have(state) {
            return None;
        }
        Some(FileCaps {
            p: state.p,
            i: state.i,
            eff: state.e != CapSet::none(),
        })
    }

    // Whether a file can have the state.
    #[tactic(auto, unfolding(crate::specs::FileCaps::is_uniform))]
    fn can_have(state: &CapState) -> bool
        ensures { result ≡ is_uniform state.now }
    {
        state.e == CapSet::none() || state.e == state.p.union(state.i)
    }

    /// The state by which a file has these capabilities.
    pub fn shown(&self) -> CapState
        ensures value { result ≡ shown self.now }
        ensures back { file_caps_of result ≡ Some self.now }
    {
        let e = if self.eff {
            self.p.union(self.i)
        } else {
            CapSet::none()
        };
        CapState {
            e,
            i: self.i,
            p: self.p,
        }
    }
}
