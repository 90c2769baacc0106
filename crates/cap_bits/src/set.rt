// Sets of capabilities.
ghost use Rattle.std.specs.Prelude.{◌≡◌};
ghost use Rattle.std.specs.Cmp.{partial_equiv_from_equiv};
ghost use Rattle.cap_bits.specs.CapSet.{no_caps, all_of_caps, has, with_cap, without_cap, union_of, meet_of, minus_of, is_within, same_sets};
ghost use Rattle.cap_bits.specs.Laws.{same_sets-equiv};

use crate::{CAP_COUNT, Cap};
use std::marker::Model;

// A bit for each capability.
const ALL_BITS: u32 = (1 << CAP_COUNT) - 1;

/// A set of capabilities.
#[derive(Clone, Copy, Debug)]
pub struct CapSet {
    // The bit with a capability's number is 1 where the set has the capability.
    word: u32,
}

impl Model for CapSet {
    ghost use Rattle.std.specs.Prelude.{◌<◌, ◌^◌};
    ghost use Rattle.std.specs.FinSet as set;
    ghost use Rattle.cap_bits.specs.declared.cap.TheConstants.{CAP_COUNT};
    ghost use Rattle.cap_bits.specs.Cap.{cap_cmp, cap_code};
    ghost use Rattle.cap_bits.specs.Word.{caps_of_word, word_of_caps};
    ghost use Rattle.cap_bits.specs.Laws.{word_back};

    ghost Value = { set.FinSet cap_cmp };

    ghost coded = { set.code cap_code };

    ghost view = { λ s. caps_of_word s.word };

    ghost invariant = { λ s. s.word < 2 ^ CAP_COUNT };

    ghost inverse = { λ caps. record { word = word_of_caps caps } };

    ghost inverse_ok = { λ s h. λ i. record { word = word_back s.word h i } };
}

impl CapSet {
    /// The set with no capability.
    pub fn none() -> CapSet
        ensures { result ≡ no_caps }
    {
        CapSet { word: 0 }
    }

    /// The set of all capabilities.
    pub fn all() -> CapSet
        ensures { result ≡ all_of_caps }
    {
        CapSet { word: ALL_BITS }
    }

    /// Whether the set has the capability.
    pub fn has(&self, cap: Cap) -> bool
        ensures { result ≡ has self.now cap }
    {
        self.word >> cap.number() & 1 == 1
    }

    /// The set with this capability too.
    pub fn with(self, cap: Cap) -> CapSet
        ensures { result ≡ with_cap self cap }
    {
        CapSet {
            word: self.word | 1 << cap.number(),
        }
    }

    /// The set without this capability.
    pub fn without(self, cap: Cap) -> CapSet
        ensures { result ≡ without_cap self cap }
    {
        CapSet {
            word: self.word & !(1 << cap.number()),
        }
    }

    /// The capabilities that are in either set.
    pub fn union(self, other: CapSet) -> CapSet
        ensures { result ≡ union_of self other }
    {
        CapSet {
            word: self.word | other.word,
        }
    }

    /// The capabilities that are in both sets.
    pub fn meet(self, other: CapSet) -> CapSet
        ensures { result ≡ meet_of self other }
    {
        CapSet {
            word: self.word & other.word,
        }
    }

    /// The capabilities of this set that are not in the other.
    pub fn minus(self, other: CapSet) -> CapSet
        ensures { result ≡ minus_of self other }
    {
        CapSet {
            word: self.word & !other.word,
        }
    }

    /// Whether each capability of this set is in the other.
    pub fn within(&self, other: &CapSet) -> bool
        ensures { result ≡ is_within self.now other.now }
    {
        self.word & other.word == self.word
    }
}

impl PartialEq for CapSet {
    ghost eq = { same_sets };

    ghost laws = { partial_equiv_from_equiv same_sets-equiv };

    fn eq(&self, other: &CapSet) -> bool {
        self.word == other.word
    }
}

impl Eq for CapSet {
    ghost laws = { same_sets-equiv };
}
