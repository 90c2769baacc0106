// Sets of categories.
ghost use Rattle.std.specs.Prelude.{◌≡◌, ◌<◌, ◌↔◌, IsSome, IfSome, refl};
ghost use Rattle.std.specs.Cmp.{partial_equiv_from_equiv, po};
ghost use Rattle.std.specs.Ordering.{as_partial_cmp};
ghost use Rattle.lab_lattice.specs.Cats.{no_cats, one_cat, has_cat, same_sets};
ghost use Rattle.lab_lattice.specs.Word.{cats_of_word, cats_cmp};
ghost use Rattle.lab_lattice.specs.Laws.{same_sets-equiv, same_sets-ties, cats_cmp_total};

use crate::Lattice;
use std::cmp::Ordering;
use std::marker::Model;

// The most categories that there are.
const MAX_CATS: u8 = 64;

// What a bit of `high` stands for.
const HIGH_UNIT: u64 = 1 << 32;

/// A set of categories, which are numbers below 64.
#[derive(Clone, Copy, Debug)]
pub struct Cats {
    // The bit with a category's number is 1 where the set has the category. The 64 bits stand in two fields as wide as those of a
    // level and a grade, so that a label takes 16 bytes and has no padding.
    low: u32,
    high: u32,
}

impl Model for Cats {
    ghost use Rattle.std.specs.Prelude.{◌+◌, ◌*◌, ◌/◌, ◌%◌, ◌<◌, ◌^◌};
    ghost use Rattle.lab_lattice.specs.Cats.{CatSet, cats_code};
    ghost use Rattle.lab_lattice.specs.Word.{cats_of_word, word_of_cats};
    ghost use Rattle.lab_lattice.specs.Laws.{low_back, high_back};

    ghost Value = { CatSet };

    ghost coded = { cats_code };

    ghost view = { λ s. cats_of_word (s.low + s.high * 2 ^ 32) };

    ghost invariant = { λ s. (s.low < 2 ^ 32) × (s.high < 2 ^ 32) };

    ghost inverse = { λ cats. record { low = word_of_cats cats % 2 ^ 32; high = word_of_cats cats / 2 ^ 32 } };

    ghost inverse_ok = { λ s h. λ i. record { low = low_back s.low s.high h.0 h.1 i; high = high_back s.low s.high h.0 h.1 i } };
}

impl Cats {
    /// The set with no category.
    pub fn empty() -> Cats
        ensures { result ≡ no_cats }
    {
        Cats { low: 0, high: 0 }
    }

    /// The set with this category alone, where its number is below 64.
    pub fn one(i: u8) -> Option<Cats>
        ensures some { IsSome result ↔ (i < 64) }
        ensures one { IfSome result (λ cats. cats ≡ one_cat i) }
    {
        if i < MAX_CATS {
            Some(Cats::from_word(1 << i))
        } else {
            None
        }
    }

    /// Whether the set has the category.
    pub fn has(&self, i: u8) -> bool
        ensures { result ≡ has_cat self.now i }
    {
        let word = self.word();
        i < MAX_CATS && word >> i & 1 == 1
    }

    // The set whose members are the bits of the number.
    fn from_word(word: u64) -> Cats
        ensures { result ≡ cats_of_word word }
    {
        Cats {
            low: (word % HIGH_UNIT) as u32,
            high: (word / HIGH_UNIT) as u32,
        }
    }

    // The number whose bits are the members.
    fn word(&self) -> u64
        ensures { cats_of_word result ≡ self.now }
    {
        u64::from(self.low) + u64::from(self.high) * HIGH_UNIT
    }
}

impl Lattice for Cats {
    ghost use Rattle.lab_lattice.specs.Cats.{cats_cover, cats_join, cats_meet};
    ghost use Rattle.lab_lattice.specs.Laws.{cats_reflexive, cats_transitive, cats_antisymmetric, cats_join_first, cats_join_second, cats_join_least, cats_meet_first, cats_meet_second, cats_meet_greatest};

    ghost covers = { cats_cover };

    ghost join = { cats_join };

    ghost meet = { cats_meet };

    ghost reflexive = { cats_reflexive };

    ghost transitive = { cats_transitive };

    ghost antisymmetric = { cats_antisymmetric };

    ghost join_above_first = { cats_join_first };

    ghost join_above_second = { cats_join_second };

    ghost join_least = { cats_join_least };

    ghost meet_below_first = { cats_meet_first };

    ghost meet_below_second = { cats_meet_second };

    ghost meet_greatest = { cats_meet_greatest };

    fn dominates(&self, other: &Self) -> bool {
        let below = other.word();
        self.word() & below == below
    }

    fn equal(&self, other: &Self) -> bool {
        self.word() == other.word()
    }

    fn lub(&self, other: &Self) -> Self {
        Cats::from_word(self.word() | other.word())
    }

    fn glb(&self, other: &Self) -> Self {
        Cats::from_word(self.word() & other.word())
    }
}

impl PartialEq for Cats {
    ghost eq = { same_sets };

    ghost laws = { partial_equiv_from_equiv same_sets-equiv };

    fn eq(&self, other: &Cats) -> bool {
        self.word() == other.word()
    }
}

impl Eq for Cats {
    ghost laws = { same_sets-equiv };
}

impl PartialOrd for Cats {
    ghost partial_cmp = { as_partial_cmp cats_cmp };

    ghost laws = { po cats_cmp_total same_sets-ties };

    fn partial_cmp(&self, other: &Cats) -> Option<Ordering> {
        Some(self.cmp(other))
    }
}

impl Ord for Cats {
    ghost cmp = { cats_cmp };

    ghost total = { cats_cmp_total };

    ghost matches_partial_cmp = { λ x y. refl };

    ghost matches_eq = { same_sets-ties };

    fn cmp(&self, other: &Cats) -> Ordering {
        self.word().cmp(&other.word())
    }
}
