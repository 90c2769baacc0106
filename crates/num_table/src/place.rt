// The places of a list of keys.
ghost use Rattle.std.specs.Prelude.{◌≡◌, ◌-◌, ◌^◌, None, Some, MatchResult};

use kern_model::NoMemory;
use std::marker::Model;
use std::mem::{self, size_of};

// The number that stands for no key.
const NO_KEY: u32 = u32::MAX;

/// A key of a slab, or none. The greatest number stands for none, so that a place takes 4 bytes.
#[derive(Clone, Drop)]
pub struct Place {
    number: u32,
}

const _: () = prove!(size_of::<Place>() == 4);

impl Model for Place {
    ghost use Rattle.std.specs.Prelude.{ℕ, Option};
    ghost use Rattle.num_table.specs.Place.{kept_key};

    ghost Value = { Option ℕ };

    ghost view = { λ p. kept_key p.number };
}

// The greatest number is out of memory, as a key past those of 32 bits is.
impl TryFrom<u32> for Place {
    type Error = NoMemory;

    ghost try_from_gives = { λ key result. MatchResult result (λ place. place ≡ Some key) (λ _. key ≡ 2 ^ 32 - 1) };

    fn try_from(key: u32) -> Result<Self, NoMemory> {
        if key == NO_KEY {
            Err(NoMemory)
        } else {
            Ok(Place { number: key })
        }
    }
}

impl Place {
    /// No key.
    pub fn none() -> Self
        ensures { result ≡ None }
    {
        Place { number: NO_KEY }
    }

    /// The key, if there is one.
    pub fn key(&self) -> Option<u32>
        ensures { result ≡ self.now }
    {
        if self.number == NO_KEY {
            None
        } else {
            Some(self.number)
        }
    }

    /// Takes the key out, if there is one, and leaves none.
    pub fn take(&mut self) -> Option<u32>
        ensures key { result ≡ self.old }
        ensures none { self.new ≡ None }
    {
        mem::replace(self, Place::none()).key()
    }
}
