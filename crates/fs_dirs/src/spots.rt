// The spots of entries, and the entries that are loaded.
ghost use Rattle.std.specs.Prelude.{◌≡◌, OnOk};
ghost use Rattle.std.specs.FinMap as map;
ghost use Rattle.std.specs.Ordering.{eq_by_cmp};
ghost use Rattle.kern_model.specs.Keys.{spot_cmp};
ghost use Rattle.fs_dirs.specs.Entries.{spot_of};

use crate::entries::Entries;
use fs_path::{Name, NoMemory};
use kern_model::Oid;
use std::alloc::Global;
use std::marker::Model;

/// The spot of an entry: the directory that holds it, and its name there.
pub type Spot = (Oid, Name);

/// The spot of an entry, lent.
#[derive(Clone, Copy)]
pub struct SpotRef<'a> {
    pub dir: &'a Oid,
    pub name: &'a Name,
}

impl SpotRef<'_> {
    /// Whether the two are one spot.
    #[tactic(auto, unfolding(kern_model::specs::Keys::oid_cmp, kern_model::specs::Keys::spot_cmp))]
    pub fn is_same(&self, other: &SpotRef<'_>) -> bool
        ensures { result ≡ eq_by_cmp spot_cmp (spot_of self.now) (spot_of other.now) }
    {
        self.dir
            .cmp(other.dir)
            .then(self.name.cmp(other.name))
            .is_eq()
    }
}

/// Where the entries lead that were loaded so far. They stand in their directories already.
#[derive(Drop)]
pub struct Spots {
    entries: Entries,
}

impl Model for Spots {
    ghost use Rattle.std.specs.FinMap as map;
    ghost use Rattle.kern_model.specs.declared.numbers.Oid.{Oid};
    ghost use Rattle.kern_model.specs.Keys.{spot_cmp};
    ghost use Rattle.kern_model.proofs.StateCode.{oid_code, spot_code};

    ghost Value = { map.FinMap spot_cmp Oid };

    ghost coded = { map.code spot_code oid_code };

    ghost view = { λ a. a.entries };
}

impl Spots {
    /// No entry.
    pub fn new(alloc: Global) -> Self
        ensures { result ≡ map.empty }
    {
        Spots {
            entries: Entries::new(alloc),
        }
    }

    /// Where the entry at a spot leads, if there is one.
    pub fn get(&self, spot: &Spot) -> Option<Oid>
        ensures { result ≡ map.get self.now spot.now }
    {
        self.entries.look(&spot.0, &spot.1)
    }

    /// Has the entry at a spot lead to an object, in place of the one to which it led.
    pub fn set(&mut self, spot: Spot, id: Oid) -> Result<(), NoMemory>
        ensures { OnOk result (self.new ≡ map.insert self.old spot id) }
    {
        let (dir, name) = spot;
        self.entries.insert(&dir, name, &id)
    }

    /// The entries.
    pub(crate) fn into_entries(self) -> Entries
        ensures { result ≡ self }
    {
        self.entries
    }
}
