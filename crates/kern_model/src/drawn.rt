// The last number drawn of each label.
ghost use Rattle.std.specs.Prelude.{◌≡◌, ◌+◌, ◌<◌, ◌≤◌, MatchOption, OnErr, OnOk};
ghost use Rattle.std.specs.FinMap as map;
ghost use Rattle.kern_model.specs.State.{last_drawn};

use crate::{LabelMap, NoMemory};
use lab_lattice::Label;
use std::alloc::Global;
use std::marker::Model;

/// The last number drawn of each label.
pub struct Numbers {
    kept: LabelMap<u16>,
}

impl Drop for Numbers {
    fn drop(self) {
        let Numbers { kept: _ } = self;
    }
}

impl Model for Numbers {
    ghost use Rattle.std.specs.Prelude.{ℕ};
    ghost use Rattle.std.specs.FinMap as map;
    ghost use Rattle.std.specs.Coded.{codes};
    ghost use Rattle.lab_lattice.specs.Label.{label_cmp, label_code};

    ghost Value = { map.FinMap label_cmp ℕ };

    ghost coded = { map.code (Prim.hlevel (codes, label_code)) (Prim.hlevel (codes, label_code)) };

    ghost view = { λ a. a.kept };
}

impl Numbers {
    /// The empty table.
    pub fn new(alloc: Global) -> Self
        ensures { result ≡ map.empty }
    {
        Numbers {
            kept: LabelMap::new(alloc),
        }
    }

    /// The number that is kept for a label, if there is one.
    pub fn get(&self, label: &Label) -> Option<u16>
        ensures { result ≡ map.get self.now label.now }
    {
        self.kept.get(label).copied()
    }

    /// The last number drawn of a label, and 0 before the first.
    #[tactic(auto, unfolding(crate::specs::Maps::get_or))]
    pub fn last(&self, label: &Label) -> u16
        ensures { result ≡ last_drawn self.now label.now }
    {
        self.get(label).unwrap_or(0)
    }

    /// The next number of a label, or `None` where `most` are drawn.
    pub fn next(&self, label: &Label, most: u16) -> Option<u16>
        ensures { MatchOption result (most ≤ last_drawn self.now label.now) (λ n. (n ≡ last_drawn self.now label.now + 1) × (last_drawn self.now label.now < most)) }
    {
        let last = self.last(label);
        if last >= most {
            return None;
        }
        Some(last + 1)
    }

    /// Puts a number in place of what was there.
    pub fn set(&mut self, label: Label, value: u16) -> Result<(), NoMemory>
        ensures ok { OnOk result (self.new ≡ map.insert self.old label value) }
        ensures err { OnErr result (self.new ≡ self.old) }
    {
        self.kept.insert(label, value)
    }
}
