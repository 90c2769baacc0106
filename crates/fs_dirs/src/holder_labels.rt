// The labels of the directories that hold objects.
ghost use Rattle.std.specs.Prelude.{◌≡◌, ◌==◌, ◌+◌, IfSome, OnOk, is_some};
ghost use Rattle.std.specs.Bool.{OnTrue};
ghost use Rattle.std.specs.FinMap as map;
ghost use Rattle.std.specs.Option.{option_map};
ghost use Rattle.fs_dirs.specs.HolderLabels.{AreCounted, AreNames, HasMoreAt, Names, are_below, names_at, with_name};

use crate::NoMemory;
use kern_model::Oid;
use lab_lattice::{Label, Lattice};
use std::alloc::Global;
use std::collections::BTreeMap;
use std::marker::Model;

/// How many names of an object stand in directories of each label.
#[derive(Drop)]
pub struct LabelCounts {
    // How many further names there are at a label beside the first.
    further: BTreeMap<Label, u32>,
}

impl Model for LabelCounts {
    ghost use Rattle.std.specs.FinMap as map;
    ghost use Rattle.std.specs.Coded.{coded_ℕ};
    ghost use Rattle.lab_lattice.specs.Label.{label_code};
    ghost use Rattle.fs_dirs.specs.HolderLabels.{Counts};

    ghost Value = { Counts };

    ghost coded = { map.code label_code coded_ℕ };

    ghost view = { λ c. map.from_entries c.further.entries };
}

// How many further names there are after one comes, and more beside it, if the number fits.
fn more_names(further: Option<u32>, more: u32) -> Option<u32>
    ensures { IfSome result (λ sum. sum ≡ names_at further + more) }
{
    match further {
        Some(further) => further.checked_add(more)?.checked_add(1),
        None => Some(more),
    }
}

impl LabelCounts {
    /// No name.
    pub fn new(alloc: Global) -> Self
        ensures { result ≡ map.empty }
    {
        LabelCounts {
            further: BTreeMap::new(alloc),
        }
    }

    /// Adds a name at a label, and further ones beside it.
    pub fn add(&mut self, label: &Label, further: u32) -> Result<(), NoMemory>
        ensures { OnOk result (HasMoreAt self.old label.now (further + 1) self.new) }
    {
        let Some(sum) = more_names(self.further.get(label).copied(), further) else {
            return Err(NoMemory);
        };
        self.further.insert(*label, sum)?;
        Ok(())
    }

    // Takes a name at a label, and returns whether it was there and others are left.
    fn take(&mut self, label: &Label) -> bool
        ensures { OnTrue result (HasMoreAt self.new label.now 1 self.old) }
    {
        let Some(further) = self.further.get(label).copied() else {
            return false;
        };
        if further > 0 {
            return self.further.insert(*label, further - 1).is_ok();
        }
        self.further.remove(label);
        !self.further.is_empty()
    }

    // Whether a label dominates all labels at which there is a name.
    fn are_below(&self, label: &Label) -> bool
        ensures { result ≡ are_below label.now self.now }
    {
        self.further.keys().all(|below| label.dominates(below))
    }
}

/// How many names of objects stand in directories of each label. Where there is no memory for it, an object is not counted.
#[derive(Drop)]
pub struct HolderLabels {
    by_object: BTreeMap<Oid, LabelCounts>,
}

impl Model for HolderLabels {
    ghost use Rattle.std.specs.FinMap as map;
    ghost use Rattle.std.specs.Coded.{coded_ℕ};
    ghost use Rattle.lab_lattice.specs.Label.{label_code};
    ghost use Rattle.kern_model.specs.Keys.{oid_cmp};
    ghost use Rattle.kern_model.proofs.StateCode.{oid_code};
    ghost use Rattle.fs_dirs.specs.HolderLabels.{Counts};

    ghost Value = { map.FinMap oid_cmp Counts };

    ghost coded = { map.code oid_code (map.code label_code coded_ℕ) };

    ghost view = { λ h. map.from_entries h.by_object.entries };
}

impl HolderLabels {
    /// No object is counted.
    pub fn new(alloc: Global) -> Self
        ensures { result ≡ map.empty }
    {
        HolderLabels {
            by_object: BTreeMap::new(alloc),
        }
    }

    /// Whether no object is counted.
    pub fn is_empty(&self) -> bool
        ensures { result ≡ (map.len self.now == 0) }
    {
        self.by_object.is_empty()
    }

    /// Whether an object is counted.
    pub fn is_counted(&self, id: &Oid) -> bool
        ensures { result ≡ is_some (map.get self.now id.now) }
    {
        self.by_object.contains_key(id)
    }

    /// Whether a label dominates all labels at which an object has a name, where the object is counted.
    pub fn all_below(&self, id: &Oid, label: &Label) -> Option<bool>
        ensures { result ≡ option_map (are_below label.now) (map.get self.now id.now) }
    {
        match self.by_object.get(id) {
            Some(counts) => Some(counts.are_below(label)),
            None => None,
        }
    }

    /// Has an object counted, if there is memory for it.
    pub fn count(&mut self, id: &Oid, counts: LabelCounts)
        ensures { (names : Names) → AreCounted self.old names → AreNames counts (names id.now) → AreCounted self.new names }
    {
        let _ = self.by_object.insert(*id, counts);
    }

    // Has an object not counted any more.
    fn forget(&mut self, id: &Oid)
        ensures { self.new ≡ map.remove self.old id.now }
    {
        self.by_object.remove(id);
    }

    /// Counts one more name of an object at a label, if the object is counted.
    pub fn add_name(&mut self, id: &Oid, label: &Label)
        ensures { (names : Names) → AreCounted self.old names → AreCounted self.new (with_name names id.now label.now) }
    {
        let Some(counts) = self.by_object.get_mut(id) else {
            return;
        };
        if counts.add(label, 0).is_err() {
            self.forget(id);
        }
    }

    /// Counts one name less of an object at a label, if the object is counted.
    pub fn take_name(&mut self, id: &Oid, label: &Label)
        ensures { (names : Names) → AreCounted self.old (with_name names id.now label.now) → AreCounted self.new names }
    {
        let Some(counts) = self.by_object.get_mut(id) else {
            return;
        };
        if !counts.take(label) {
            self.forget(id);
        }
    }

    /// Has no object counted any more.
    pub fn clear(&mut self)
        ensures { self.new ≡ map.empty }
    {
        self.by_object.clear();
    }
}
