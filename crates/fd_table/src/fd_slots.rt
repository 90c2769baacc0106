// The descriptors of one process.
ghost use Rattle.std.specs.Prelude.{◌≡◌, ◌<◌, ◌≤◌, ℕ, None, Some};
ghost use Rattle.std.specs.FinMap as map;
ghost use Rattle.kern_model.specs.Descriptors.{lowest_free};
ghost use Rattle.kern_model.specs.declared.limits.TheConstants.{MAX_DESCRIPTORS};
ghost use Rattle.kern_model.specs.declared.numbers.Did.{Did as Number};
ghost use Rattle.fd_table.specs.Fds.{HasFree, fd_count};

use crate::taken::TakenSlots;
use kern_model::limits::MAX_DESCRIPTORS;
use kern_model::{Did, Fd};
use lab_lattice::{Label, bottom};
use std::marker::Model;

/// The descriptors of one process, a slot for each, and the description to which each refers.
#[derive(Drop)]
pub struct FdSlots {
    /// Which of the slots are taken.
    taken: TakenSlots,
    /// The labels of the numbers in the slots that are taken.
    labels: [Label; MAX_DESCRIPTORS],
    /// The counts of their draws.
    counts: [u16; MAX_DESCRIPTORS],
}

impl Model for FdSlots {
    ghost use Rattle.std.specs.Prelude.{◌≡◌, length};
    ghost use Rattle.std.specs.FinMap as map;
    ghost use Rattle.std.specs.Coded.{coded_ℕ};
    ghost use Rattle.kern_model.specs.declared.limits.TheConstants.{MAX_DESCRIPTORS};
    ghost use Rattle.fd_table.specs.Fds.{Fds, fds_in, slots_of};
    ghost use Rattle.kern_model.proofs.StateCode.{did_code};

    ghost Value = { Fds };

    ghost coded = { map.code coded_ℕ did_code };

    ghost view = { λ r. fds_in (slots_of r.taken r.labels r.counts) };

    ghost invariant = { λ r. length r.taken ≡ MAX_DESCRIPTORS };
}

impl FdSlots {
    /// No descriptor.
    pub fn new() -> Self
        ensures { result ≡ map.empty }
    {
        FdSlots {
            taken: TakenSlots::new(),
            labels: [bottom(); MAX_DESCRIPTORS],
            counts: [0; MAX_DESCRIPTORS],
        }
    }

    /// The same descriptors.
    pub fn copy(&self) -> Self
        ensures { result ≡ self.now }
    {
        let mut labels = [bottom(); MAX_DESCRIPTORS];
        labels.copy_from_slice(&self.labels);
        let mut counts = [0; MAX_DESCRIPTORS];
        counts.copy_from_slice(&self.counts);
        FdSlots {
            taken: self.taken.copy(),
            labels,
            counts,
        }
    }

    /// How many descriptors there are.
    pub fn len(&self) -> usize
        ensures count { result ≡ fd_count self.now }
        ensures few { result ≤ MAX_DESCRIPTORS }
    {
        self.taken.count()
    }

    /// The description to which a descriptor refers, if it is open.
    pub fn get(&self, fd: Fd) -> Option<Did>
        ensures did { result ≡ map.get self.now fd }
        ensures below { (did : Number) → result ≡ Some did → fd < MAX_DESCRIPTORS }
    {
        if !self.taken.has(fd) {
            return None;
        }
        Some(Did {
            label: self.labels[fd as usize],
            n: self.counts[fd as usize],
        })
    }

    /// The lowest descriptor that is free.
    pub fn lowest(&self) -> Fd
        requires { HasFree self.now }
        ensures lowest { result ≡ lowest_free self.now }
        ensures below { result < MAX_DESCRIPTORS }
        ensures free { map.get self.now result ≡ None }
    {
        self.taken.lowest_free()
    }

    /// Has a descriptor refer to a description.
    pub fn set(&mut self, fd: Fd, did: Did)
        requires { fd < MAX_DESCRIPTORS }
        ensures { self.new ≡ map.insert self.old fd did }
    {
        self.labels[fd as usize] = did.label;
        self.counts[fd as usize] = did.n;
        self.taken.insert(fd);
    }

    /// Frees a descriptor.
    pub fn remove(&mut self, fd: Fd)
        requires { fd < MAX_DESCRIPTORS }
        ensures { self.new ≡ map.remove self.old fd }
    {
        self.taken.remove(fd);
    }
}
