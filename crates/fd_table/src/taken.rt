// Which slots of a process are taken.
ghost use Rattle.std.specs.Prelude.{◌≡◌, ◌<◌, ◌≤◌, true, false, IsTrue, count_by, get_or, not, replicate, set};
ghost use Rattle.std.specs.List.{position_or_len};
ghost use Rattle.kern_model.specs.declared.limits.TheConstants.{MAX_DESCRIPTORS};

use kern_model::Fd;
use kern_model::limits::MAX_DESCRIPTORS;
use std::marker::Model;

/// Which slots of a process are taken, a bit for each.
#[derive(Drop)]
pub struct TakenSlots {
    bits: u32,
}

impl Model for TakenSlots {
    ghost use Rattle.std.specs.Prelude.{Bool, List};
    ghost use Rattle.kern_model.specs.declared.limits.TheConstants.{MAX_DESCRIPTORS};
    ghost use Rattle.fd_table.specs.Taken.{lowest_bits};

    ghost Value = { List Bool };

    ghost view = { λ s. lowest_bits MAX_DESCRIPTORS s.bits };
}

impl TakenSlots {
    /// No slot is taken.
    pub fn new() -> Self
        ensures { result ≡ replicate MAX_DESCRIPTORS false }
    {
        TakenSlots { bits: 0 }
    }

    /// The same slots.
    pub fn copy(&self) -> Self
        ensures { result ≡ self.now }
    {
        TakenSlots { bits: self.bits }
    }

    /// How many slots are taken.
    pub fn count(&self) -> usize
        ensures count { result ≡ count_by (λ taken. taken) self.now }
        ensures few { result ≤ MAX_DESCRIPTORS }
    {
        self.bits.count_ones() as usize
    }

    /// Whether a slot is taken.
    pub fn has(&self, slot: Fd) -> bool
        ensures taken { result ≡ get_or self.now slot false }
        ensures below { IsTrue result → slot < MAX_DESCRIPTORS }
    {
        (slot as usize) < MAX_DESCRIPTORS && self.bits >> slot & 1 == 1
    }

    /// The lowest slot that is free.
    pub fn lowest_free(&self) -> Fd
        requires { count_by (λ taken. taken) self.now < MAX_DESCRIPTORS }
        ensures lowest { result ≡ position_or_len not self.now }
        ensures below { result < MAX_DESCRIPTORS }
    {
        self.bits.trailing_ones()
    }

    /// Takes a slot.
    pub fn insert(&mut self, slot: Fd)
        requires { slot < MAX_DESCRIPTORS }
        ensures { self.new ≡ set self.old slot true }
    {
        self.bits |= 1 << slot;
    }

    /// Frees a slot.
    pub fn remove(&mut self, slot: Fd)
        requires { slot < MAX_DESCRIPTORS }
        ensures { self.new ≡ set self.old slot false }
    {
        self.bits &= !(1 << slot);
    }
}
