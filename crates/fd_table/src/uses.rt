// How many descriptions each object has.
ghost use Rattle.std.specs.Prelude.{◌≡◌, ◌+◌, IfOk, OnErr, OnOk, cond};
ghost use Rattle.std.specs.FinMap as map;
ghost use Rattle.kern_model.specs.Keys.{same_oid};
ghost use Rattle.kern_model.specs.Maps.{get_or};
ghost use Rattle.kern_model.specs.declared.numbers.Oid.{Oid as Number};
ghost use Rattle.fd_table.specs.Uses.{Includes, more_if, no_use, with_more};

use crate::shared::How;
use kern_model::{NoMemory, Oid};
use num_table::Table;
use std::alloc::Global;
use std::marker::Model;

/// How many descriptions an object has.
#[derive(Clone, Copy, PartialEq, Eq)]
pub struct UseCount {
    pub all: usize,
    /// How many of them are open for reading.
    pub readers: usize,
    /// How many of them are open for writing.
    pub writers: usize,
}

// No description.
const NO_USE: UseCount = UseCount {
    all: 0,
    readers: 0,
    writers: 0,
};

// A number, with one more where a description is counted in it.
fn one_more(count: usize, counts: bool) -> Result<usize, NoMemory>
    ensures { IfOk result (λ n. n ≡ count + cond counts 1 0) }
{
    count.checked_add(usize::from(counts)).ok_or(NoMemory)
}

impl UseCount {
    // One description more.
    fn plus(self, how: How) -> Result<UseCount, NoMemory>
        ensures { IfOk result (λ n. n ≡ with_more how self) }
    {
        Ok(UseCount {
            all: one_more(self.all, true)?,
            readers: one_more(self.readers, how.reads)?,
            writers: one_more(self.writers, how.writes)?,
        })
    }

    // One description less.
    fn minus(self, how: How) -> UseCount
        requires { Includes self how }
        ensures { self ≡ with_more how result }
    {
        UseCount {
            all: self.all - 1,
            readers: self.readers - usize::from(how.reads),
            writers: self.writers - usize::from(how.writes),
        }
    }
}

/// How many descriptions each object has. One without descriptions is not kept.
#[derive(Drop)]
pub struct Uses {
    counts: Table<UseCount>,
}

impl Model for Uses {
    ghost use Rattle.std.specs.FinMap as map;
    ghost use Rattle.std.specs.Coded.{codes};
    ghost use Rattle.lab_lattice.specs.Label.{label_code};
    ghost use Rattle.kern_model.specs.Keys.{oid_cmp};
    ghost use Rattle.kern_model.specs.ByNumber.{by_oid};
    ghost use Rattle.fd_table.specs.declared.uses.UseCount.{UseCount};

    ghost Value = { map.FinMap oid_cmp UseCount };

    ghost coded = { map.code (Prim.hlevel (codes, label_code)) (Prim.hlevel (codes, label_code)) };

    ghost view = { λ a. by_oid a.counts };
}

impl Uses {
    /// No object has a description.
    pub fn new(alloc: Global) -> Self
        ensures { result ≡ map.empty }
    {
        Uses {
            counts: Table::new(alloc),
        }
    }

    /// How many descriptions an object has.
    #[tactic(auto, unfolding(kern_model::specs::Maps::get_or))]
    #[inline(always)]
    pub fn count(&self, id: &Oid) -> UseCount
        ensures { result ≡ get_or self.now id.now no_use }
    {
        self.counts.get_at(id).copied().unwrap_or(NO_USE)
    }

    /// Counts one description more.
    pub fn add_one(&mut self, id: &Oid, how: How) -> Result<(), NoMemory>
        ensures ok { OnOk result ((q : Number) → get_or self.new q no_use ≡ more_if (same_oid id.now q) how (get_or self.old q no_use)) }
        ensures err { OnErr result (self.new ≡ self.old) }
    {
        let count = self.count(id).plus(how)?;
        self.counts.set_at(id, count)
    }

    /// Counts one description less. It takes no memory.
    pub fn remove_one(&mut self, id: &Oid, how: How)
        requires { Includes (get_or self.old id.now no_use) how }
        ensures { (q : Number) → get_or self.old q no_use ≡ more_if (same_oid id.now q) how (get_or self.new q no_use) }
    {
        let count = self.count(id).minus(how);
        if count == NO_USE {
            self.counts.remove_at(id);
        } else if self.counts.set_at(id, count).is_err() {
            unreachable!();
        }
    }
}
