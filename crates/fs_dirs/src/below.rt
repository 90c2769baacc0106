// The way down from an object.
ghost use Rattle.std.specs.Prelude.{◌≡◌, OnErr, OnOk};
ghost use Rattle.fs_dirs.specs.Below.{HasAllDue, IsUnderDue, is_over, with_due};
ghost use Rattle.fs_dirs.specs.Entries.{entries_alone};

use crate::entries::Entries;
use fs_path::NoMemory;
use kern_model::Oid;
use std::alloc::Global;

// A directory whose entries are due up to a place.
#[derive(Drop)]
struct Due {
    dir: Oid,
    place: usize,
}

/// The way down from an object: the entries below it that are due, which means that they were not looked at yet.
#[derive(Drop)]
pub struct Below {
    due: Vec<Due>,
    // Whether what lies below the object was looked at, or lies below an entry that is due. Else the way down is given up.
    complete: bool,
}

impl Below {
    /// The way down from an object. Each of its entries is due.
    pub fn new(alloc: Global, top: &Oid, entries: &Entries) -> Self
        ensures { HasAllDue (entries_alone entries.now) top.now result }
    {
        let mut below = Below {
            due: Vec::new(alloc),
            complete: true,
        };
        below.complete = below.enter(*top, entries.len(top)).is_ok();
        below
    }

    /// Whether no entry is due, and everything below the object was looked at.
    pub fn is_over(&self) -> bool
        ensures { result ≡ is_over self.now }
    {
        self.complete && self.due.is_empty()
    }

    /// Looks at one entry that is due. The way down is given up where memory runs out, and where the entry leads to the goal,
    /// since the way up from the goal is not longer.
    pub fn step(&mut self, entries: &Entries, goal: &Oid)
        ensures { IsUnderDue (entries_alone entries.now) self.old goal.now → IsUnderDue (entries_alone entries.now) self.new goal.now }
    {
        if self.look(entries, goal).is_err() {
            self.complete = false;
        }
    }

    // The same. Where it fails, entries that were due may be lost.
    fn look(&mut self, entries: &Entries, goal: &Oid) -> Result<(), NoMemory>
        ensures { OnOk result (IsUnderDue (entries_alone entries.now) self.old goal.now → IsUnderDue (entries_alone entries.now) self.new goal.now) }
    {
        let Some(due) = self.due.pop() else {
            return Ok(());
        };
        self.enter(due.dir, due.place)?;
        let Some(child) = entries.object_at(&due.dir, due.place) else {
            return Ok(());
        };
        if child.is_same(goal) {
            self.complete = false;
            return Ok(());
        }
        self.enter(child, entries.len(&child))
    }

    // Has so many entries of a directory be due.
    fn enter(&mut self, dir: Oid, count: usize) -> Result<(), NoMemory>
        ensures due { OnOk result (self.new.due.items ≡ with_due self.old.due.items dir count) }
        ensures err { OnErr result (self.new.due.items ≡ self.old.due.items) }
        ensures complete { self.new.complete ≡ self.old.complete }
    {
        if count > 0 {
            self.due.push(Due {
                dir,
                place: count - 1,
            })?;
        }
        Ok(())
    }
}
