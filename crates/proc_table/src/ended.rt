// The children of a process that ended.
ghost use Rattle.std.specs.Prelude.{◌≡◌, ◌+◌, ◌<◌, ◌^◌, ◌==◌, [], ◌∷◌, ◌++◌, length, IfOk, MatchOption};

use kern_model::{Ending, NoMemory, Pid};
use std::alloc::Global;
use std::collections::LinkedList;
use std::marker::Model;

/// A place in a list of ended children. It is made before the child ends, so that ending takes no memory.
#[derive(Debug, Drop)]
pub struct Place {
    entry: LinkedList<(Pid, Ending)>,
}

impl Model for Place {
    ghost use Rattle.std.specs.Prelude.{◌≡◌, length};
    ghost use Rattle.kern_model.proofs.StateCode.{ended_code};
    ghost use Rattle.proc_table.specs.Procs.{EndedChildren};

    ghost Value = { EndedChildren };

    ghost coded = { ended_code };

    ghost view = { λ p. p.entry };

    ghost invariant = { λ p. length p.entry ≡ 1 };
}

impl Place {
    /// A place for a child.
    pub fn new(alloc: Global, child: Pid) -> Result<Self, NoMemory> {
        let mut entry = LinkedList::new(alloc);
        // The ending is written when the child ends.
        entry.push_back((child, Ending::Kill))?;
        Ok(Place { entry })
    }
}

/// Children that ended and were not awaited, with how each ended, the first to end first.
#[derive(Debug, Drop)]
pub struct EndedList {
    entries: LinkedList<(Pid, Ending)>,
}

impl Model for EndedList {
    ghost use Rattle.kern_model.proofs.StateCode.{ended_code};
    ghost use Rattle.proc_table.specs.Procs.{EndedChildren};

    ghost Value = { EndedChildren };

    ghost coded = { ended_code };

    ghost view = { λ l. l.entries };
}

impl EndedList {
    /// No child. It does not allocate.
    pub fn new(alloc: Global) -> Self
        ensures { result ≡ [] }
    {
        EndedList {
            entries: LinkedList::new(alloc),
        }
    }

    /// Whether the list is empty.
    pub fn is_empty(&self) -> bool
        ensures { result ≡ (length self.now == 0) }
    {
        self.entries.is_empty()
    }

    /// Appends a child, in the place that was made for it. It takes no memory.
    pub fn add(&mut self, place: Place, child: Pid, ending: Ending)
        requires { length self.old + 1 < 2 ^ 63 }
        ensures { self.new ≡ self.old ++ (child, ending) ∷ [] }
    {
        let Place { mut entry } = place;
        let Some(slot) = entry.front_mut() else {
            unreachable!();
        };
        *slot = (child, ending);
        if self.entries.append(&mut entry).is_err() {
            unreachable!();
        }
    }

    /// Takes the child that ended first off the list, if there is one. It takes no memory.
    pub fn take_first(&mut self) -> Option<(Pid, Ending)>
        ensures { MatchOption result ((self.old ≡ []) × (self.new ≡ [])) (λ first. self.old ≡ first ∷ self.new) }
    {
        self.entries.pop_front()
    }
}
