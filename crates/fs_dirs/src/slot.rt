// An entry of a directory, with the head of its name.
ghost use Rattle.std.specs.Prelude.{◌≡◌, true};
ghost use Rattle.fs_path.specs.Name.{is_name};
ghost use Rattle.fs_dirs.specs.Head.{are_bytes, head_of};

use crate::head::Head;
use fs_path::{Name, NoMemory};
use kern_model::Oid;
use std::alloc::Global;

/// A name in a directory, and the object to which it leads.
#[derive(Drop)]
pub struct Entry {
    pub name: Name,
    pub id: Oid,
}

/// An entry on the heap, and beside it the head of its name, which mostly tells it from others without a look at the heap.
#[derive(Drop)]
pub struct Slot {
    pub head: Head,
    pub entry: Box<Entry>,
    ghost head_is: { head ≡ head_of entry.value.name },
    ghost bytes: { are_bytes entry.value.name ≡ true },
    ghost name: { is_name entry.value.name ≡ true },
}

impl Slot {
    ghost use Rattle.std.specs.Prelude.{IfOk};

    /// The entry of a name that leads to an object.
    pub fn new(alloc: Global, name: Name, id: Oid) -> Result<Slot, NoMemory>
        ensures { IfOk result (λ slot. slot.entry.value ≡ record { name = name; id = id }) }
    {
        let head = Head::of(&name);
        let entry = Box::new(alloc, Entry { name, id })?;
        Ok(Slot { head, entry })
    }

    /// Has the name lead to another object, and returns the one to which it led.
    pub fn lead_to(&mut self, id: Oid) -> Oid
        ensures led { result ≡ self.old.entry.value.id }
        ensures leads { self.new.entry.value ≡ record { name = self.old.entry.value.name; id = id } }
    {
        let led = self.entry.id;
        self.entry.id = id;
        led
    }
}
