// What is reported of an object.
ghost use Rattle.std.specs.Prelude.{◌≡◌, length};
ghost use Rattle.kern_model.specs.State.{object_at};
ghost use Rattle.kern_model.specs.Stat.{stat_of};
ghost use Rattle.sys_lookup.specs.Shared.{metadata_of};

use crate::shared::{Metadata, Shared};
use kern_model::{Kind, Oid, StatAnswer};

impl Shared {
    /// What is reported of an object, or of the stub where there is none.
    #[tactic(auto, unfolding(kern_model::specs::Stat::stat_of))]
    pub fn report(&self, id: &Oid) -> StatAnswer
        ensures { result ≡ stat_of self.now id.now }
    {
        let (object, bytes) = self.metadata_and_size(id);
        let (size, names) = match object.kind {
            Kind::Dir => (self.tree.entry_count(id), 1),
            Kind::Pipe => (bytes, 0),
            Kind::File | Kind::Fifo => (bytes, self.tree.name_count(id)),
        };
        StatAnswer {
            kind: object.kind,
            mode: object.attr.mode,
            owner: object.attr.owner,
            group: object.attr.group,
            size,
            names,
            id: *id,
            label: object.label,
        }
    }

    // The metadata of an object, and how many bytes it contains.
    #[tactic(auto, unfolding(kern_model::specs::Maps::get_or))]
    fn metadata_and_size(&self, id: &Oid) -> (Metadata, u64)
        ensures metadata { result.0 ≡ metadata_of self.now id.now }
        ensures size { result.1 ≡ length (object_at self.now id.now).bytes }
    {
        match self.tree.nodes().get(id) {
            Some(object) => (Metadata::of(id, object), object.bytes.items().len() as u64),
            None => (Metadata::of_stub(id, &self.top), 0),
        }
    }

    /// How many bytes an object contains; none where it is not there.
    #[tactic(auto, unfolding(kern_model::specs::Maps::get_or))]
    pub fn byte_count(&self, id: &Oid) -> u64
        ensures { result ≡ length (object_at self.now id.now).bytes }
    {
        match self.tree.nodes().get(id) {
            Some(object) => object.bytes.items().len() as u64,
            None => 0,
        }
    }
}
