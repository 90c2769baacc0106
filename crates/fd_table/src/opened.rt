// What an open descriptor refers to.
use crate::shared::How;
use kern_model::{Did, Oid};
use std::marker::Model;

/// What an open descriptor refers to: a description, the object on which it stands, and how it is open.
#[derive(Debug, Drop)]
pub struct Opened {
    pub did: Did,
    pub object: Oid,
    pub how: How,
    /// Where it stands in a file, in bytes.
    pub offset: u32,
}

impl Model for Opened {
    ghost use Rattle.std.specs.Coded.{codes};
    ghost use Rattle.lab_lattice.specs.Label.{label_code};
    ghost use Rattle.kern_model.specs.Descriptors as model;

    ghost Value = { model.Opened };

    ghost coded = { Prim.hlevel (codes, label_code) };

    ghost view = { λ o. record { did = o.did; description = record { object = o.object; reads = o.how.reads; writes = o.how.writes; appends = o.how.appends; offset = o.offset } } };
}
